/// How the session of a connection ended.
#[derive(Clone, Copy, Debug, PartialEq, Eq)]
pub enum SessionEnd {
    /// The input ended between messages, or the last reply said that it closes.
    Closed,
    /// What stood where a message should begin was refused, and that reply was written. Its status.
    Refused(u16),
    /// The input ended inside a message.
    CutShort,
    /// The source failed.
    ReadFault,
    /// The sink failed.
    WriteFault,
    /// Memory ran out.
    NoMemory,
    /// The history took no further entry.
    Worn,
}
