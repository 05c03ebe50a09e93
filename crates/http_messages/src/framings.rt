/// How the body behind a head is framed (RFC 9112, section 6.3).
#[derive(Clone, Copy, Debug, PartialEq, Eq)]
pub enum Framing {
    /// There is no body.
    Empty,
    /// The body has so many bytes.
    Length(u64),
    /// The body comes in chunks.
    Chunked,
}

/// The first rule that a head breaks, in the order in which they are judged.
#[derive(Clone, Copy, Debug, PartialEq, Eq)]
pub enum HeadFault {
    /// HTTP/1.1 without exactly one Host, or HTTP/1.0 with more than one: 400.
    Host,
    /// Both Content-Length and Transfer-Encoding: 400.
    TwoFramings,
    /// Transfer-Encoding in HTTP/1.0, or one whose last coding is not `chunked`: 400.
    BadCoding,
    /// A Transfer-Encoding other than the one coding `chunked`: 501.
    UnknownCoding,
    /// More than one Content-Length, or one that is no number: 400.
    BadLength,
    /// A Content-Length above 1,048,576: 413.
    LongBody,
    /// An Expect other than `100-continue` in HTTP/1.1: 417.
    Expectation,
}

/// Why the bytes that stand where a request should begin are refused.
#[derive(Clone, Copy, Debug, PartialEq, Eq)]
pub enum RefusedRest {
    /// They begin no head, whatever may follow: 400.
    Hopeless,
    /// They begin with no head of at most 16,384 bytes: 431.
    TooLarge,
    /// The head has more than 64 fields: 431.
    TooMany,
    /// The head breaks that rule.
    Head(HeadFault),
    /// A chunk line, chunk end or trailer section is none: 400.
    BadChunk,
    /// The chunks sum to more than 1,048,576 bytes: 413.
    LargeBody,
}
