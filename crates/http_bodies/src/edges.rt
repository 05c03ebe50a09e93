ghost use Rattle.http_framing.specs.Fills.{Adds};
ghost use Rattle.http_bodies.specs.Edges.{EdgeOn, EdgeCause};

use http_framing::{Buffer, Fill};
use outer_ends::Source;

/// What was found where the end of a chunk should stand.
#[derive(Clone, Copy, Debug, PartialEq, Eq)]
pub enum EdgeEnd {
    /// CR LF.
    Edge,
    /// Something else.
    Bad,
    /// The input ended before.
    Cut,
    /// The source failed before.
    Fault,
}

/// Reads until CR LF is at the front of the buffer, where it stays.
pub fn take_edge<S: Source>(source: &mut S, buffer: &mut Buffer) -> EdgeEnd
    ensures adds { Adds buffer.old buffer.new (S.told source.old) (S.told source.new) }
    ensures edge { EdgeOn buffer.new (S.told source.new).left result }
    ensures cause { EdgeCause (S.told source.old) (S.told source.new) result }
{
    'reading: loop {
        match buffer.as_slice() {
            [b'\r', b'\n', ..] => return EdgeEnd::Edge,
            [] | [b'\r'] => (),
            _ => return EdgeEnd::Bad,
        }
        match buffer.fill(source) {
            Fill::More => (),
            Fill::End => return EdgeEnd::Cut,
            Fill::Failed => return EdgeEnd::Fault,
        }
    }
}
