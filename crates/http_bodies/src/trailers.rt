ghost use Rattle.http_framing.specs.Fills.{Adds};
ghost use Rattle.http_bodies.specs.Trailers.{TrailersOn, TrailersCause};

use http_framing::{Buffer, Fill, Section};
use http_messages::TRAILER_LIMIT;
use outer_ends::Source;

/// What was found where trailers should stand.
#[derive(Clone, Copy, Debug, PartialEq, Eq)]
pub enum TrailersEnd {
    /// A trailer section of so many bytes, with the line that ends it.
    Trailers(usize),
    /// No trailer section.
    Bad,
    /// The input ended before the section did.
    Cut,
    /// The source failed before.
    Fault,
}

/// Reads until a trailer section of at most 16,384 bytes is at the front of the buffer, where it stays.
pub fn take_trailers<S: Source>(source: &mut S, buffer: &mut Buffer) -> TrailersEnd
    ensures adds { Adds buffer.old buffer.new (S.told source.old) (S.told source.new) }
    ensures trailers { TrailersOn buffer.new (S.told source.new).left result }
    ensures cause { TrailersCause (S.told source.old) (S.told source.new) result }
{
    'reading: loop {
        match buffer.judge_section() {
            Section::Whole(len) => return TrailersEnd::Trailers(len),
            Section::Never => return TrailersEnd::Bad,
            Section::Open => {
                if TRAILER_LIMIT <= buffer.as_slice().len() {
                    return TrailersEnd::Bad;
                }
            }
        }
        match buffer.fill(source) {
            Fill::More => (),
            Fill::End => return TrailersEnd::Cut,
            Fill::Failed => return TrailersEnd::Fault,
        }
    }
}
