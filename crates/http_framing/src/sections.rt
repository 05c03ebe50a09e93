ghost use Rattle.std.specs.Prelude.{◌≡◌, ◌≤◌, ◌*◌, ℕ, List, length, take};
ghost use Rattle.http_framing.specs.Sections.{SectionIs};
ghost use Rattle.http_messages.specs.declared.limits.TheConstants.{TRAILER_LIMIT};

use httparse::spans::{HeaderSpan, parse_headers};
use httparse::{Error, Status};

/// What stands at the front of a buffer where a section of fields should stand.
#[derive(Clone, Copy, Debug, PartialEq, Eq)]
pub enum Section {
    /// A whole section of so many bytes, the empty line that ends it included.
    Whole(usize),
    /// A part of one.
    Open,
    /// Neither, whatever may follow.
    Never,
}

/// Judges the bytes at the front of a buffer.
pub fn judge_section(bytes: &[u8], spans: &mut [HeaderSpan]) -> Section
    requires { length bytes.now ≤ 3 * length spans.old }
    ensures { (buffer : List ℕ) → bytes.now ≡ take TRAILER_LIMIT buffer → SectionIs buffer result }
{
    match parse_headers(bytes, spans) {
        Ok(Status::Complete((len, _))) => Section::Whole(len),
        Ok(Status::Partial) => Section::Open,
        Err(Error::TooManyHeaders) => Section::Never,
        Err(_) => Section::Never,
    }
}
