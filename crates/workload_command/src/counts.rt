//! What came of a workload, and the line that tells it.
ghost use Rattle.std.specs.Prelude.{◌≡◌, IfOk};
ghost use Rattle.workload_command.specs.Counts.{counts_text, tally_text};

use crate::tallies::Tally;
use ident_rules::{NoMemory, Text};
use std::alloc::Global;

/// What was counted of a session.
#[derive(Clone, Copy)]
pub struct Counts {
    /// The requests that were answered.
    pub requests: u64,
    /// The replies by their statuses.
    pub tally: Tally,
    /// The entries of the history.
    pub entries: u64,
    /// The bytes of the replies.
    pub bytes: u64,
}

/// The numbers of replies, as they stand in the line.
fn tally_text(alloc: Global, tally: Tally) -> Result<Text, NoMemory>
    ensures { IfOk result (λ t. t ≡ tally_text tally) }
{
    let Tally {
        ok,
        created,
        empty,
        missing,
    } = tally;
    let text = format!(in alloc; " ok {ok} created {created} empty {empty} missing {missing}")?;
    Ok(Text::from_string(text))
}

/// The line `requests R ok A created B empty C missing D entries E bytes F`. Its one error is want of memory.
pub fn counts_text(alloc: Global, counts: Counts) -> Result<Text, NoMemory>
    ensures { IfOk result (λ t. t ≡ counts_text counts) }
{
    let replies = tally_text(alloc, counts.tally)?;
    let Counts {
        requests,
        entries,
        bytes,
        ..
    } = counts;
    let replies = replies.as_str();
    let text = format!(in alloc; "requests {requests}{replies} entries {entries} bytes {bytes}\n")?;
    Ok(Text::from_string(text))
}
