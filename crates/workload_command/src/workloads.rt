//! The command `workload`.
ghost use Rattle.std.specs.Prelude.{◌≡◌, ◌⊎◌, ◌≤◌};
ghost use Rattle.workload_command.specs.declared.words.TheConstants.{REQUEST_LIMIT};
ghost use Rattle.workload_command.specs.Workloads.{RunsOut, TellsCounts, WorkloadBy};

use crate::counts::counts_text;
use crate::runs::run_workload;
use crate::words::{WorkloadWords, workload_words};
use command_lines::{refuse, tell};
use ident_rules::Text;
use outer_ends::Sink;
use std::alloc::Global;

/// Serves the requests that the words ask for, and writes what was counted.
fn tell_workload<K: Sink>(alloc: Global, asked: WorkloadWords, sink: &mut K) -> u8
    requires few { asked.requests ≤ REQUEST_LIMIT }
    ensures { TellsCounts asked (K.told sink.old) (K.told sink.new) result ⊎ RunsOut (K.told sink.old) (K.told sink.new) result }
{
    let Ok(Some(counts)) = run_workload(alloc, asked) else {
        return 5;
    };
    let Ok(text) = counts_text(alloc, counts) else {
        return 5;
    };
    tell(text.as_str().as_bytes(), sink)
}

/// The command `workload`, given the words behind the program's name, which are `workload N SEED`: N from 1 to `REQUEST_LIMIT`, SEED a `u64`.
/// It makes ten people and N requests that SEED draws, serves them as one connection in memory over a blog that begins empty, and writes the
/// line `requests R ok A created B empty C missing D entries E bytes F`: the requests that were answered, the replies 200, 201, 204 and 404,
/// the entries of the history, and the bytes of the replies. The line is a function of N and SEED. Its answer is the exit status:
///
/// - 0: the line was written, after the session had answered all requests and ended by closing;
/// - 1: the sink failed, and its count says so;
/// - 2: the line `jsonapid: words` was written, where the words are others;
/// - 5: want of memory; nothing was written.
pub fn workload_command<K: Sink>(alloc: Global, words: &[Text], sink: &mut K) -> u8
    ensures { WorkloadBy words.now (K.told sink.old) (K.told sink.new) result }
{
    match workload_words(words) {
        Some(asked) => tell_workload(alloc, asked, sink),
        None => refuse("words", "", sink),
    }
}
