ghost use Rattle.std.specs.Prelude.{◌≡◌, IsFalse, IsNone, IsSome};
ghost use Rattle.commands.specs.Notices.{notice_for};
ghost use Rattle.replay_command.specs.Replays.{is_replay};
ghost use Rattle.workload_command.specs.Words.{is_workload};
ghost use Rattle.commands.specs.Pipes.{is_pipe, path_of, ends, CommandBy};

use crate::notices::notice_for;
use crate::pipes::pipe_command;
use command_lines::tell;
use ident_rules::Text;
use outer_ends::{Opener, Sink, Source};
use replay_command::{is_replay, replay_command};
use std::alloc::Global;
use workload_command::{is_workload, workload_command};

/// The program, given the words behind its name: `--help` and `--version` alone write their notice, and touch nothing else; `replay` alone is
/// `replay_command`; where the first word is `workload`, the words are those of `workload_command`, and else those of `pipe_command`. Its answer is
/// the exit status: 0 for a notice, or 1 where the sink failed and its count says so; else that of the command.
pub fn command<S: Source, K: Sink, O: Opener>(
    alloc: Global,
    words: &[Text],
    opener: &mut O,
    source: &mut S,
    sink: &mut K,
) -> u8
    ensures runs { CommandBy O.Src.told words.now (ends (S.told source.old) (K.told sink.old) (O.told opener.old)) (ends (S.told source.new) (K.told sink.new) (O.told opener.new)) result }
    ensures still { IsSome (notice_for words.now) → (source.new ≡ source.old) × (opener.new ≡ opener.old) }
    ensures unread { IsFalse (is_replay words.now) → IsFalse (is_pipe words.now) → IsNone (path_of words.now) → source.new ≡ source.old }
    ensures unasked { IsNone (path_of words.now) → opener.new ≡ opener.old }
{
    if let Some(notice) = notice_for(words) {
        return tell(notice.as_bytes(), sink);
    }
    if is_replay(words) {
        return replay_command(alloc, words, source, sink);
    }
    if is_workload(words) {
        return workload_command(alloc, words, sink);
    }
    pipe_command(alloc, words, opener, source, sink)
}
