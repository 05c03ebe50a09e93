//! A log may be sent to other threads, and seen by them.
ghost use Rattle.std.specs.Prelude.{◌≡◌};

use crate::CommitLog;

fn sends<T: Send + Sync>(value: T) -> T
    ensures { result ≡ value }
{
    value
}

/// Nothing happens to a log that crosses.
pub(crate) fn crosses(log: CommitLog) -> CommitLog
    ensures { result ≡ log }
{
    sends(log)
}
