ghost use Rattle.std.specs.Prelude.{◌≡◌, ◌+◌, ◌<◌};
ghost use Rattle.commit_core.specs.Attempts.{attempt_at};

use task_forms::Task;

/// How often a task may be refused; then it is settled.
pub const REFUSAL_LIMIT: u8 = 3;

/// A task that is to be committed: how often its commits were refused, and why the last of them was.
#[derive(Drop)]
pub struct Attempt {
    /// The task.
    pub task: Task,
    /// How often a commit of it was refused, at most `REFUSAL_LIMIT` times.
    pub refused: u8,
    /// The number of the entry in its last setback, 0 before any.
    pub last: u64,
}

impl Attempt {
    /// A task that was not tried yet.
    pub fn new(task: Task) -> Attempt
        ensures { result ≡ attempt_at task 0 0 }
    {
        Attempt {
            task,
            refused: 0,
            last: 0,
        }
    }

    /// How often it was refused.
    pub fn refused(&self) -> u8
        ensures { result ≡ self.now.refused }
    {
        self.refused
    }

    /// The number of the entry in its last setback, 0 before any.
    pub fn last(&self) -> u64
        ensures { result ≡ self.now.last }
    {
        self.last
    }

    // The attempt after a setback by the entry of a number.
    pub(crate) fn refused_by(self, number: u64) -> Attempt
        requires { self.refused < 3 }
        ensures { result ≡ attempt_at self.task (self.refused + 1) number }
    {
        let Attempt { task, refused, .. } = self;
        Attempt {
            task,
            refused: refused + 1,
            last: number,
        }
    }
}
