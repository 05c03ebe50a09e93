use crate::Task;
use http_messages::Reply;

/// Why a desk has no reply.
#[derive(Clone, Copy, Debug, PartialEq, Eq)]
pub enum DeskEnd {
    /// Want of memory.
    NoMemory,
    /// The history has as many entries as it can hold, 2^62.
    Worn,
}

/// Answers tasks, each by one entry of one history. A desk stands for two lists of entries: `seen`, a legal history that
/// begins after a number and in a world, and `mine`, the entries of `seen` that were made by it, which it knows by a test.
pub trait Desk {
    ghost use Rattle.std.specs.Prelude.{◌≡◌, ℕ, Bool, List, IfOk, IfErr};
    ghost use Rattle.world_cells.specs.World.{World};
    ghost use Rattle.task_forms.specs.declared.tasks.Entry.{Entry};
    ghost use Rattle.task_forms.specs.Meaning.{Meaning, IsLegal};
    ghost use Rattle.task_forms.specs.Desks.{IsOwn, Joins, Refuses};

    /// What no call changes, as plain data.
    type Fixed;

    /// What no call changes.
    ghost fixed: { Self → Self.Fixed };
    /// What tasks mean to it.
    ghost meaning: { Self.Fixed → Meaning };
    /// Which entries are its own. Those of a desk alone are all, and those of a desk beside others have its numbers.
    ghost is_own: { Self.Fixed → Entry → Bool };
    /// After this number and from this world, it stands for what was seen and for its own.
    ghost stands: { Self → ℕ → World → List Entry → List Entry → Type 0 };

    /// The reply to a task, which then is the last entry of `seen` and of `mine`. After an error no entry was made for the
    /// task, though `seen` may have grown by those of others; `Worn` comes only where `seen` then ends at number 2^62.
    fn answer(&mut self, task: Task) -> Result<Reply, DeskEnd>
        requires fit { (meaning (fixed self.old)).fit task }
        ensures fixed { fixed self.new ≡ fixed self.old }
        ensures done { IfOk result (λ r. (first : ℕ) (w : World) (seen mine : List Entry) → stands self.old first w seen mine → Joins (stands self.new first w) seen mine task r) }
        ensures err { IfErr result (λ e. (first : ℕ) (w : World) (seen mine : List Entry) → stands self.old first w seen mine → Refuses (stands self.new first w) first seen mine e) };

    /// What it has seen is legal.
    ghost legal: { (d : Self) (first : ℕ) (w : World) (seen mine : List Entry) → stands d first w seen mine → IsLegal (meaning (fixed d)) w seen };

    /// Its own are exactly those of what it has seen that pass the test: no change of its own is among those of others.
    ghost own: { (d : Self) (first : ℕ) (w : World) (seen mine : List Entry) → stands d first w seen mine → IsOwn (is_own (fixed d)) seen mine };
}
