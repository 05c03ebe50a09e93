use atomic_table::{Join, Play, Split, TableRule};
use std::collections::LinkedList;
use std::marker::{Brand, PhantomData};

/// A value that stands for lists of entries.
pub trait Keeps {
    ghost use Rattle.std.specs.Prelude.{ℕ, List};

    /// An entry of the history.
    type Entry;
    /// What the value is over, plain data that never changes.
    type Kind;

    /// It stands for this list, which begins behind this number.
    ghost stands: { Self → ℕ → List Self.Entry → Type 0 };

    /// The number of the pass that made an entry.
    ghost by: { Self.Entry → ℕ };

    /// The value's kind.
    ghost kind: { Self → Self.Kind };
}

/// How a history lock begins.
#[derive(Drop)]
pub struct Start {
    /// The number behind which the history begins.
    pub first: u64,
    /// How many passes there are.
    pub passes: u32,
}

/// What two passes had seen that were joined. No value of it is made.
pub struct Joined<E> {
    /// What one had seen.
    pub one: LinkedList<E>,
    /// What the other had seen.
    pub other: LinkedList<E>,
    /// How many entries were theirs.
    pub entries: u64,
}

/// What a pass knows. No value of it is made.
pub struct Knows<E, K> {
    /// Whether it holds the lock.
    pub holds: bool,
    /// The number behind which the history begins.
    pub first: u64,
    /// The lock's kind, once the lock has a value.
    pub kind: Option<K>,
    /// Its numbers.
    pub numbers: LinkedList<u32>,
    /// What it has seen of the history.
    pub seen: LinkedList<E>,
    /// The entries of the history that are its own.
    pub mine: LinkedList<E>,
    /// What it was joined from, until it takes the lock again.
    pub joined: Option<Joined<E>>,
}

/// The rule of the table.
pub struct Law<T> {
    of: PhantomData<T>,
}

impl<T: Keeps> TableRule<Option<T>, Knows<T::Entry, T::Kind>, Start> for Law<T> {
    ghost use Rattle.history_lock.specs.Rule.{IsKept};
    ghost use Rattle.history_lock.specs.Views.{blank};

    ghost holds = { λ start. IsKept T.stands T.by T.kind start };

    ghost first = { blank };
}

/// Takes the empty place, before there is a value.
pub struct Fetches<T> {
    of: PhantomData<T>,
}

impl<T: Keeps> Play<Option<T>, Knows<T::Entry, T::Kind>> for Fetches<T> {
    ghost use Rattle.history_lock.specs.Told.{Fetched};

    ghost then = { λ s me n now. Fetched me now };
}

/// Brings the value home for the first time.
pub struct Opens<T> {
    of: PhantomData<T>,
}

impl<T: Keeps> Play<Option<T>, Knows<T::Entry, T::Kind>> for Opens<T> {
    ghost use Rattle.history_lock.specs.Told.{Opened};

    ghost then = { λ s me n now. Opened T.kind me now };
}

/// Takes the lock, if it is free.
pub struct Takes<T> {
    of: PhantomData<T>,
}

impl<T: Keeps> Play<Option<T>, Knows<T::Entry, T::Kind>> for Takes<T> {
    ghost use Rattle.history_lock.specs.Told.{Taken};

    ghost then = { λ s. Taken T.stands T.by T.kind };
}

/// Gives the lock back.
pub struct Gives<T> {
    of: PhantomData<T>,
}

impl<T: Keeps> Play<Option<T>, Knows<T::Entry, T::Kind>> for Gives<T> {
    ghost use Rattle.history_lock.specs.Told.{Given};

    ghost then = { λ s me n now. Given me now };
}

/// Which entries a step adds. Each call picks them.
pub trait Adding<E> {
    ghost use Rattle.std.specs.Prelude.{List};

    ghost entries: { List E };
}

impl<E> Adding<E> for Brand {
    ghost use Rattle.std.specs.Prelude.{[]};

    ghost entries = { [] };
}

/// Adds an entry.
pub struct Raises<T, J> {
    of: PhantomData<(T, J)>,
}

impl<T: Keeps, J: Adding<T::Entry>> Play<Option<T>, Knows<T::Entry, T::Kind>> for Raises<T, J> {
    ghost use Rattle.history_lock.specs.Told.{Raised};

    ghost then = { λ s me n now. Raised J.entries me now };
}

/// Gives the first number of a pass to a new one.
pub struct Splits<T> {
    of: PhantomData<T>,
}

impl<T: Keeps> Split<Knows<T::Entry, T::Kind>> for Splits<T> {
    ghost use Rattle.history_lock.specs.Views.{first_of, rest_of};

    ghost left = { rest_of };

    ghost right = { first_of };
}

/// Makes one pass of two.
pub struct Merges<T> {
    of: PhantomData<T>,
}

impl<T: Keeps> Join<Knows<T::Entry, T::Kind>> for Merges<T> {
    ghost use Rattle.history_lock.specs.Views.{both_views, spent};

    ghost both = { both_views T.by };

    ghost spent = { spent };
}

/// Looks at what a join came to.
pub struct Settles<T> {
    of: PhantomData<T>,
}

impl<T: Keeps> Play<Option<T>, Knows<T::Entry, T::Kind>> for Settles<T> {
    ghost use Rattle.history_lock.specs.Told.{Settled};

    ghost then = { λ s me n now. Settled me now };
}
