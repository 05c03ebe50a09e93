//! Nodes of a tree of cells: a cell with its key, a leaf of these, a branch of leaves.
ghost use Rattle.std.specs.Prelude.{◌≡◌, ◌≤◌, ◌++◌, ◌∷◌, [], ℕ, Some, None, length, map, IfOk};
ghost use Rattle.std.specs.Arc.{arc_value};
ghost use Rattle.ordered_pages.specs.Few.{nodes_of};
ghost use Rattle.ordered_pages.specs.Changed.{IsHalved, IsChangedIn, put_entries};
ghost use Rattle.std.specs.Option.{option_copied};
ghost use Rattle.std.specs.List.{flat_map};
ghost use Rattle.ordered_pages.specs.Entries.{Entry, passes, first_entry, first_left, last_passed, AreParted, AreRising, Each, IsBegun};

use crate::changes::{Change, Held};
use crate::few::Few;
use crate::shared::Shared;
use crate::stops::Stop;
use ident_rules::NoMemory;
use std::alloc::Global;
use std::cmp::Ordering;
use std::sync::Arc;
use world_cells::{Cell, CellKey};

/// A cell with its key, or a list of nodes. Contracts see the cells below it, in order.
pub(crate) trait Node: Drop {
    ghost use Rattle.std.specs.Prelude.{◌≡◌, Some, List, [], ◌∷◌, map, IfOk};
    ghost use Rattle.std.specs.Arc.{arc_value};
    ghost use Rattle.ordered_pages.specs.Few.{nodes_of};
    ghost use Rattle.ordered_pages.specs.Changed.{IsChanged};
    ghost use Rattle.std.specs.Option.{option_copied};
    ghost use Rattle.ordered_pages.specs.Entries.{Entry, passes, first_entry, first_left, last_passed, AreParted, AreRising, HasFirst};

    ghost entries: { Self → List Entry };

    ghost is_sound: { Self → Type 0 };

    /// What nodes in the place of one keep of it.
    ghost replaces: { Self → List Self → Type 0 };

    /// The first cell.
    fn first(&self) -> &Held
        requires { is_sound self.now }
        ensures { Some result.now ≡ first_entry (entries self.now) };

    /// The last cell that a search passes.
    fn up_to(&self, stop: &Stop) -> Option<&Held>
        requires sound { is_sound self.now }
        requires parted { AreParted (passes stop.now) (entries self.now) }
        ensures { option_copied result ≡ last_passed (passes stop.now) (entries self.now) };

    /// The first cell that a search does not pass.
    fn left(&self, stop: &Stop) -> Option<&Held>
        requires sound { is_sound self.now }
        requires parted { AreParted (passes stop.now) (entries self.now) }
        ensures { option_copied result ≡ first_left (passes stop.now) (entries self.now) };

    /// A node with one cell.
    fn made(alloc: Global, held: &Arc<Held>) -> Result<Arc<Self>, NoMemory>
    where
        Self: Sized,
        ensures { IfOk result (λ node. (entries (arc_value node) ≡ arc_value held.now ∷ []) × is_sound (arc_value node)) };

    /// This node with a change: none, one or two nodes that share what stays. A node that nobody else has is changed in its
    /// place.
    fn changed(this: Arc<Self>, alloc: Global, change: &Change) -> Result<Few<Self>, NoMemory>
    where
        Self: Sized,
        requires sound { is_sound (arc_value this) }
        requires sorted { AreRising (entries (arc_value this)) }
        ensures { IfOk result (λ nodes. IsChanged entries is_sound replaces change.now (arc_value this) (nodes_of nodes)) };

    ghost has_first: { (x : Self) → is_sound x → HasFirst (entries x) };
}

/// What is put, if anything is.
fn put_alone(change: &Change) -> Result<Few<Held>, NoMemory>
    ensures { IfOk result (λ nodes. nodes_of nodes ≡ put_entries change.now) }
{
    match change {
        Change::Put(put) => Ok(Few::One(Arc::try_clone(put)?)),
        Change::Remove(_) => Ok(Few::Gone),
    }
}

/// A cell, and behind it what is put.
fn put_behind(held: Arc<Held>, change: &Change) -> Result<Few<Held>, NoMemory>
    ensures { IfOk result (λ nodes. nodes_of nodes ≡ arc_value held ∷ put_entries change.now) }
{
    match change {
        Change::Put(put) => Ok(Few::Two(held, Arc::try_clone(put)?)),
        Change::Remove(_) => Ok(Few::One(held)),
    }
}

/// What is put, and behind it a cell.
fn put_before(held: Arc<Held>, change: &Change) -> Result<Few<Held>, NoMemory>
    ensures { IfOk result (λ nodes. nodes_of nodes ≡ put_entries change.now ++ arc_value held ∷ []) }
{
    match change {
        Change::Put(put) => Ok(Few::Two(Arc::try_clone(put)?, held)),
        Change::Remove(_) => Ok(Few::One(held)),
    }
}

impl Node for (CellKey, Cell) {
    ghost use Rattle.std.specs.Prelude.{◌≡◌, [], ◌∷◌, ⊤, refl, map, IfOk};
    ghost use Rattle.std.specs.Arc.{arc_value};
    ghost use Rattle.ordered_pages.specs.Few.{nodes_of};
    ghost use Rattle.ordered_pages.specs.Changed.{IsChanged};
    ghost use Rattle.ordered_pages.specs.Entries.{AreRising};

    ghost entries = { λ x. x ∷ [] };

    ghost is_sound = { λ x. ⊤ };

    ghost replaces = { λ x xs. ⊤ };

    fn first(&self) -> &Held {
        self
    }

    fn up_to(&self, stop: &Stop) -> Option<&Held> {
        if stop.passes(&self.0) {
            Some(self)
        } else {
            None
        }
    }

    fn left(&self, stop: &Stop) -> Option<&Held> {
        if stop.passes(&self.0) {
            None
        } else {
            Some(self)
        }
    }

    fn made(_alloc: Global, held: &Arc<Held>) -> Result<Arc<Held>, NoMemory> {
        Ok(Arc::try_clone(held)?)
    }

    fn changed(this: Arc<Held>, _alloc: Global, change: &Change) -> Result<Few<Held>, NoMemory>
        requires sorted { AreRising (arc_value this ∷ []) }
        ensures { IfOk result (λ nodes. IsChanged (λ x. x ∷ []) (λ x. ⊤) (λ x xs. ⊤) change.now (arc_value this) (nodes_of nodes)) }
    {
        match this.0.cmp(change.key()) {
            Ordering::Less => put_behind(this, change),
            Ordering::Equal => put_alone(change),
            Ordering::Greater => put_before(this, change),
        }
    }

    ghost has_first = { λ x h. record { first = x; rest = []; is = refl } };
}

/// How many of the items begin with a cell that a search passes, by halves.
fn begun<T: Node>(items: &Shared<T>, stop: &Stop) -> usize
    requires sound { Each T.is_sound items.now }
    requires parted { AreParted (passes stop.now) (flat_map T.entries items.now) }
    ensures { IsBegun T.entries (passes stop.now) items.now result }
{
    let mut low = 0;
    let mut high = items.len();
    while low < high {
        let middle = low + (high - low) / 2;
        let item = items.at(middle);
        if stop.passes(&item.first().0) {
            low = middle + 1;
        } else {
            high = middle;
        }
    }
    low
}

/// The most items of a node that is not split. A write copies each node on its way, so that small ones are cheap to change.
const SPLIT: usize = 32;

/// Items as none, one or two nodes, each with half of them where they are too many for one.
fn halves<T: Node>(alloc: Global, items: Shared<T>) -> Result<Few<Shared<T>>, NoMemory>
    requires sound { Each T.is_sound items }
    requires few { length items ≤ 129 }
    ensures { IfOk result (λ nodes. IsHalved T.is_sound items (nodes_of nodes)) }
{
    let n = items.len();
    if n == 0 {
        return Ok(Few::Gone);
    }
    if n <= SPLIT {
        return Ok(Few::One(Arc::new(alloc, items)?));
    }
    let front = Shared::front_of(alloc, &items, n / 2)?;
    let back = Shared::rest_of(alloc, &items, n / 2)?;
    Ok(Few::Two(Arc::new(alloc, front)?, Arc::new(alloc, back)?))
}

impl<T: Node> Shared<T> {
    /// The items with a change below one of them.
    pub(crate) fn changed_in(self, alloc: Global, change: &Change) -> Result<Shared<T>, NoMemory>
        requires sound { Each T.is_sound self }
        requires sorted { AreRising (flat_map T.entries self) }
        ensures { IfOk result (λ items. IsChangedIn T.entries T.is_sound T.replaces change.now self items) }
    {
        let mut items = self;
        if items.len() == 0 {
            if let Change::Put(held) = change {
                items.push(T::made(alloc, held)?)?;
            }
            return Ok(items);
        }
        let at = begun(&items, &Stop::UpTo(change.key())).saturating_sub(1);
        let child = items.take_out(at);
        let made = T::changed(child, alloc, change)?;
        items.put_in(at, made)?;
        Ok(items)
    }

    /// The last cell that a search passes.
    pub(crate) fn up_to_in(&self, stop: &Stop) -> Option<&Held>
        requires sound { Each T.is_sound self.now }
        requires parted { AreParted (passes stop.now) (flat_map T.entries self.now) }
        ensures { option_copied result ≡ last_passed (passes stop.now) (flat_map T.entries self.now) }
    {
        let n = begun(self, stop);
        if n == 0 {
            return None;
        }
        self.at(n - 1).up_to(stop)
    }

    /// The first cell that a search does not pass.
    pub(crate) fn left_in(&self, stop: &Stop) -> Option<&Held>
        requires sound { Each T.is_sound self.now }
        requires parted { AreParted (passes stop.now) (flat_map T.entries self.now) }
        ensures { option_copied result ≡ first_left (passes stop.now) (flat_map T.entries self.now) }
    {
        let n = begun(self, stop);
        if n > 0 {
            if let Some(found) = self.at(n - 1).left(stop) {
                return Some(found);
            }
        }
        if n < self.len() {
            Some(self.at(n).first())
        } else {
            None
        }
    }
}

impl<T: Node> Node for Shared<T> {
    ghost use Rattle.std.specs.Prelude.{map, IfOk};
    ghost use Rattle.std.specs.List.{flat_map};
    ghost use Rattle.std.specs.Arc.{arc_value};
    ghost use Rattle.ordered_pages.specs.Few.{nodes_of};
    ghost use Rattle.ordered_pages.specs.Changed.{IsNodeChanged};
    ghost use Rattle.ordered_pages.specs.Entries.{IsNode, AreRising};
    ghost use Rattle.ordered_pages.specs.EntryLaws.{node_has_first};
    ghost use Rattle.ordered_pages.specs.Changes.{IsReplaced};

    ghost entries = { λ s. flat_map T.entries s };

    ghost is_sound = { λ s. IsNode T.is_sound s };

    ghost replaces = { λ s ss. IsReplaced T.replaces s ss };

    fn first(&self) -> &Held {
        self.at(0).first()
    }

    fn up_to(&self, stop: &Stop) -> Option<&Held> {
        self.up_to_in(stop)
    }

    fn left(&self, stop: &Stop) -> Option<&Held> {
        self.left_in(stop)
    }

    fn made(alloc: Global, held: &Arc<Held>) -> Result<Arc<Shared<T>>, NoMemory> {
        let mut items = Shared::new(alloc);
        items.push(T::made(alloc, held)?)?;
        Ok(Arc::new(alloc, items)?)
    }

    fn changed(
        this: Arc<Shared<T>>,
        alloc: Global,
        change: &Change,
    ) -> Result<Few<Shared<T>>, NoMemory>
        requires sound { IsNode T.is_sound (arc_value this) }
        requires sorted { AreRising (flat_map T.entries (arc_value this)) }
        ensures { IfOk result (λ nodes. IsNodeChanged T.entries T.is_sound T.replaces change.now (arc_value this) (nodes_of nodes)) }
    {
        let items = Shared::owned(alloc, this)?;
        let items = items.changed_in(alloc, change)?;
        halves(alloc, items)
    }

    ghost has_first = { λ x h. node_has_first T.entries T.is_sound T.has_first x h };
}
