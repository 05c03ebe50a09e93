//! Items in order, each behind a shared pointer.
ghost use Rattle.std.specs.Prelude.{◌≡◌, ◌<◌, ◌≤◌, ◌+◌, ◌++◌, ◌∷◌, [], length, get_or, map, take, drop, IfOk};
ghost use Rattle.std.specs.Arc.{arc_value};
ghost use Rattle.ordered_pages.specs.Few.{nodes_of};

use crate::few::Few;
use ident_rules::NoMemory;
use std::alloc::Global;
use std::marker::Model;
use std::sync::Arc;

/// Items in order, each behind a shared pointer. Contracts see the list of the items.
#[derive(Drop)]
pub(crate) struct Shared<T> {
    pub(crate) items: Vec<Arc<T>>,
}

impl<T> Model for Shared<T> {
    ghost use Rattle.std.specs.Prelude.{List as Listed, map};
    ghost use Rattle.std.specs.Arc.{arc_value};

    ghost Value = { Listed T };

    ghost view = { λ s. map arc_value s.items.items };
}

impl<T> Shared<T> {
    /// How many items there are.
    pub(crate) fn len(&self) -> usize
        ensures { result ≡ length self.now }
    {
        self.items.len()
    }

    /// The item at a place.
    pub(crate) fn at(&self, at: usize) -> &T
        requires { at < length self.now }
        ensures { result.now ≡ get_or self.now at result.now }
    {
        &self.items[at]
    }
}

/// Takes an item out of a list.
fn take_item<T>(items: &mut Vec<Arc<T>>, at: usize) -> Arc<T>
    requires { at < length items.old.items }
    ensures item { arc_value result ≡ get_or (map arc_value items.old.items) at (arc_value result) }
    ensures rest { map arc_value items.new.items ≡ take at (map arc_value items.old.items) ++ drop (at + 1) (map arc_value items.old.items) }
{
    items.remove(at)
}

/// Puts an item into a list.
fn put_item<T: Drop>(items: &mut Vec<Arc<T>>, at: usize, item: Arc<T>) -> Result<(), NoMemory>
    requires { at ≤ length items.old.items }
    ensures grows { length items.old.items ≤ length items.new.items }
    ensures put { IfOk result (λ _. map arc_value items.new.items ≡ take at (map arc_value items.old.items) ++ arc_value item ∷ drop at (map arc_value items.old.items)) }
{
    items.insert(at, item)?;
    Ok(())
}

impl<T: Drop> Shared<T> {
    /// No items. Takes no memory.
    pub(crate) fn new(alloc: Global) -> Shared<T>
        ensures { result ≡ [] }
    {
        Shared {
            items: Vec::new(alloc),
        }
    }

    /// Adds an item at the end.
    pub(crate) fn push(&mut self, item: Arc<T>) -> Result<(), NoMemory>
        ensures { IfOk result (λ _. self.new ≡ self.old ++ arc_value item ∷ []) }
    {
        self.items.push(item)?;
        Ok(())
    }

    /// Shares items at the end.
    fn share(&mut self, items: &[Arc<T>]) -> Result<(), NoMemory>
        ensures { IfOk result (λ _. self.new ≡ self.old ++ map arc_value items.now) }
    {
        for item in items {
            let shared = Arc::try_clone(item)?;
            self.push(shared)?;
        }
        Ok(())
    }

    /// Another's items up to a place, shared, with room for one more.
    pub(crate) fn front_of(
        alloc: Global,
        other: &Shared<T>,
        to: usize,
    ) -> Result<Shared<T>, NoMemory>
        requires { to ≤ length other.now }
        ensures { IfOk result (λ items. items ≡ take to other.now) }
    {
        let mut shared = Shared {
            items: Vec::with_capacity(alloc, to.saturating_add(1))?,
        };
        shared.share(&other.items[..to])?;
        Ok(shared)
    }

    /// Another's items from a place on, shared.
    pub(crate) fn rest_of(
        alloc: Global,
        other: &Shared<T>,
        from: usize,
    ) -> Result<Shared<T>, NoMemory>
        requires { from ≤ length other.now }
        ensures { IfOk result (λ items. items ≡ drop from other.now) }
    {
        let mut shared = Shared::new(alloc);
        shared.share(&other.items[from..])?;
        Ok(shared)
    }

    /// The items of a node: its own where nobody else has the node, so that what one write copied the next one changes in
    /// its place; otherwise they are shared.
    pub(crate) fn owned(alloc: Global, node: Arc<Shared<T>>) -> Result<Shared<T>, NoMemory>
        ensures { IfOk result (λ items. items ≡ arc_value node) }
    {
        match Arc::try_unwrap(node) {
            Ok(items) => Ok(items),
            Err(node) => Shared::front_of(alloc, &node, node.len()),
        }
    }

    /// Takes out the item at a place.
    pub(crate) fn take_out(&mut self, at: usize) -> Arc<T>
        requires { at < length self.old }
        ensures item { arc_value result ≡ get_or self.old at (arc_value result) }
        ensures rest { self.new ≡ take at self.old ++ drop (at + 1) self.old }
    {
        take_item(&mut self.items, at)
    }

    /// Puts items in at a place.
    pub(crate) fn put_in(&mut self, at: usize, items: Few<T>) -> Result<(), NoMemory>
        requires { at ≤ length self.old }
        ensures { IfOk result (λ _. self.new ≡ take at self.old ++ (nodes_of items ++ drop at self.old)) }
    {
        match items {
            Few::Gone => Ok(()),
            Few::One(item) => put_item(&mut self.items, at, item),
            Few::Two(front, back) => {
                put_item(&mut self.items, at, back)?;
                put_item(&mut self.items, at, front)
            }
        }
    }
}
