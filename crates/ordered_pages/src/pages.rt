//! Pages: a map of cells in boughs of branches of leaves.
ghost use Rattle.std.specs.Prelude.{◌≡◌, ◌≤◌, ◌+◌, ◌-◌, ◌*◌, ◌^◌, ◌++◌, [], ◌↔◌, IsTrue, IfOk, Some, map, length, min};
ghost use Rattle.world_cells.specs.Reads.{AreRisingKeys};
ghost use Rattle.view_reads.specs.Counts.{counted};
ghost use Rattle.view_reads.specs.Merging.{IsOverlaid};
ghost use Rattle.ordered_pages.specs.Changes.{IsShared};
ghost use Rattle.ordered_pages.specs.Prepared.{IsStep, IsPrepared, IsFilled};
ghost use Rattle.history_model.specs.Histories.{Exactly};
ghost use Rattle.std.specs.Arc.{arc_value};
ghost use Rattle.std.specs.Option.{option_copied, option_map};
ghost use Rattle.view_reads.specs.Recording.{pair_now};
ghost use Rattle.ordered_pages.specs.Entries.{Entry, cells_of, passes, IsLastPassed, IsFirstLeft, Each};
ghost use Rattle.ordered_pages.specs.Changed.{IsTreeChanged, IsWritten};
ghost use Rattle.ordered_pages.specs.Finding.{at_key, within};
ghost use Rattle.ordered_pages.specs.Tree.{leaves_below, leaves_of, entries_in, map_of, IsTree, boughs_in, IsLeaf};

use crate::changes::{Change, Held};
use crate::nodes::Node;
use crate::shared::Shared;
use crate::stops::Stop;
use ident_rules::{List, NoMemory};
use outer_ends::Work;
use std::alloc::Global;
use std::marker::Model;
use std::sync::Arc;
use view_reads::{View, in_span};
use world_cells::{Cell, CellKey, KeySet, Span, WriteSet, Written, same_cell};

/// 1 to 128 cells with their keys.
pub(crate) type Leaf = Shared<Held>;

/// 1 to 128 leaves.
pub(crate) type Branch = Shared<Leaf>;

/// 1 to 128 branches.
pub(crate) type Bough = Shared<Branch>;

/// A map of cells. Contracts see its leaves, each a list of keys with their cells.
#[derive(Drop)]
pub struct Pages {
    alloc: Global,
    root: Option<Arc<Shared<Bough>>>,
}

impl Model for Pages {
    ghost use Rattle.std.specs.Prelude.{List as Listed};
    ghost use Rattle.ordered_pages.specs.Entries.{Entry};
    ghost use Rattle.ordered_pages.specs.Tree.{leaves_of, IsTree, boughs_in};

    ghost Value = { Listed (Listed Entry) };

    ghost view = { λ p. leaves_of (boughs_in p.root) };

    ghost invariant = { λ p. IsTree (boughs_in p.root) };
}

impl Pages {
    /// No cells. Takes no memory.
    pub fn new(alloc: Global) -> Pages
        ensures { result ≡ [] }
    {
        Pages { alloc, root: None }
    }

    /// Pages with these cells, in strictly ascending order of keys. Its one error is want of memory.
    pub fn of_cells(alloc: Global, cells: Vec<(CellKey, Cell)>) -> Result<Pages, NoMemory>
        requires { AreRisingKeys (map (λ e. e.0) cells.items) }
        ensures { IfOk result (λ p. entries_in p ≡ cells.items) }
    {
        let root = filled(alloc, cells)?;
        Ok(Pages {
            alloc,
            root: Some(Arc::new(alloc, root)?),
        })
    }

    /// Equal pages that share all of these. Its one error is want of memory.
    pub fn snapshot(&self) -> Result<Pages, NoMemory>
        ensures { IfOk result (λ p. p ≡ self.now) }
    {
        Ok(Pages {
            alloc: self.alloc,
            root: shared_root(&self.root)?,
        })
    }
}

/// The same root, shared. Its one error is want of memory.
fn shared_root(root: &Option<Arc<Shared<Bough>>>) -> Result<Option<Arc<Shared<Bough>>>, NoMemory>
    ensures { IfOk result (λ new. boughs_in new ≡ boughs_in root.now) }
{
    match root {
        Some(root) => Ok(Some(Arc::try_clone(root)?)),
        None => Ok(None),
    }
}

/// The boughs of a root, shared, or none. Its one error is want of memory.
fn boughs_of(alloc: Global, root: &Option<Arc<Shared<Bough>>>) -> Result<Shared<Bough>, NoMemory>
    ensures { IfOk result (λ new. new ≡ boughs_in root.now) }
{
    match root {
        Some(root) => Shared::front_of(alloc, root, root.len()),
        None => Ok(Shared::new(alloc)),
    }
}

/// The last cell that a search passes.
fn up_to<'a>(root: &'a Shared<Bough>, stop: &Stop) -> Option<&'a Held>
    requires { IsTree root.now }
    ensures { IsLastPassed (passes stop.now) (map_of (leaves_of root.now)) (option_copied result) }
{
    root.up_to_in(stop)
}

/// The first cell that a search does not pass.
fn left<'a>(root: &'a Shared<Bough>, stop: &Stop) -> Option<&'a Held>
    requires { IsTree root.now }
    ensures { IsFirstLeft (passes stop.now) (map_of (leaves_of root.now)) (option_copied result) }
{
    root.left_in(stop)
}

/// What was found, if its key is this one.
fn at_key<'a>(found: Option<&'a Held>, key: &CellKey) -> Option<&'a Cell>
    ensures { option_copied result ≡ at_key (option_copied found.entry) key.now }
{
    match found {
        Some((other, cell)) => { if *other == *key { Some(cell) } else { None } }
        None => None,
    }
}

/// What was found, if its key lies in a span.
fn within<'a>(found: Option<&'a Held>, span: &Span) -> Option<(&'a CellKey, &'a Cell)>
    ensures { option_map pair_now result ≡ within span.now (option_copied found.entry) }
{
    match found {
        Some((key, cell)) => {
            if in_span(span, key) {
                Some((key, cell))
            } else {
                None
            }
        }
        None => None,
    }
}

/// A tree with one change. Its one error is want of memory.
fn with_change(
    alloc: Global,
    root: Shared<Bough>,
    change: &Change,
) -> Result<Shared<Bough>, NoMemory>
    requires { IsTree root }
    ensures { IfOk result (λ new. IsTreeChanged change.now root new) }
{
    root.changed_in(alloc, change)
}

/// A tree with these cells, which are put from the last one to the first. Its one error is want of memory.
fn filled(alloc: Global, cells: Vec<Held>) -> Result<Shared<Bough>, NoMemory>
    requires { AreRisingKeys (map (λ e. e.0) cells.items) }
    ensures { IfOk result (λ new. IsFilled cells.items new) }
{
    let mut root = Shared::new(alloc);
    let mut left = cells;
    while let Some(held) = left.pop() {
        let held = Arc::new(alloc, held)?;
        root = with_change(alloc, root, &Change::Put(&held))?;
    }
    Ok(root)
}

/// A copy of a cell. Its one error is want of memory.
fn copied_cell(alloc: Global, cell: &Cell) -> Result<Cell, NoMemory>
    ensures { IfOk result (λ c. c ≡ cell.now) }
{
    match cell {
        Cell::Row(row) => Ok(Cell::Row(row.copy(alloc)?)),
        Cell::Back => Ok(Cell::Back),
        Cell::Counter(number) => Ok(Cell::Counter(*number)),
    }
}

/// A tree with a cell put. Its one error is want of memory.
fn with_cell(
    alloc: Global,
    root: Shared<Bough>,
    key: &CellKey,
    cell: &Cell,
) -> Result<Shared<Bough>, NoMemory>
    requires { IsTree root }
    ensures { IfOk result (λ new. IsWritten key.now (Some cell.now) root new) }
{
    let held = Arc::new(alloc, (key.copy(alloc)?, copied_cell(alloc, cell)?))?;
    with_change(alloc, root, &Change::Put(&held))
}

/// A tree with a write. Its one error is want of memory.
fn with_write(
    alloc: Global,
    root: Shared<Bough>,
    written: &Written,
) -> Result<Shared<Bough>, NoMemory>
    requires { IsTree root }
    ensures { IfOk result (λ new. IsWritten written.now.key written.now.cell root new) }
{
    match &written.cell {
        Some(cell) => with_cell(alloc, root, &written.key, cell),
        None => with_change(alloc, root, &Change::Remove(&written.key)),
    }
}

/// The cell at a key.
fn find<'a>(root: &'a Shared<Bough>, key: &CellKey) -> Option<&'a Cell>
    requires { IsTree root.now }
    ensures { option_copied result ≡ map_of (leaves_of root.now) key.now }
{
    at_key(up_to(root, &Stop::UpTo(key)), key)
}

/// Whether what was found is what a write puts, or neither is there.
fn is_there(found: Option<&Cell>, cell: &Option<Cell>) -> bool
    ensures { IsTrue result ↔ (option_copied found.entry ≡ cell.now) }
{
    match (found, cell) {
        (None, None) => true,
        (Some(x), Some(y)) => same_cell(x, y),
        _ => false,
    }
}

/// A tree with a write, whose key is added where the write changes the cell there. It looks at one cell, and its one error
/// is want of memory.
fn written(
    alloc: Global,
    root: Shared<Bough>,
    write: &Written,
    keys: &mut Vec<CellKey>,
    work: &mut Work,
) -> Result<Shared<Bough>, NoMemory>
    requires { IsTree root }
    ensures ok { IfOk result (λ new. IsStep write.now root new keys.old.items keys.new.items) }
    ensures work { work.new.done ≡ counted work.old.done }
{
    work.add();
    if is_there(find(&root, &write.key), &write.cell) {
        return Ok(root);
    }
    let new = with_write(alloc, root, write)?;
    keys.push(write.key.copy(alloc)?)?;
    Ok(new)
}

/// Pages with writes, ready to be installed. Contracts see their leaves.
#[derive(Drop)]
pub struct Ready {
    root: Arc<Shared<Bough>>,
}

impl Model for Ready {
    ghost use Rattle.std.specs.Prelude.{List as Listed};
    ghost use Rattle.std.specs.Arc.{arc_value};
    ghost use Rattle.ordered_pages.specs.Entries.{Entry};
    ghost use Rattle.ordered_pages.specs.Tree.{leaves_of, IsTree};

    ghost Value = { Listed (Listed Entry) };

    ghost view = { λ p. leaves_of (arc_value p.root) };

    ghost invariant = { λ p. IsTree (arc_value p.root) };
}

/// A tree with writes, and the keys whose cells they change.
fn with_writes(
    alloc: Global,
    root: Shared<Bough>,
    writes: &[Written],
    work: &mut Work,
) -> Result<(Shared<Bough>, Vec<CellKey>), NoMemory>
    requires tree { IsTree root }
    requires rising { AreRisingKeys (map (λ w. w.key) writes.now) }
    ensures ok { IfOk result (λ r. IsPrepared (leaves_of root) writes.now r.0 r.1.items) }
    ensures work { work.new.done ≤ work.old.done + length writes.now }
    ensures counted { IfOk result (λ r. work.new.done ≡ min (work.old.done + length writes.now) (2 ^ 64 - 1)) }
{
    // Reads the count, so that its range is known.
    let _before = work.done;
    let mut new = root;
    let mut keys = Vec::new(alloc);
    for write in writes {
        new = written(alloc, new, write, &mut keys, work)?;
    }
    Ok((new, keys))
}

impl Pages {
    /// These pages with writes, and the keys whose cells the writes change, in ascending order. A write of what is there
    /// already is left out. The pages stay as they are. Its one error is want of memory.
    pub fn prepare(&self, writes: &WriteSet, work: &mut Work) -> Result<(Ready, KeySet), NoMemory>
        requires rising { AreRisingKeys (map (λ w. w.key) writes.now.cells) }
        ensures cells { IfOk result (λ r. IsOverlaid (map_of self.now) writes.now.cells (map_of r.0)) }
        ensures keys { IfOk result (λ r. Exactly r.1.keys (map_of self.now) (map_of r.0)) }
        ensures ascend { IfOk result (λ r. AreRisingKeys r.1.keys) }
        ensures shared { IfOk result (λ r. IsShared (2 * length writes.now.cells) self.now r.0) }
        ensures work { work.new.done ≤ work.old.done + length writes.now.cells }
        ensures counted { IfOk result (λ r. work.new.done ≡ min (work.old.done + length writes.now.cells) (2 ^ 64 - 1)) }
    {
        let start = boughs_of(self.alloc, &self.root)?;
        let (new, keys) = with_writes(self.alloc, start, writes.cells.as_slice(), work)?;
        Ok((
            Ready {
                root: Arc::new(self.alloc, new)?,
            },
            KeySet {
                keys: List::from_vec(keys),
            },
        ))
    }

    /// Puts what was prepared from these pages in their place. Takes no memory.
    pub fn install(&mut self, ready: Ready)
        ensures { self.new ≡ ready }
    {
        let Ready { root } = ready;
        self.root = Some(root);
    }
}

/// Adds how many cells each leaf of a branch has.
fn add_lengths(branch: &Branch, lengths: &mut Vec<usize>) -> Result<(), NoMemory>
    ensures { IfOk result (λ _. lengths.new.items ≡ lengths.old.items ++ map length branch.now) }
{
    for i in 0..branch.len() {
        lengths.push(branch.at(i).len())?;
    }
    Ok(())
}

/// Adds how many cells each leaf of a bough has.
fn add_bough_lengths(bough: &Bough, lengths: &mut Vec<usize>) -> Result<(), NoMemory>
    ensures { IfOk result (λ _. lengths.new.items ≡ lengths.old.items ++ map length (leaves_below bough.now)) }
{
    for i in 0..bough.len() {
        add_lengths(bough.at(i), lengths)?;
    }
    Ok(())
}

/// How many cells each leaf below a root has.
fn all_lengths(alloc: Global, root: &Shared<Bough>) -> Result<Vec<usize>, NoMemory>
    ensures { IfOk result (λ v. v.items ≡ map length (leaves_of root.now)) }
{
    let mut lengths = Vec::new(alloc);
    for i in 0..root.len() {
        add_bough_lengths(root.at(i), &mut lengths)?;
    }
    Ok(lengths)
}

impl Pages {
    /// How many cells each leaf has, in the order of keys: from 1 to 128. Its one error is want of memory.
    pub fn leaves(&self) -> Result<Vec<usize>, NoMemory>
        ensures lengths { IfOk result (λ v. v.items ≡ map length self.now) }
        ensures bounded { Each IsLeaf self.now }
    {
        match &self.root {
            Some(root) => all_lengths(self.alloc, root),
            None => Ok(Vec::new(self.alloc)),
        }
    }
}

/// The cell at a key below a root.
fn find_below<'a>(root: &'a Option<Arc<Shared<Bough>>>, key: &CellKey) -> Option<&'a Cell>
    requires { IsTree (boughs_in root.now) }
    ensures { option_copied result ≡ map_of (leaves_of (boughs_in root.now)) key.now }
{
    match root {
        Some(root) => find(root, key),
        None => None,
    }
}

/// The last cell below a root that a search passes.
fn up_to_below<'a>(root: &'a Option<Arc<Shared<Bough>>>, stop: &Stop) -> Option<&'a Held>
    requires { IsTree (boughs_in root.now) }
    ensures { IsLastPassed (passes stop.now) (map_of (leaves_of (boughs_in root.now))) (option_copied result) }
{
    match root {
        Some(root) => up_to(root, stop),
        None => None,
    }
}

/// The first cell below a root that a search does not pass.
fn left_below<'a>(root: &'a Option<Arc<Shared<Bough>>>, stop: &Stop) -> Option<&'a Held>
    requires { IsTree (boughs_in root.now) }
    ensures { IsFirstLeft (passes stop.now) (map_of (leaves_of (boughs_in root.now))) (option_copied result) }
{
    match root {
        Some(root) => left(root, stop),
        None => None,
    }
}

impl View for Pages {
    ghost use Rattle.ordered_pages.specs.Tree.{map_of};

    ghost cells = { λ p. map_of p };

    fn get(&self, key: &CellKey, work: &mut Work) -> Option<&Cell> {
        work.add();
        find_below(&self.root, key)
    }

    fn first_in(&self, span: &Span, work: &mut Work) -> Option<(&CellKey, &Cell)> {
        work.add();
        within(left_below(&self.root, &Stop::Past(false, span)), span)
    }

    fn last_in(&self, span: &Span, work: &mut Work) -> Option<(&CellKey, &Cell)> {
        work.add();
        within(up_to_below(&self.root, &Stop::Past(true, span)), span)
    }
}
