//! Searching a view and the writes over it together.
ghost use Rattle.std.specs.Prelude.{◌≡◌, ◌+◌, ◌≤◌, length, false, true};
ghost use Rattle.std.specs.Option.{option_copied, option_map};
ghost use Rattle.std.specs.FinMap.Entries.{find};
ghost use Rattle.world_cells.specs.CellOrder.{cell_key_cmp};
ghost use Rattle.world_cells.specs.Reads.{entries_of, overlay, IsFirstIn, IsLastIn};
ghost use Rattle.view_reads.specs.Counts.{counted};
ghost use Rattle.view_reads.specs.Recording.{pair_now};
ghost use Rattle.view_reads.specs.Narrowing.{IsMet, CanNarrow};
ghost use Rattle.view_reads.specs.Bounds.{IsBacks};
ghost use Rattle.view_reads.specs.Merging.{IsFirstUnwritten, is_met_before, unwritten, unless_written};

use crate::View;
use crate::spans::{bound_backs, bound_key, is_met, narrowed, same_span};
use crate::writes::Writes;
use outer_ends::Work;
use world_cells::{Cell, CellKey, Span};

/// The cell of a view that a search of a span meets first.
fn first_of_view<'a, V: View>(
    from_top: bool,
    view: &'a V,
    span: &Span,
    work: &mut Work,
) -> Option<(&'a CellKey, &'a Cell)>
    ensures value { IsMet from_top (V.cells view.now) span.now (option_map pair_now result) }
    ensures work { work.new.done ≡ counted work.old.done }
    ensures rises { work.old.done ≤ work.new.done }
{
    // Reads the count, so that its range is known: one step more does not make it less.
    let _before = work.done;
    if from_top {
        view.last_in(span, work)
    } else {
        view.first_in(span, work)
    }
}

/// Whether a search meets a key before what was put, if anything was.
fn is_met_before(from_top: bool, put: &Option<(&CellKey, &Cell)>, key: &CellKey) -> bool
    ensures { result ≡ is_met_before from_top (option_map pair_now put.now) key.now }
{
    match put {
        Some((own, _)) => is_met(from_top, key, own),
        None => true,
    }
}

/// The cell of a view at whose key nothing is written, and which a search meets first, if it meets it before what was put.
fn first_unwritten<'a, V: View>(
    from_top: bool,
    view: &'a V,
    writes: &Writes,
    span: Span,
    put: &Option<(&CellKey, &Cell)>,
    work: &mut Work,
) -> Option<(&'a CellKey, &'a Cell)>
    requires { CanNarrow from_top span }
    ensures value { IsFirstUnwritten from_top (V.cells view.now) writes.now span (option_map pair_now put.now) (option_map pair_now result) }
    ensures work { work.new.done ≤ work.old.done + length writes.now + 1 }
    ensures rises { work.old.done ≤ work.new.done }
{
    let mut rest = span;
    while let Some((key, cell)) = first_of_view(from_top, view, &rest, work) {
        if !is_met_before(from_top, put, key) {
            return None;
        }
        if writes.at(key).is_none() {
            return Some((key, cell));
        }
        rest = narrowed(from_top, rest, key);
    }
    None
}

/// The cell at a key where nothing is written, or else what was found before.
fn unless_written<'a>(
    writes: &Writes,
    last: Option<(&'a CellKey, &'a Cell)>,
    key: &'a CellKey,
    cell: &'a Cell,
) -> Option<(&'a CellKey, &'a Cell)>
    ensures { option_map pair_now result ≡ unless_written (find cell_key_cmp key.now (entries_of writes.now)) (option_map pair_now last.entry) (key.now, cell.now) }
{
    match writes.at(key) {
        Some(_) => last,
        None => Some((key, cell)),
    }
}

/// The last cell of a span of ways back at whose key nothing is written, by a walk over all of them.
fn last_unwritten_by_walk<'a, V: View>(
    view: &'a V,
    writes: &Writes,
    span: Span,
    work: &mut Work,
) -> Option<(&'a CellKey, &'a Cell)>
    requires { IsBacks span }
    ensures value { IsMet true (unwritten (V.cells view.now) writes.now) span (option_map pair_now result) }
    ensures rises { work.old.done ≤ work.new.done }
{
    bound_backs(&span);
    let mut rest = span;
    let mut last = None;
    while let Some((key, cell)) = first_of_view(false, view, &rest, work) {
        bound_key(key);
        last = unless_written(writes, last, key, cell);
        rest = narrowed(false, rest, key);
    }
    last
}

/// The last cell of a span of ways back at whose key nothing is written.
///
/// Such a span has no edge above. So where the last cell is hidden, all of the span is walked through.
fn last_unwritten<'a, V: View>(
    view: &'a V,
    writes: &Writes,
    span: Span,
    work: &mut Work,
) -> Option<(&'a CellKey, &'a Cell)>
    requires { IsBacks span }
    ensures value { IsMet true (unwritten (V.cells view.now) writes.now) span (option_map pair_now result) }
    ensures rises { work.old.done ≤ work.new.done }
{
    let Some((key, cell)) = first_of_view(true, view, &span, work) else {
        return None;
    };
    match writes.at(key) {
        Some(_) => last_unwritten_by_walk(view, writes, span, work),
        None => Some((key, cell)),
    }
}

/// A view under writes.
#[derive(Drop)]
pub(crate) struct Overlaid<V> {
    pub(crate) view: V,
    pub(crate) writes: Writes,
}

impl<V: View> Overlaid<V> {
    /// The cell at a key.
    pub(crate) fn at(&self, key: &CellKey, work: &mut Work) -> Option<&Cell>
        ensures value { option_copied result ≡ overlay (V.cells self.now.view) self.now.writes key.now }
        ensures work { work.new.done ≡ counted work.old.done }
    {
        match self.writes.at(key) {
            Some(written) => {
                work.add();
                written.cell.as_ref()
            }
            None => self.view.get(key, work),
        }
    }

    /// The first cell of a span.
    pub(crate) fn first_in(&self, span: &Span, work: &mut Work) -> Option<(&CellKey, &Cell)>
        ensures value { IsFirstIn (overlay (V.cells self.now.view) self.now.writes) span.now (option_map pair_now result) }
        ensures work { work.new.done ≤ work.old.done + length self.now.writes + 1 }
        ensures rises { work.old.done ≤ work.new.done }
    {
        self.met(false, span, work)
    }

    /// The cell of a span that a search meets first.
    fn met(&self, from_top: bool, span: &Span, work: &mut Work) -> Option<(&CellKey, &Cell)>
        requires { CanNarrow from_top span.now }
        ensures value { IsMet from_top (overlay (V.cells self.now.view) self.now.writes) span.now (option_map pair_now result) }
        ensures work { work.new.done ≤ work.old.done + length self.now.writes + 1 }
        ensures rises { work.old.done ≤ work.new.done }
    {
        if self.writes.is_empty() {
            return first_of_view(from_top, &self.view, span, work);
        }
        let put = self.writes.met_put(from_top, span);
        let rest = same_span(span);
        match first_unwritten(from_top, &self.view, &self.writes, rest, &put, work) {
            Some(found) => Some(found),
            None => put,
        }
    }

    /// The last cell of a span.
    pub(crate) fn last_in(&self, span: &Span, work: &mut Work) -> Option<(&CellKey, &Cell)>
        ensures value { IsLastIn (overlay (V.cells self.now.view) self.now.writes) span.now (option_map pair_now result) }
        ensures work { CanNarrow true span.now → work.new.done ≤ work.old.done + length self.now.writes + 1 }
        ensures rises { work.old.done ≤ work.new.done }
    {
        match span {
            Span::Rows { .. } => self.met(true, span, work),
            Span::Backs { .. } => self.last_back(same_span(span), work),
        }
    }

    /// The last cell of a span of ways back.
    fn last_back(&self, span: Span, work: &mut Work) -> Option<(&CellKey, &Cell)>
        requires { IsBacks span }
        ensures value { IsMet true (overlay (V.cells self.now.view) self.now.writes) span (option_map pair_now result) }
        ensures rises { work.old.done ≤ work.new.done }
    {
        let put = self.writes.met_put(true, &span);
        let Some((key, cell)) = last_unwritten(&self.view, &self.writes, span, work) else {
            return put;
        };
        if is_met_before(true, &put, key) {
            Some((key, cell))
        } else {
            put
        }
    }
}
