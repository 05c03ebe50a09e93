//! One page of rows.
ghost use Rattle.std.specs.Prelude.{◌≡◌, IfOk};
ghost use Rattle.resource_schema.specs.declared.schema.Schema.{Schema};
ghost use Rattle.store_model.specs.Reach.{of_kind, reach_page};
ghost use Rattle.store_model.specs.Pages.{page_of, rows_of};
ghost use Rattle.trial_steps.specs.Runners.{TellsRead};
ghost use Rattle.page_select.specs.Chosen.{IsSelected, meant};

use crate::by_id::page_by_id;
use crate::listed::{page_by_keys, page_listed};
use ident_rules::{Key, List, NoMemory};
use outer_ends::Work;
use std::alloc::Global;
use store_model::Selected;
use task_forms::{Page, SortKey};
use view_reads::{Recorder, View};

/// Which rows a page is cut from.
#[derive(Drop)]
pub enum Members {
    /// The rows of a type.
    OfKind(u32),
    /// The rows at distinct keys of one type.
    Listed(List<Key>),
}

/// One page of some rows in the order of sort keys, and then of the ids (JSON:API 1.1, "Sorting"; Cursor Pagination
/// profile), with copies of its rows. Where ids alone decide, a page of a type reads from the row before it to the row
/// behind it; with sort keys it reads the whole type, and of listed keys each row. Its one error is want of memory.
pub fn select_page<V: View>(
    alloc: Global,
    members: &Members,
    sort: &[SortKey],
    page: &Page,
    recorder: &mut Recorder<V>,
    work: &mut Work,
) -> Result<Selected, NoMemory>
    ensures { (t : Schema) → IfOk result (λ s. TellsRead t V.cells (reach_page (meant members.now) sort.now page.now) (IsSelected members.now sort.now page.now s) recorder.old recorder.new) }
{
    match members {
        Members::Listed(keys) => page_listed(alloc, keys.as_slice(), sort, page, recorder, work),
        Members::OfKind(kind) => page_of_kind(alloc, *kind, sort, page, recorder, work),
    }
}

/// One page of a type.
fn page_of_kind<V: View>(
    alloc: Global,
    kind: u32,
    sort: &[SortKey],
    page: &Page,
    recorder: &mut Recorder<V>,
    work: &mut Work,
) -> Result<Selected, NoMemory>
    ensures { (t : Schema) → IfOk result (λ s. TellsRead t V.cells (reach_page (of_kind kind) sort.now page.now) (λ now. s ≡ page_of sort.now page.now (rows_of now kind)) recorder.old recorder.new) }
{
    if sort.is_empty() {
        page_by_id(alloc, kind, page, recorder, work)
    } else {
        page_by_keys(alloc, kind, sort, page, recorder, work)
    }
}
