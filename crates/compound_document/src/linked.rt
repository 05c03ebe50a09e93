//! The rows that a link leads to.
ghost use Rattle.std.specs.Prelude.{◌≡◌, IfOk, option_copied, unwrap_or};
ghost use Rattle.trial_steps.specs.Runners.{TellsRead};
ghost use Rattle.world_cells.specs.World.{ids_of, link_at, linked, no_link};
ghost use Rattle.compound_document.specs.Linked.{IsLinkedPage, IsLinkedRow, is_many_link, of_kind, reach_linked};

use ident_rules::{Id, Key, List, NoMemory};
use outer_ends::Work;
use page_select::{Members, select_page};
use resource_schema::Schema;
use std::alloc::Global;
use store_model::Selected;
use task_forms::Query;
use trial_steps::find_row;
use view_reads::{Recorder, View};
use world_cells::{Link, Row};

/// The link of a row's relationship; None, which stands for a link to nothing, where there is no such relationship.
pub fn link_at(row: &Row, rel: u32) -> Option<&Link>
    ensures { unwrap_or (option_copied result) no_link ≡ link_at row.now rel }
{
    row.links.as_slice().get(rel as usize)
}

/// Whether a link leads to any number of rows.
pub fn is_many_link(link: Option<&Link>) -> bool
    ensures { result ≡ is_many_link (unwrap_or (option_copied link.entry) no_link) }
{
    match link {
        Some(Link::Many(_)) => true,
        _ => false,
    }
}

/// The keys of a type with these ids.
fn keys_with(alloc: Global, kind: u32, ids: &[Id]) -> Result<Vec<Key>, NoMemory>
    ensures { IfOk result (λ keys. keys.items ≡ of_kind kind ids.now) }
{
    let mut keys = Vec::new(alloc);
    for id in ids {
        keys.push(Key { kind, id: *id })?;
    }
    Ok(keys)
}

/// The keys that a link leads to.
fn link_keys(alloc: Global, kind: u32, link: Option<&Link>) -> Result<Vec<Key>, NoMemory>
    ensures { IfOk result (λ keys. keys.items ≡ of_kind kind (ids_of (unwrap_or (option_copied link.entry) no_link))) }
{
    match link {
        Some(Link::One(Some(id))) => keys_with(alloc, kind, &[*id]),
        Some(Link::Many(ids)) => keys_with(alloc, kind, ids.as_slice()),
        _ => keys_with(alloc, kind, &[]),
    }
}

/// The keys that a row's relationship leads to.
fn linked_keys(alloc: Global, schema: &Schema, row: &Row, rel: u32) -> Result<Vec<Key>, NoMemory>
    ensures { IfOk result (λ keys. keys.items ≡ linked schema.now row.now rel) }
{
    let kind = schema.target_of(row.key.kind, rel);
    link_keys(alloc, kind, link_at(row, rel))
}

/// A page of the rows that a to-many relationship leads to (JSON:API 1.1, "Fetching Resources").
pub fn linked_page<V: View>(
    alloc: Global,
    schema: &Schema,
    row: &Row,
    rel: u32,
    query: &Query,
    recorder: &mut Recorder<V>,
    work: &mut Work,
) -> Result<Selected, NoMemory>
    ensures { IfOk result (λ s. TellsRead schema.now V.cells (reach_linked schema.now row.now rel) (IsLinkedPage schema.now row.now rel query.now s) recorder.old recorder.new) }
{
    let keys = linked_keys(alloc, schema, row, rel)?;
    let members = Members::Listed(List::from_vec(keys));
    select_page(
        alloc,
        &members,
        query.sort.as_slice(),
        &query.page,
        recorder,
        work,
    )
}

/// The row that a to-one relationship leads to, if it leads to one.
pub fn linked_row<V: View>(
    alloc: Global,
    schema: &Schema,
    row: &Row,
    rel: u32,
    recorder: &mut Recorder<V>,
    work: &mut Work,
) -> Result<Option<Row>, NoMemory>
    ensures { IfOk result (λ found. TellsRead schema.now V.cells (reach_linked schema.now row.now rel) (IsLinkedRow schema.now row.now rel found) recorder.old recorder.new) }
{
    let keys = linked_keys(alloc, schema, row, rel)?;
    match keys.as_slice().first() {
        Some(key) => find_row(alloc, key, recorder, work),
        None => Ok(None),
    }
}
