ghost use Rattle.std.specs.Prelude.{◌≡◌, ◌≢◌, ◌≤◌, ◌<◌, OnOk, Some, None, [], option_copied, length, take, get_or};
ghost use Rattle.resource_schema.specs.Kinds.{relationships_of};
ghost use Rattle.world_cells.specs.declared.cells.Cell.TheVariants as cell;
ghost use Rattle.world_cells.specs.World.{row_at};
ghost use Rattle.store_model.specs.Change.{with_row, without_row};
ghost use Rattle.trial_steps.specs.Steps.{LeavesReads, LeadsOn};
ghost use Rattle.row_writes.specs.WritesBacks.{Replaces, WritesBacks, TurnsBacks, RewritesLinks, ids_at, back_from, links_of};

use ident_rules::{Id, Key, NoMemory};
use resource_schema::Schema;
use std::slice::from_ref;
use view_reads::{Recorder, View};
use world_cells::{Cell, CellKey, Link, Row};

/// Writes a row in place of an old one, and the ways back to it: those from what the old one linked to and the new one does
/// not are removed, and those from what only the new one links to are put (JSON:API 1.1, "Updating Resources" and "Updating
/// Relationships").
///
/// Its one error is want of memory, after which some of these writes may stand.
pub fn put_row<V: View>(
    schema: &Schema,
    old: Option<&Row>,
    new: Row,
    recorder: &mut Recorder<V>,
) -> Result<(), NoMemory>
    ensures leaves { LeavesReads recorder.old recorder.new }
    ensures leads { OnOk result (LeadsOn schema.now (Replaces schema.now (option_copied old.entry) new) (λ now. with_row now new) recorder.old.writes recorder.new.writes) }
{
    let key = new.key;
    rewrite_links(schema, &key, links_of(old), new.links.as_slice(), recorder)?;
    recorder.put(CellKey::Row(key), Cell::Row(new))
}

/// Removes a row, and the ways back to it from what it links to (JSON:API 1.1, "Deleting Resources").
///
/// Its one error is want of memory, after which some of these writes may stand.
pub fn remove_row<V: View>(
    schema: &Schema,
    old: &Row,
    recorder: &mut Recorder<V>,
) -> Result<(), NoMemory>
    ensures leaves { LeavesReads recorder.old recorder.new }
    ensures leads { OnOk result (LeadsOn schema.now (λ now. row_at now old.now.key ≡ Some old.now) (λ now. without_row now old.now.key) recorder.old.writes recorder.new.writes) }
{
    rewrite_links(schema, &old.key, old.links.as_slice(), &[], recorder)?;
    recorder.remove(CellKey::Row(old.key))
}

/// The links of a row that may be there.
fn links_of(row: Option<&Row>) -> &[Link]
    ensures { result.now ≡ links_of (option_copied row.entry) }
{
    match row {
        Some(row) => row.links.as_slice(),
        None => &[],
    }
}

/// The ids of the link of that number, from 0; none where there is no such link.
pub fn ids_at(links: &[Link], rel: u32) -> &[Id]
    ensures { result.now ≡ ids_at links.now rel }
{
    match links.get(rel as usize) {
        Some(Link::One(Some(id))) => from_ref(id),
        Some(Link::Many(ids)) => ids.as_slice(),
        _ => &[],
    }
}

/// Removes the way back to a row from each id that is not kept.
fn remove_backs<V: View>(
    kind: u32,
    from: &Key,
    rel: u32,
    ids: &[Id],
    kept: &[Id],
    recorder: &mut Recorder<V>,
) -> Result<(), NoMemory>
    ensures leaves { LeavesReads recorder.old recorder.new }
    ensures backs { OnOk result (WritesBacks kind from.now rel ids.now kept.now None recorder.old.writes recorder.new.writes) }
{
    for id in ids {
        if !kept.contains(id) {
            recorder.remove(back_from(kind, from, rel, id))?;
        }
    }
    Ok(())
}

/// Puts the way back to a row from each id that is not kept.
fn put_backs<V: View>(
    kind: u32,
    from: &Key,
    rel: u32,
    ids: &[Id],
    kept: &[Id],
    recorder: &mut Recorder<V>,
) -> Result<(), NoMemory>
    ensures leaves { LeavesReads recorder.old recorder.new }
    ensures backs { OnOk result (WritesBacks kind from.now rel ids.now kept.now (Some cell.Back) recorder.old.writes recorder.new.writes) }
{
    for id in ids {
        if !kept.contains(id) {
            recorder.put(back_from(kind, from, rel, id), Cell::Back)?;
        }
    }
    Ok(())
}

/// The way back to a row from an id of a type.
fn back_from(kind: u32, from: &Key, rel: u32, id: &Id) -> CellKey
    ensures { result ≡ back_from kind from.now rel id.now }
{
    CellKey::Back {
        to: Key { kind, id: *id },
        from: *from,
        rel,
    }
}

/// How many ids two lists share at their front. Most changes leave a long one.
fn shared_front(left: &[Id], right: &[Id]) -> usize
    ensures left { result ≤ length left.now }
    ensures right { result ≤ length right.now }
    ensures same { take result left.now ≡ take result right.now }
    ensures longest { result < length left.now → result < length right.now → get_or left.now result [] ≢ get_or right.now result [] }
{
    let mut count = 0;
    while count < left.len() && count < right.len() && left[count] == right[count] {
        count += 1;
    }
    count
}

/// Rewrites the ways back to a row from what one of its links led to, and from what it leads to now.
fn rewrite_link<V: View>(
    kind: u32,
    from: &Key,
    rel: u32,
    old: &[Id],
    new: &[Id],
    recorder: &mut Recorder<V>,
) -> Result<(), NoMemory>
    ensures leaves { LeavesReads recorder.old recorder.new }
    ensures backs { OnOk result (TurnsBacks kind from.now rel old.now new.now recorder.old.writes recorder.new.writes) }
{
    let shared = shared_front(old, new);
    remove_backs(kind, from, rel, &old[shared..], new, recorder)?;
    put_backs(kind, from, rel, &new[shared..], old, recorder)
}

/// Rewrites the ways back to a row from what its links led to, and from what they lead to now.
fn rewrite_links<V: View>(
    schema: &Schema,
    key: &Key,
    old: &[Link],
    new: &[Link],
    recorder: &mut Recorder<V>,
) -> Result<(), NoMemory>
    ensures leaves { LeavesReads recorder.old recorder.new }
    ensures links { OnOk result (RewritesLinks schema.now key.now old.now new.now (length (relationships_of schema.now key.now.kind)) recorder.old.writes recorder.new.writes) }
{
    let count = schema.relationships_of(key.kind).len() as u32;
    for rel in 0..count {
        let target = schema.target_of(key.kind, rel);
        let (left, led) = (ids_at(old, rel), ids_at(new, rel));
        rewrite_link(target, key, rel, left, led, recorder)?;
    }
    Ok(())
}
