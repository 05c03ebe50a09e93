//! The keys that a row's links lead to.
ghost use Rattle.std.specs.Prelude.{◌≡◌, OnOk, [], slice_get};
ghost use Rattle.std.specs.Option.{option_copied, option_map_or};
ghost use Rattle.world_cells.specs.World.{ids_of, linked};
ghost use Rattle.trial_steps.specs.Found.{row_of};
ghost use Rattle.include_walk.specs.Sets.{Adds, of_kind};

use crate::key_sets::insert;
use ident_rules::{Id, Key, NoMemory};
use resource_schema::Schema;
use std::collections::BTreeSet;
use world_cells::{Cell, Link, Row};

/// The keys of some resources of a type are put in.
fn insert_ids(kind: u32, ids: &[Id], keys: &mut BTreeSet<Key>) -> Result<(), NoMemory>
    ensures { OnOk result (Adds keys.old.keys (of_kind kind ids.now) keys.new.keys) }
{
    for id in ids {
        insert(keys, Key { kind, id: *id })?;
    }
    Ok(())
}

/// The keys that a link leads to are put in.
fn insert_link(kind: u32, link: &Link, keys: &mut BTreeSet<Key>) -> Result<(), NoMemory>
    ensures { OnOk result (Adds keys.old.keys (of_kind kind (ids_of link.now)) keys.new.keys) }
{
    match link {
        Link::One(None) => Ok(()),
        Link::One(Some(id)) => insert(keys, Key { kind, id: *id }),
        Link::Many(ids) => insert_ids(kind, ids.as_slice(), keys),
    }
}

/// The link of one relationship of a row, if the row has it.
fn link_of(row: &Row, rel: u32) -> Option<&Link>
    ensures { option_copied result ≡ slice_get row.now.links rel }
{
    row.links.as_slice().get(rel as usize)
}

/// The keys that one relationship of a row leads to are put in.
fn insert_linked(
    schema: &Schema,
    row: &Row,
    rel: u32,
    keys: &mut BTreeSet<Key>,
) -> Result<(), NoMemory>
    ensures { OnOk result (Adds keys.old.keys (linked schema.now row.now rel) keys.new.keys) }
{
    match link_of(row, rel) {
        Some(link) => insert_link(schema.target_of(row.key.kind, rel), link, keys),
        None => Ok(()),
    }
}

/// The same of the row in a cell, if it has one.
pub fn insert_found(
    schema: &Schema,
    found: Option<&Cell>,
    rel: u32,
    keys: &mut BTreeSet<Key>,
) -> Result<(), NoMemory>
    ensures { OnOk result (Adds keys.old.keys (option_map_or (λ row. linked schema.now row rel) (row_of (option_copied found.entry)) []) keys.new.keys) }
{
    match found {
        Some(Cell::Row(row)) => insert_linked(schema, row, rel, keys),
        _ => Ok(()),
    }
}
