//! Which keys a read set covers.
ghost use Rattle.std.specs.Prelude.{◌≡◌, ◌↔◌, IsTrue};
ghost use Rattle.std.specs.List.{list_any};
ghost use Rattle.world_cells.specs.CellOrder.{same_cell_key};
ghost use Rattle.world_cells.specs.Reads.{in_part, covers};
ghost use Rattle.history_model.specs.Standing.{Meets};
ghost use Rattle.commit_log.specs.Keeping.{is_up_to};

use std::cmp::Ordering;
use view_reads::in_span;
use world_cells::{CellKey, KeySet, Part, ReadSet};

/// Whether a key lies not past the key that was found, where one was.
fn is_up_to(from_top: bool, found: &Option<CellKey>, key: &CellKey) -> bool
    ensures { result ≡ is_up_to from_top found.now key.now }
{
    match found {
        None => true,
        Some(found) => {
            if from_top {
                key.cmp(found) != Ordering::Less
            } else {
                found.cmp(key) != Ordering::Less
            }
        }
    }
}

/// Whether a part has a key.
fn in_part(part: &Part, key: &CellKey) -> bool
    ensures { result ≡ in_part part.now key.now }
{
    in_span(&part.span, key) && is_up_to(part.from_top, &part.found, key)
}

/// Whether a key is among others.
fn has_key(keys: &[CellKey], key: &CellKey) -> bool
    ensures { result ≡ list_any (same_cell_key key.now) keys.now }
{
    for other in keys {
        if *key == *other {
            return true;
        }
    }
    false
}

/// Whether one of some parts has a key.
fn has_part(parts: &[Part], key: &CellKey) -> bool
    ensures { result ≡ list_any (λ part. in_part part key.now) parts.now }
{
    for part in parts {
        if in_part(part, key) {
            return true;
        }
    }
    false
}

/// Whether a read set covers a key.
fn covers(reads: &ReadSet, key: &CellKey) -> bool
    ensures { result ≡ covers reads.now key.now }
{
    has_key(reads.keys.as_slice(), key) || has_part(reads.parts.as_slice(), key)
}

/// Whether a read set covers one of some keys.
fn covers_one(reads: &ReadSet, keys: &[CellKey]) -> bool
    ensures { result ≡ list_any (covers reads.now) keys.now }
{
    for key in keys {
        if covers(reads, key) {
            return true;
        }
    }
    false
}

/// Whether a key that was read was written.
pub(crate) fn meets(reads: &ReadSet, keys: &KeySet) -> bool
    ensures { IsTrue result ↔ Meets reads.now keys.now.keys }
{
    covers_one(reads, keys.keys.as_slice())
}
