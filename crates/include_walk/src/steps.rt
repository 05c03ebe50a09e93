//! One step from some keys, and a walk along one path.
ghost use Rattle.std.specs.Prelude.{◌≡◌, ◌||◌, ◌∷◌, IfOk, OnOk, []};
ghost use Rattle.std.specs.Option.{option_map_or};
ghost use Rattle.world_cells.specs.World.{linked, row_at};
ghost use Rattle.store_model.specs.Included.{along, has_key, step};
ghost use Rattle.store_model.specs.Reach.{is_row_in};
ghost use Rattle.trial_steps.specs.Steps.{LooksAt, ReadsWithin, Sees};
ghost use Rattle.include_walk.specs.Sets.{Adds, AreSame};
ghost use Rattle.include_walk.specs.Reading.{anywhere, reach_along};

use crate::key_sets::{insert_all, keys_of};
use crate::links::insert_found;
use ident_rules::{Key, NoMemory};
use outer_ends::Work;
use resource_schema::Schema;
use std::alloc::Global;
use std::collections::BTreeSet;
use view_reads::{Recorder, View};
use world_cells::CellKey;

/// The keys that one relationship of the row at a key leads to are put in, if there is the row.
fn insert_next<V: View>(
    schema: &Schema,
    key: &Key,
    rel: u32,
    next: &mut BTreeSet<Key>,
    recorder: &mut Recorder<V>,
    work: &mut Work,
) -> Result<(), NoMemory>
    ensures looks { LooksAt (is_row_in (key.now ∷ [])) recorder.old recorder.new }
    ensures sees { Sees schema.now V.cells recorder.old recorder.new (λ now. OnOk result (Adds next.old.keys (option_map_or (λ row. linked schema.now row rel) (row_at now key.now) []) next.new.keys)) }
{
    let found = recorder.get(&CellKey::Row(*key), work)?;
    insert_found(schema, found, rel, next)
}

/// The keys that one relationship of the rows at some keys leads to.
fn step<V: View>(
    alloc: Global,
    schema: &Schema,
    keys: &[Key],
    rel: u32,
    recorder: &mut Recorder<V>,
    work: &mut Work,
) -> Result<BTreeSet<Key>, NoMemory>
    ensures looks { LooksAt (is_row_in keys.now) recorder.old recorder.new }
    ensures sees { Sees schema.now V.cells recorder.old recorder.new (λ now. IfOk result (λ next. AreSame next.keys (step schema.now now rel keys.now))) }
{
    let mut next = BTreeSet::new(alloc);
    for key in keys {
        insert_next(schema, key, rel, &mut next, recorder, work)?;
    }
    Ok(next)
}

/// The keys that a path leads to from some keys, step for step, are put in.
pub fn walk_along<V: View>(
    alloc: Global,
    schema: &Schema,
    primary: &[Key],
    path: &[u32],
    reached: &mut BTreeSet<Key>,
    recorder: &mut Recorder<V>,
    work: &mut Work,
) -> Result<(), NoMemory>
    ensures looks { LooksAt anywhere recorder.old recorder.new }
    ensures sees { Sees schema.now V.cells recorder.old recorder.new (λ now. OnOk result (Adds reached.old.keys (along schema.now now path.now primary.now) reached.new.keys)) }
    ensures reach { ReadsWithin schema.now V.cells (reach_along schema.now primary.now path.now) recorder.old recorder.new }
{
    let mut level = Vec::from_slice(alloc, primary)?;
    for rel in path {
        let from = level.as_slice();
        let next = step(alloc, schema, from, *rel, recorder, work)?;
        level = keys_of(alloc, &next)?;
        let found = level.as_slice();
        insert_all(reached, found)?;
    }
    Ok(())
}
