//! The walk along all paths.
ghost use Rattle.std.specs.Prelude.{◌≡◌, IfOk};
ghost use Rattle.store_model.specs.Included.{included, reached_keys};
ghost use Rattle.store_model.specs.Reach.{reach_walk};
ghost use Rattle.trial_steps.specs.Runners.{TellsRead};
ghost use Rattle.trial_steps.specs.Steps.{LooksAt, ReadsWithin, Sees};
ghost use Rattle.include_walk.specs.Sets.{AreSame};
ghost use Rattle.include_walk.specs.Reading.{anywhere};

use crate::key_sets::{keys_of, remove_all};
use crate::rows::rows_at;
use crate::steps::walk_along;
use ident_rules::{Key, NoMemory};
use outer_ends::Work;
use resource_schema::Schema;
use std::alloc::Global;
use std::collections::BTreeSet;
use store_model::{included_is_one, included_is_reached};
use task_forms::Path;
use view_reads::{Recorder, View};
use world_cells::Row;

/// The keys that the paths lead to.
fn walk_all<V: View>(
    alloc: Global,
    schema: &Schema,
    primary: &[Key],
    paths: &[Path],
    recorder: &mut Recorder<V>,
    work: &mut Work,
) -> Result<BTreeSet<Key>, NoMemory>
    ensures looks { LooksAt anywhere recorder.old recorder.new }
    ensures sees { Sees schema.now V.cells recorder.old recorder.new (λ now. IfOk result (λ reached. AreSame reached.keys (reached_keys schema.now now primary.now paths.now))) }
    ensures reach { ReadsWithin schema.now V.cells (reach_walk schema.now primary.now paths.now) recorder.old recorder.new }
{
    let mut reached = BTreeSet::new(alloc);
    for path in paths {
        let rels = path.rels.as_slice();
        walk_along(alloc, schema, primary, rels, &mut reached, recorder, work)?;
    }
    Ok(reached)
}

/// Copies of the rows that some paths lead to from primary resources, which are not among them; each row once, in the
/// order of the keys (JSON:API 1.1, "Inclusion of Related Resources", "Compound Documents"). It looks at the primary
/// rows and at those that it gives, and at nothing else. Its one error is want of memory.
pub fn walk<V: View>(
    alloc: Global,
    schema: &Schema,
    primary: &[Key],
    paths: &[Path],
    recorder: &mut Recorder<V>,
    work: &mut Work,
) -> Result<Vec<Row>, NoMemory>
    ensures { IfOk result (λ r. TellsRead schema.now V.cells (reach_walk schema.now primary.now paths.now) (λ now. r.items ≡ included schema.now now primary.now paths.now) recorder.old recorder.new) }
{
    included_is_one();
    included_is_reached();
    let mut reached = walk_all(alloc, schema, primary, paths, recorder, work)?;
    remove_all(&mut reached, primary);
    let keys = keys_of(alloc, &reached)?;
    rows_at(alloc, keys.as_slice(), recorder, work)
}
