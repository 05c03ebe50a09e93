ghost use Rattle.std.specs.Prelude.{◌≡◌, ◌++◌, IfOk, slice_set};
ghost use Rattle.store_model.specs.Change.{set_values};
ghost use Rattle.store_model.specs.Reach.{is_row_in, target_keys, linked_keys};
ghost use Rattle.view_reads.specs.Recording.{Follows};
ghost use Rattle.trial_steps.specs.Steps.{LooksAt};
ghost use Rattle.row_change.specs.Told.{TellsAt};
ghost use Rattle.row_change.specs.Trial.{TellsChange, ReadsInReach, read_of};
ghost use Rattle.row_change.specs.Rewrites.{update_of, refuse_update, IsUpdated, refuse_links_of, AreNewLinks};

use crate::finds::find_target;
use crate::links::{GivenLinks, read_links};
use crate::places::MayLinkTo;
use crate::steps::Step;
use error_objects::Refusal;
use ident_rules::{Key, List, NoMemory, StepError};
use local_ids::LocalIds;
use outer_ends::Work;
use resource_schema::{AttrValue, copy_values};
use row_writes::put_row;
use std::alloc::Global;
use task_forms::{Member, Who};
use view_reads::{Recorder, View};
use world_cells::{Link, Row};

/// A row that an operation changes: as it was, and as it is to be.
#[derive(Drop)]
pub struct Rewrite {
    /// The row that is named.
    pub old: Row,
    /// What is to stand in its place, at the same key.
    pub new: Row,
}

/// New values and links of a resource.
#[derive(Clone, Copy)]
pub struct ResourceUpdate<'a> {
    /// The resource.
    pub who: &'a Who,
    /// New values, each with the number of its attribute.
    pub values: &'a List<(u32, AttrValue)>,
    /// New members of links, each with the number of its relationship.
    pub links: &'a List<(u32, List<Member>)>,
}

/// Changes attributes and links of a resource (JSON:API 1.1, "Updating Resources"). The key is that of the row.
pub fn update<V: View>(
    step: &Step<'_>,
    lids: &LocalIds,
    update: &ResourceUpdate<'_>,
    recorder: &mut Recorder<V>,
    work: &mut Work,
) -> Result<Option<Key>, StepError<Refusal>>
    ensures reads { Follows recorder.old recorder.new }
    ensures outcome { TellsChange step.now.schema.now V.cells step.now.pointer.now (update_of update.now) lids.now lids.now recorder.old recorder.new (read_of result) }
    ensures reach { ReadsInReach step.now.schema.now V.cells (update_of update.now) lids.now recorder.old recorder.new }
{
    let rewrite = updated_row(step, lids, update, recorder, work)?;
    let Rewrite { old, new } = rewrite;
    let key = new.key;
    put_row(step.schema, Some(&old), new, recorder)?;
    Ok(Some(key))
}

/// The row that an update changes, with its new values and links.
fn updated_row<V: View>(
    step: &Step<'_>,
    lids: &LocalIds,
    update: &ResourceUpdate<'_>,
    recorder: &mut Recorder<V>,
    work: &mut Work,
) -> Result<Rewrite, StepError<Refusal>>
    ensures looks { LooksAt (is_row_in (target_keys lids.now update.now.who.now ++ linked_keys lids.now update.now.links.now)) recorder.old recorder.new }
    ensures sees { TellsAt step.now V.cells recorder.old recorder.new (refuse_update update.now lids.now step.now.schema.now) (IsUpdated update.now lids.now) result }
{
    let old = find_target(step, lids, update.who, recorder, work)?;
    let links = new_links(step, lids, update, &old, recorder, work)?;
    let new = with_values(step.alloc, &old, update.values.as_slice(), links)?;
    Ok(Rewrite { old, new })
}

/// The links of a row, those that are given in place of old ones.
fn new_links<V: View>(
    step: &Step<'_>,
    lids: &LocalIds,
    update: &ResourceUpdate<'_>,
    old: &Row,
    recorder: &mut Recorder<V>,
    work: &mut Work,
) -> Result<List<Link>, StepError<Refusal>>
    ensures looks { LooksAt (is_row_in (linked_keys lids.now update.now.links.now)) recorder.old recorder.new }
    ensures sees { TellsAt step.now V.cells recorder.old recorder.new (refuse_links_of update.now lids.now step.now.schema.now) (λ now. AreNewLinks update.now lids.now old.now) result }
{
    let copy = old.copy(step.alloc)?;
    let given = GivenLinks {
        kind: update.who.named.kind(),
        to: MayLinkTo::AtRow,
        links: update.links.as_slice(),
    };
    read_links(step, lids, &given, copy.links, recorder, work)
}

/// A row with new values at their attributes, and with these links. Its one error is want of memory.
fn with_values(
    alloc: Global,
    old: &Row,
    values: &[(u32, AttrValue)],
    links: List<Link>,
) -> Result<Row, NoMemory>
    ensures { IfOk result (λ row. row ≡ record old.now { values = set_values old.now.values values.now; links = links }) }
{
    Ok(Row {
        key: old.key,
        values: set_values(alloc, old.values.as_slice(), values)?,
        links,
    })
}

/// Values of a row with new ones at their attributes. Its one error is want of memory.
fn set_values(
    alloc: Global,
    old: &[AttrValue],
    values: &[(u32, AttrValue)],
) -> Result<List<AttrValue>, NoMemory>
    ensures { IfOk result (λ new. new ≡ set_values old.now values.now) }
{
    let mut new = copy_values(alloc, old)?.into_vec();
    for (attribute, value) in values {
        let value = value.copy(alloc)?;
        set_value(&mut new, *attribute, value);
    }
    Ok(List::from_vec(new))
}

/// Sets the value of an attribute, where there is one.
fn set_value(values: &mut Vec<AttrValue>, attribute: u32, value: AttrValue)
    ensures { values.new.items ≡ slice_set values.old.items attribute value }
{
    let attribute = attribute as usize;
    if attribute < values.len() {
        values[attribute] = value;
    }
}
