ghost use Rattle.std.specs.Prelude.{◌≡◌, ◌++◌, IfOk, codes, not};
ghost use Rattle.std.specs.List.{filter, list_any};
ghost use Rattle.store_model.specs.Valid.{same_id};
ghost use Rattle.store_model.specs.Change.{on_link};
ghost use Rattle.store_model.specs.Reach.{is_row_in, target_keys};
ghost use Rattle.view_reads.specs.Recording.{Follows};
ghost use Rattle.trial_steps.specs.Steps.{LooksAt, Tells};
ghost use Rattle.row_change.specs.Trial.{TellsChange, ReadsInReach, read_of};
ghost use Rattle.row_change.specs.LinkChanges.{linked_to, operation_of, link_keys, refuse_change, AreAfter, refuse_link, IsRelinked};

use crate::finds::find_target;
use crate::linkages::{Linkage, join_members, read_members};
use crate::links::set_link;
use crate::places::MayLinkTo;
use crate::steps::Step;
use crate::updates::Rewrite;
use error_objects::Refusal;
use ident_rules::{Id, Key, List, NoMemory, StepError};
use local_ids::LocalIds;
use outer_ends::Work;
use row_writes::{ids_at, put_row};
use std::alloc::Global;
use task_forms::{Member, Who};
use view_reads::{Recorder, View};
use world_cells::Row;

/// What members do to the link that they are given for (JSON:API 1.1, "Updating Relationships").
#[derive(Clone, Copy)]
pub enum LinkChange {
    /// It leads to these members alone.
    Set,
    /// It leads to these members too.
    Add,
    /// It leads to none of these members.
    Remove,
}

/// An operation on one link of a resource.
#[derive(Clone, Copy)]
pub struct LinkOperation<'a> {
    /// The resource.
    pub who: &'a Who,
    /// The number of the relationship.
    pub rel: u32,
    /// What is done to the link.
    pub change: LinkChange,
    /// The members that are given.
    pub members: &'a List<Member>,
}

/// Changes a link (JSON:API 1.1, "Updating Relationships" and "Updating To-Many Relationships"). There is no key.
pub fn change_link<V: View>(
    step: &Step<'_>,
    lids: &LocalIds,
    operation: &LinkOperation<'_>,
    recorder: &mut Recorder<V>,
    work: &mut Work,
) -> Result<Option<Key>, StepError<Refusal>>
    ensures reads { Follows recorder.old recorder.new }
    ensures outcome { TellsChange step.now.schema.now V.cells step.now.pointer.now (operation_of operation.now) lids.now lids.now recorder.old recorder.new (read_of result) }
    ensures reach { ReadsInReach step.now.schema.now V.cells (operation_of operation.now) lids.now recorder.old recorder.new }
{
    let rewrite = relinked_row(step, lids, operation, recorder, work)?;
    let Rewrite { old, new } = rewrite;
    put_row(step.schema, Some(&old), new, recorder)?;
    Ok(None)
}

/// The row that is named, and what it is when its link is changed.
fn relinked_row<V: View>(
    step: &Step<'_>,
    lids: &LocalIds,
    operation: &LinkOperation<'_>,
    recorder: &mut Recorder<V>,
    work: &mut Work,
) -> Result<Rewrite, StepError<Refusal>>
    ensures looks { LooksAt (is_row_in (target_keys lids.now operation.now.who.now ++ link_keys operation.now lids.now)) recorder.old recorder.new }
    ensures sees { Tells step.now.pointer.now V.cells recorder.old recorder.new (refuse_link operation.now lids.now) (IsRelinked operation.now lids.now) result }
{
    let old = find_target(step, lids, operation.who, recorder, work)?;
    let linked = ids_at(old.links.as_slice(), operation.rel);
    let ids = ids_after(step, lids, operation, linked, recorder, work)?;
    let new = row_with_link(step.alloc, &old, operation.rel, ids)?;
    Ok(Rewrite { old, new })
}

/// The ids to which a link leads after a change, from those before it.
fn ids_after<V: View>(
    step: &Step<'_>,
    lids: &LocalIds,
    operation: &LinkOperation<'_>,
    old: &[Id],
    recorder: &mut Recorder<V>,
    work: &mut Work,
) -> Result<List<Id>, StepError<Refusal>>
    ensures looks { LooksAt (is_row_in (link_keys operation.now lids.now)) recorder.old recorder.new }
    ensures sees { Tells step.now.pointer.now V.cells recorder.old recorder.new (λ schema. refuse_change operation.now lids.now old.now) (λ now. AreAfter operation.now lids.now old.now) result }
{
    let linkage = linkage_of(operation);
    match operation.change {
        LinkChange::Set => join_members(step, lids, &linkage, &[], recorder, work),
        LinkChange::Add => join_members(step, lids, &linkage, old, recorder, work),
        LinkChange::Remove => {
            let removed = read_members(step, lids, &linkage, recorder, work)?;
            Ok(ids_without(step.alloc, old, removed.as_slice())?)
        }
    }
}

/// The linkage of an operation on a link.
fn linkage_of<'a>(operation: &LinkOperation<'a>) -> Linkage<'a>
    ensures pointer { result.pointer.now ≡ codes "/data" }
    ensures to { result.to ≡ linked_to operation.now.change }
    ensures members { result.members.now ≡ operation.now.members.now }
{
    Linkage {
        pointer: "/data",
        to: match operation.change {
            LinkChange::Set | LinkChange::Add => MayLinkTo::AtRow,
            LinkChange::Remove => MayLinkTo::Anywhere,
        },
        members: operation.members.as_slice(),
    }
}

/// The ids that are not among others, in their order. Its one error is want of memory.
fn ids_without(alloc: Global, ids: &[Id], removed: &[Id]) -> Result<List<Id>, NoMemory>
    ensures { IfOk result (λ left. left ≡ filter (λ x. not (list_any (same_id x) removed.now)) ids.now) }
{
    let mut left = Vec::new(alloc);
    for id in ids {
        if !removed.contains(id) {
            left.push(*id)?;
        }
    }
    Ok(List::from_vec(left))
}

/// A row with other ids at one link, if it has that link. Its one error is want of memory.
fn row_with_link(alloc: Global, old: &Row, rel: u32, ids: List<Id>) -> Result<Row, NoMemory>
    ensures { IfOk result (λ row. row ≡ on_link rel (λ before. ids) old.now) }
{
    let Row { key, values, links } = old.copy(alloc)?;
    let mut links = links.into_vec();
    set_link(&mut links, rel, ids);
    Ok(Row {
        key,
        values,
        links: List::from_vec(links),
    })
}
