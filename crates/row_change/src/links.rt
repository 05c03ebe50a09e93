ghost use Rattle.std.specs.Prelude.{◌≡◌, IfOk, slice_set, get_or};
ghost use Rattle.store_model.specs.Change.{link_of, linkage_pointer};
ghost use Rattle.store_model.specs.Reach.{is_row_in, linked_keys};
ghost use Rattle.world_cells.specs.World.{no_link};
ghost use Rattle.trial_steps.specs.Steps.{LooksAt};
ghost use Rattle.row_change.specs.Told.{TellsAt};
ghost use Rattle.row_change.specs.Linkages.{refuse_given, AreSet};

use crate::finds::joined_pointer;
use crate::linkages::{Linkage, join_members};
use crate::places::MayLinkTo;
use crate::steps::Step;
use error_objects::Refusal;
use ident_rules::{Id, List, NoMemory, StepError, Text};
use local_ids::LocalIds;
use outer_ends::Work;
use resource_schema::Relationship;
use std::alloc::Global;
use task_forms::Member;
use view_reads::{Recorder, View};
use world_cells::Link;

/// The linkages that a request gives for a resource.
#[derive(Clone, Copy)]
pub struct GivenLinks<'a> {
    /// The type of the resource.
    pub kind: u32,
    /// Where their members may lead.
    pub to: MayLinkTo,
    /// The number of each one's relationship, and its members.
    pub links: &'a [(u32, List<Member>)],
}

/// The links of a row with those that are given in place of old ones, each in order.
pub fn read_links<V: View>(
    step: &Step<'_>,
    lids: &LocalIds,
    given: &GivenLinks<'_>,
    old: List<Link>,
    recorder: &mut Recorder<V>,
    work: &mut Work,
) -> Result<List<Link>, StepError<Refusal>>
    ensures looks { LooksAt (is_row_in (linked_keys lids.now given.now.links.now)) recorder.old recorder.new }
    ensures sees { TellsAt step.now V.cells recorder.old recorder.new (refuse_given step.now.schema.now given.now lids.now) (λ now. AreSet given.now lids.now old) result }
{
    let relationships = step.schema.relationships_of(given.kind);
    let mut new = old.into_vec();
    for (rel, members) in given.links {
        let pointer = linkage_pointer(step.alloc, relationships, *rel)?;
        let linkage = Linkage {
            pointer: pointer.as_str(),
            to: given.to,
            members: members.as_slice(),
        };
        let ids = join_members(step, lids, &linkage, &[], recorder, work)?;
        set_link(&mut new, *rel, ids);
    }
    Ok(List::from_vec(new))
}

/// The pointer of a relationship's linkage in a resource.
fn linkage_pointer(
    alloc: Global,
    relationships: &[Relationship],
    rel: u32,
) -> Result<Text, NoMemory>
    ensures { IfOk result (λ t. t ≡ linkage_pointer relationships.now rel) }
{
    let name = match relationships.get(rel as usize) {
        Some(relationship) => relationship.name.as_str(),
        None => "",
    };
    joined_pointer(alloc, "/data/relationships/", name, "/data")
}

/// Sets the ids of a link, of whichever kind it is.
pub fn set_link(links: &mut Vec<Link>, rel: u32, ids: List<Id>)
    ensures { links.new.items ≡ slice_set links.old.items rel (link_of (get_or links.old.items rel no_link) ids) }
{
    let rel = rel as usize;
    if rel < links.len() {
        let new = link_of(&links[rel], ids);
        links[rel] = new;
    }
}

/// A link to these ids, of the same kind as an old one.
fn link_of(old: &Link, ids: List<Id>) -> Link
    ensures { result ≡ link_of old.now ids }
{
    match old {
        Link::One(_) => Link::One(ids.as_slice().first().copied()),
        Link::Many(_) => Link::Many(ids),
    }
}
