ghost use Rattle.std.specs.Prelude.{◌≡◌, [], ◌∷◌, ◌++◌, IfOk, OnOk, ⊤};
ghost use Rattle.std.specs.List.{list_any};
ghost use Rattle.resource_schema.specs.declared.schema.Schema.{Schema as Types};
ghost use Rattle.error_objects.specs.Refusals.{at_pointer};
ghost use Rattle.store_model.specs.Change.{member_ids, append_new, pointer_of_member, name_pointer};
ghost use Rattle.store_model.specs.Run.{refusal_under};
ghost use Rattle.store_model.specs.Valid.{same_id};
ghost use Rattle.store_model.specs.Reach.{is_row_in, member_keys};
ghost use Rattle.trial_steps.specs.Steps.{LooksAt, Sees, Tells};
ghost use Rattle.row_change.specs.Places.{may_link};
ghost use Rattle.row_change.specs.Linkages.{refuse_one, refuse_all, AreNamed, refuse_joined, AreJoined};

use crate::finds::{joined_pointer, key_of, refuse_part};
use crate::places::MayLinkTo;
use crate::steps::Step;
use error_objects::{Code, Refusal};
use ident_rules::{Id, Key, List, NoMemory, StepError, Text};
use local_ids::LocalIds;
use outer_ends::Work;
use std::alloc::Global;
use std::cmp::Ordering;
use task_forms::{Member, Named};
use trial_steps::has_row;
use view_reads::{Recorder, View};
use world_cells::LINK_LIMIT;

/// A linkage of a request.
#[derive(Clone, Copy)]
pub struct Linkage<'a> {
    /// Its pointer, seen from the operation.
    pub pointer: &'a str,
    /// Where its members may lead.
    pub to: MayLinkTo,
    /// Its members.
    pub members: &'a [Member],
}

/// The ids that the members of a linkage stand for, each in order.
pub fn read_members<V: View>(
    step: &Step<'_>,
    lids: &LocalIds,
    linkage: &Linkage<'_>,
    recorder: &mut Recorder<V>,
    work: &mut Work,
) -> Result<List<Id>, StepError<Refusal>>
    ensures looks { LooksAt (is_row_in (member_keys lids.now linkage.now.members.now)) recorder.old recorder.new }
    ensures ids { IfOk result (AreNamed linkage.now lids.now) }
    ensures sees { Tells step.now.pointer.now V.cells recorder.old recorder.new (λ schema. refuse_all linkage.now lids.now) (λ now. AreNamed linkage.now lids.now) result }
    ensures unread { linkage.now.to ≡ MayLinkTo.Anywhere → recorder.new.reads ≡ recorder.old.reads }
{
    let mut ids = Vec::new(step.alloc);
    for member in linkage.members {
        let id = read_member(step, lids, linkage, member, recorder, work)?;
        push_id(&mut ids, id)?;
    }
    Ok(List::from_vec(ids))
}

/// Puts an id behind others.
fn push_id(ids: &mut Vec<Id>, id: Id) -> Result<(), NoMemory>
    ensures { OnOk result (ids.new.items ≡ ids.old.items ++ id ∷ []) }
{
    ids.push(id)?;
    Ok(())
}

/// The id that one member of a linkage stands for.
fn read_member<V: View>(
    step: &Step<'_>,
    lids: &LocalIds,
    linkage: &Linkage<'_>,
    member: &Member,
    recorder: &mut Recorder<V>,
    work: &mut Work,
) -> Result<Id, StepError<Refusal>>
    ensures looks { LooksAt (is_row_in (member_keys lids.now (member.now ∷ []))) recorder.old recorder.new }
    ensures id { IfOk result (λ id. member_ids lids.now (member.now ∷ []) ≡ id ∷ []) }
    ensures sees { Tells step.now.pointer.now V.cells recorder.old recorder.new (λ schema. refuse_one linkage.now lids.now member.now) (λ now id. ⊤) result }
    ensures unread { linkage.now.to ≡ MayLinkTo.Anywhere → recorder.new.reads ≡ recorder.old.reads }
{
    let Some(key) = key_of(lids, &member.named) else {
        let refusal = refuse_member(step, Code::UnknownLid, linkage.pointer, member)?;
        return Err(StepError::Because(refusal));
    };
    if may_link(linkage.to, &key, recorder, work)? {
        Ok(key.id)
    } else {
        let refusal = refuse_member(step, Code::RelatedNotFound, linkage.pointer, member)?;
        Err(StepError::Because(refusal))
    }
}

/// Whether a link may lead to a key.
fn may_link<V: View>(
    to: MayLinkTo,
    key: &Key,
    recorder: &mut Recorder<V>,
    work: &mut Work,
) -> Result<bool, NoMemory>
    ensures looks { LooksAt (is_row_in (key.now ∷ [])) recorder.old recorder.new }
    ensures sees { (schema : Types) → Sees schema V.cells recorder.old recorder.new (λ now. IfOk result (λ b. b ≡ may_link to now key.now)) }
    ensures unread { to ≡ MayLinkTo.Anywhere → recorder.new.reads ≡ recorder.old.reads }
{
    match to {
        MayLinkTo::Anywhere => Ok(true),
        MayLinkTo::AtRow => has_row(key, recorder, work),
        MayLinkTo::AtRowOr(own) => {
            if own == *key {
                Ok(true)
            } else {
                has_row(key, recorder, work)
            }
        }
    }
}

/// The refusal of a member of a linkage, seen from the request: what names the member is blamed.
fn refuse_member(
    step: &Step<'_>,
    code: Code,
    linkage: &str,
    member: &Member,
) -> Result<Refusal, NoMemory>
    ensures { IfOk result (λ r. r ≡ refusal_under step.now.pointer.now (at_pointer code (pointer_of_member linkage.now member.now ++ name_pointer member.now.named))) }
{
    let pointer = member_pointer(step.alloc, linkage, member)?;
    refuse_part(step, code, pointer.as_str(), name_pointer(&member.named))
}

/// The pointer of a member, in that of its linkage.
fn member_pointer(alloc: Global, linkage: &str, member: &Member) -> Result<Text, NoMemory>
    ensures { IfOk result (λ t. t ≡ pointer_of_member linkage.now member.now) }
{
    match member.index {
        Some(index) => {
            let place = format!(in alloc; "{index}")?;
            joined_pointer(alloc, linkage, "/", place.as_str())
        }
        None => Text::from_str(alloc, linkage),
    }
}

/// What names a member, in the pointer of the member.
fn name_pointer(named: &Named) -> &'static str
    ensures { result.now ≡ name_pointer named.now }
{
    match named {
        Named::Id(_) => "/id",
        Named::Lid(_, _) => "/lid",
    }
}

/// The ids of a linkage behind old ones, each once; at most [`LINK_LIMIT`] together.
pub fn join_members<V: View>(
    step: &Step<'_>,
    lids: &LocalIds,
    linkage: &Linkage<'_>,
    old: &[Id],
    recorder: &mut Recorder<V>,
    work: &mut Work,
) -> Result<List<Id>, StepError<Refusal>>
    ensures looks { LooksAt (is_row_in (member_keys lids.now linkage.now.members.now)) recorder.old recorder.new }
    ensures ids { IfOk result (AreJoined linkage.now lids.now old.now) }
    ensures sees { Tells step.now.pointer.now V.cells recorder.old recorder.new (λ schema. refuse_joined linkage.now lids.now old.now) (λ now. AreJoined linkage.now lids.now old.now) result }
{
    let ids = read_members(step, lids, linkage, recorder, work)?;
    let joined = append_new(step.alloc, old, ids.as_slice())?;
    if joined.len() > LINK_LIMIT {
        let refusal = refuse_part(step, Code::TooManyMembers, linkage.pointer, "")?;
        return Err(StepError::Because(refusal));
    }
    Ok(List::from_vec(joined))
}

/// More ids behind old ones, each once.
fn append_new(alloc: Global, old: &[Id], more: &[Id]) -> Result<Vec<Id>, NoMemory>
    ensures { IfOk result (λ ids. ids.items ≡ append_new old.now more.now) }
{
    let mut ids = Vec::from_slice(alloc, old)?;
    for id in more {
        append_one(&mut ids, id)?;
    }
    Ok(ids)
}

/// An id behind others, unless it is among them.
fn append_one(ids: &mut Vec<Id>, id: &Id) -> Result<(), NoMemory>
    ensures { OnOk result (ids.new.items ≡ append_new ids.old.items (id.now ∷ [])) }
{
    if has_id(ids.as_slice(), id) {
        Ok(())
    } else {
        push_id(ids, *id)
    }
}

/// Whether an id is among these.
fn has_id(ids: &[Id], id: &Id) -> bool
    ensures { result ≡ list_any (same_id id.now) ids.now }
{
    ids.iter().any(|other| same_id(id, other))
}

/// Whether two ids are equal.
fn same_id(one: &Id, other: &Id) -> bool
    ensures { result ≡ same_id one.now other.now }
{
    one.cmp(other) == Ordering::Equal
}
