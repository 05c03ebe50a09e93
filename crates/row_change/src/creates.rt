ghost use Rattle.std.specs.Prelude.{◌≡◌, ℕ, List, if◌then◌else◌, IfOk, OnOk, IsFalse, [], Some, None};
ghost use Rattle.resource_schema.specs.Kinds.{relationships_of};
ghost use Rattle.error_objects.specs.Refusals.{refusal};
ghost use Rattle.store_model.specs.Change.{is_bound, bind, empty_links, with_row};
ghost use Rattle.store_model.specs.Reach.{is_row_in, linked_keys};
ghost use Rattle.view_reads.specs.Recording.{Follows};
ghost use Rattle.trial_steps.specs.Steps.{LooksAt, Tells, LeavesReads, LeadsOn};
ghost use Rattle.row_writes.specs.WritesBacks.{Replaces};
ghost use Rattle.row_change.specs.Told.{TellsAt};
ghost use Rattle.row_change.specs.Trial.{TellsChange, ReadsInReach, read_of};
ghost use Rattle.row_change.specs.Creating.{refuse_id, is_looked_for, IsNewId, with_counter, with_created, LeadsAnywhere};
ghost use Rattle.row_change.specs.NewRows.{create_of, refuse_new, IsNewRow};

use crate::finds::refuse_part;
use crate::links::{GivenLinks, read_links};
use crate::places::MayLinkTo;
use crate::steps::Step;
use error_objects::{Blame, Code, Refusal};
use ident_rules::{Id, Key, List, NoMemory, StepError, Text};
use local_ids::{Bind, LocalIds};
use outer_ends::Work;
use resource_schema::{AttrValue, Schema, copy_values};
use row_writes::put_row;
use std::alloc::Global;
use task_forms::Member;
use trial_steps::{has_row, next_number};
use view_reads::{Recorder, View};
use world_cells::{Cell, CellKey, LAST_NEXT_ID, Link, Row};

/// A resource that is to be created.
#[derive(Clone, Copy)]
pub struct NewResource<'a> {
    /// Its type.
    pub kind: u32,
    /// The id that the client gives, if it does.
    pub id: Option<Id>,
    /// Its local id, if it has one.
    pub lid: &'a Option<Text>,
    /// Its values, one for each attribute of its type.
    pub values: &'a List<AttrValue>,
    /// The members of links, each with the number of its relationship.
    pub links: &'a List<(u32, List<Member>)>,
}

/// Creates a resource (JSON:API 1.1, "Creating Resources"). The key is that of the new row.
///
/// It is refused, in this order, where its local id is bound already, where a row has the client's id, where no id is left for
/// the server to give, and where a linkage is refused. A link may lead to the new row itself.
pub fn create<V: View>(
    step: &Step<'_>,
    lids: &mut LocalIds,
    new: &NewResource<'_>,
    recorder: &mut Recorder<V>,
    work: &mut Work,
) -> Result<Option<Key>, StepError<Refusal>>
    ensures reads { Follows recorder.old recorder.new }
    ensures outcome { TellsChange step.now.schema.now V.cells step.now.pointer.now (create_of new.now) lids.old lids.new recorder.old recorder.new (read_of result) }
    ensures reach { ReadsInReach step.now.schema.now V.cells (create_of new.now) lids.old recorder.old recorder.new }
{
    if is_bound(lids, new.kind, new.lid) {
        let refusal = refuse_part(step, Code::LidBound, "/data/lid", "")?;
        return Err(StepError::Because(refusal));
    }
    let (id, next) = match new_id(step, new.kind, new.id, recorder, work) {
        Ok(made) => made,
        Err(stop) => return Err(stop),
    };
    bind(step.alloc, lids, new.kind, new.lid, id)?;
    let key = Key { kind: new.kind, id };
    let row = match new_row(step, lids, &key, new, recorder, work) {
        Ok(row) => row,
        Err(stop) => return Err(stop),
    };
    write_created(step.schema, next, row, recorder)?;
    Ok(Some(key))
}

/// Whether the local id of a new resource, if it has one, stands for an id already.
fn is_bound(lids: &LocalIds, kind: u32, lid: &Option<Text>) -> bool
    ensures { result ≡ is_bound lids.now kind lid.now }
{
    match lid {
        Some(lid) => lids.find(kind, lid.as_str()).is_some(),
        None => false,
    }
}

/// The id of a new row, and the next id of its type where that is to be written (JSON:API 1.1, "Client-Generated IDs").
fn new_id<V: View>(
    step: &Step<'_>,
    kind: u32,
    id: Option<Id>,
    recorder: &mut Recorder<V>,
    work: &mut Work,
) -> Result<(Id, Option<u64>), StepError<Refusal>>
    ensures looks { LooksAt (is_looked_for kind id) recorder.old recorder.new }
    ensures sees { Tells step.now.pointer.now V.cells recorder.old recorder.new (λ schema now. refuse_id now kind id) (λ now. IsNewId now kind id) result }
{
    match id {
        Some(id) => client_id(step, kind, id, recorder, work),
        None => server_id(kind, recorder, work),
    }
}

/// The id that the client gives, where no row has it.
fn client_id<V: View>(
    step: &Step<'_>,
    kind: u32,
    id: Id,
    recorder: &mut Recorder<V>,
    work: &mut Work,
) -> Result<(Id, Option<u64>), StepError<Refusal>>
    ensures looks { LooksAt (is_looked_for kind (Some id)) recorder.old recorder.new }
    ensures sees { Tells step.now.pointer.now V.cells recorder.old recorder.new (λ schema now. refuse_id now kind (Some id)) (λ now. IsNewId now kind (Some id)) result }
{
    if has_row(&Key { kind, id }, recorder, work)? {
        let refusal = refuse_part(step, Code::IdExists, "/data/id", "")?;
        Err(StepError::Because(refusal))
    } else {
        Ok((id, None))
    }
}

/// The id that the server gives, and the one after it.
fn server_id<V: View>(
    kind: u32,
    recorder: &mut Recorder<V>,
    work: &mut Work,
) -> Result<(Id, Option<u64>), StepError<Refusal>>
    ensures looks { LooksAt (is_looked_for kind None) recorder.old recorder.new }
    ensures sees { (at : List ℕ) → Tells at V.cells recorder.old recorder.new (λ schema now. refuse_id now kind None) (λ now. IsNewId now kind None) result }
{
    let number = next_number(kind, recorder, work)?;
    if number >= LAST_NEXT_ID {
        Err(StepError::Because(ids_ended()))
    } else {
        Ok((Id::of_number(number), Some(number + 1)))
    }
}

/// The refusal where a type has no ids left.
fn ids_ended() -> Refusal
    ensures { result ≡ refusal Code.IdsEnded }
{
    Refusal {
        code: Code::IdsEnded,
        blame: Blame::Nothing,
    }
}

/// Lets the local id of a new resource, if it has one, stand for its id.
fn bind(
    alloc: Global,
    lids: &mut LocalIds,
    kind: u32,
    lid: &Option<Text>,
    id: Id,
) -> Result<(), NoMemory>
    requires { IsFalse (is_bound lids.old kind lid.now) }
    ensures { OnOk result (lids.new ≡ bind lids.old kind lid.now id) }
{
    match lid {
        Some(lid) => bind_text(lids, kind, lid.copy(alloc)?, id),
        None => Ok(()),
    }
}

/// Lets a local id that stands for none stand for an id.
fn bind_text(lids: &mut LocalIds, kind: u32, lid: Text, id: Id) -> Result<(), NoMemory>
    requires { IsFalse (is_bound lids.old kind (Some lid)) }
    ensures { OnOk result (lids.new ≡ bind lids.old kind (Some lid) id) }
{
    match lids.bind(kind, lid, id) {
        Bind::Bound => Ok(()),
        Bind::Taken => unreachable!(),
        Bind::NoMemory => Err(NoMemory),
    }
}

/// The row of a new resource at this key.
fn new_row<V: View>(
    step: &Step<'_>,
    lids: &LocalIds,
    key: &Key,
    new: &NewResource<'_>,
    recorder: &mut Recorder<V>,
    work: &mut Work,
) -> Result<Row, StepError<Refusal>>
    ensures looks { LooksAt (is_row_in (linked_keys lids.now new.now.links.now)) recorder.old recorder.new }
    ensures sees { TellsAt step.now V.cells recorder.old recorder.new (refuse_new step.now.schema.now new.now key.now lids.now) (λ now. IsNewRow step.now.schema.now new.now key.now lids.now) result }
{
    let values = copy_values(step.alloc, new.values.as_slice())?;
    let empty = empty_links(step.alloc, step.schema, key.kind)?;
    let given = GivenLinks {
        kind: key.kind,
        to: MayLinkTo::AtRowOr(*key),
        links: new.links.as_slice(),
    };
    match read_links(step, lids, &given, empty, recorder, work) {
        Ok(links) => Ok(Row {
            key: *key,
            values,
            links,
        }),
        Err(stop) => Err(stop),
    }
}

/// No link at each relationship of a type.
fn empty_links(alloc: Global, schema: &Schema, kind: u32) -> Result<List<Link>, NoMemory>
    ensures { IfOk result (λ links. links ≡ empty_links (relationships_of schema.now kind)) }
{
    let mut links = Vec::new(alloc);
    for relationship in schema.relationships_of(kind) {
        links.push(empty_link(alloc, relationship.many))?;
    }
    Ok(List::from_vec(links))
}

/// No link of a relationship, to-many or to-one.
fn empty_link(alloc: Global, many: bool) -> Link
    ensures { result ≡ if many then Link.Many [] else Link.One None }
{
    if many {
        Link::Many(List::from_vec(Vec::new(alloc)))
    } else {
        Link::One(None)
    }
}

/// Writes a new row, and the next id of its type where that is given.
fn write_created<V: View>(
    schema: &Schema,
    next: Option<u64>,
    row: Row,
    recorder: &mut Recorder<V>,
) -> Result<(), NoMemory>
    ensures leaves { LeavesReads recorder.old recorder.new }
    ensures leads { OnOk result (LeadsOn schema.now (Replaces schema.now None row) (with_created row next) recorder.old.writes recorder.new.writes) }
{
    let kind = row.key.kind;
    put_row(schema, None, row, recorder)?;
    write_next(kind, next, recorder)
}

/// Writes the next id of a type, where it is given. It holds of worlds that are not valid too: the new row may be in one.
fn write_next<V: View>(
    kind: u32,
    next: Option<u64>,
    recorder: &mut Recorder<V>,
) -> Result<(), NoMemory>
    ensures leaves { LeavesReads recorder.old recorder.new }
    ensures leads { OnOk result (LeadsAnywhere (λ now. with_counter now kind next) recorder.old.writes recorder.new.writes) }
{
    match next {
        Some(number) => recorder.put(CellKey::Counter(kind), Cell::Counter(number)),
        None => Ok(()),
    }
}
