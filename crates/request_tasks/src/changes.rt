ghost use Rattle.std.specs.Prelude.{◌≡◌, [], IfOk, List as Listed, Result, Some, codes};
ghost use Rattle.std.specs.Option.{ok_or};
ghost use Rattle.serde_json.specs.Find.{get};
ghost use Rattle.serde_json.specs.View.{view};
ghost use Rattle.error_objects.specs.declared.refusals.Refusal.{Refusal};
ghost use Rattle.error_objects.specs.Refusals.{IsRead};
ghost use Rattle.resource_schema.specs.declared.targets.Target.TheVariants as target;
ghost use Rattle.task_forms.specs.declared.operations.Member.{Member};
ghost use Rattle.task_forms.specs.declared.operations.Operation.{Operation as StoreOperation};
ghost use Rattle.task_forms.specs.declared.operations.Operation.TheVariants.{Remove};
ghost use Rattle.task_forms.specs.declared.tasks.ReplyForm.TheVariants.{Empty};
ghost use Rattle.request_model.specs.Documents.{bad_document, create_of, update_of};
ghost use Rattle.request_model.specs.Plans.{body_value, by_path, change, change_of, change_without_query, data_pointer, links_operation, update_task};
ghost use Rattle.request_model.specs.Words.{result_map};
ghost use Rattle.resource_reader.specs.Reads.{IsReadVec};
ghost use Rattle.ident_rules.specs.StepErrors.{Gives};

use crate::parameters::check_query;
use crate::replies::{refuse, refuse_document};
use error_objects::{Code, Read, Refusal};
use http_messages::Message;
use ident_rules::{Key, List, NoMemory, StepError};
use json_forms::{member, parse};
use operation_reader::read_operations;
use resource_reader::{read_create, read_members, read_update};
use resource_schema::{Schema, Target};
use serde_json::Value;
use std::alloc::Global;
use task_forms::{Member, Named, Operation, ReplyForm, Task, Where, Who};

/// The value of a body, which is a JSON text (RFC 8259).
fn body_value(alloc: Global, body: &[u8]) -> Result<Value, StepError<Refusal>>
    ensures { Gives (result_map view result) (body_value body.now) }
{
    match parse(alloc, body)? {
        Some(value) => Ok(value),
        None => Err(refuse(Code::BadJson)),
    }
}

/// The member `data` at the top (JSON:API 1.1, "Top Level").
fn data_of(alloc: Global, document: &Value) -> Result<&Value, StepError<Refusal>>
    ensures { Gives (result_map (λ v. view v.now) result) (ok_or (get (codes "data") (view document.now)) (bad_document [])) }
{
    match member(document, "data") {
        Some(value) => Ok(value),
        None => Err(refuse_document(alloc)),
    }
}

/// The task of one operation.
fn change(alloc: Global, form: ReplyForm, operation: Operation) -> Result<Task, NoMemory>
    ensures { IfOk result (λ t. t ≡ change form operation) }
{
    let Ok(operations) = vec![in alloc; operation] else {
        return Err(NoMemory);
    };
    Ok(Task::Change {
        operations: List::from_vec(operations),
        form,
    })
}

/// The resource that the path of the request names.
fn by_path(key: &Key) -> Who
    ensures { result ≡ by_path key.now }
{
    Who {
        named: Named::Id(*key),
        place: Where::Plain,
    }
}

/// What a method does with the members of a relationship (JSON:API 1.1, "Updating Relationships").
fn links_operation(method: &str, who: Who, rel: u32, members: List<Member>) -> Operation
    ensures { result ≡ links_operation method.now who rel members }
{
    match method {
        "POST" => Operation::AddLinks { who, rel, members },
        "DELETE" => Operation::DropLinks { who, rel, members },
        _ => Operation::SetLinks { who, rel, members },
    }
}

/// What a reader of documents answers, as a result.
fn taken<T: Drop>(read: Read<T>) -> Result<T, StepError<Refusal>>
    ensures { (d : Result T Refusal) → IsRead read d → Gives result d }
{
    match read {
        Read::Good(value) => Ok(value),
        Read::Refused(refusal) => Err(StepError::Because(refusal)),
        Read::NoMemory => Err(StepError::NoMemory),
    }
}

/// The members that a reader of documents answers.
fn members_of(read: Read<Vec<Member>>) -> Result<List<Member>, StepError<Refusal>>
    ensures { (d : Result (Listed Member) Refusal) → IsReadVec read d → Gives result d }
{
    match read {
        Read::Good(members) => Ok(List::from_vec(members)),
        Read::Refused(refusal) => Err(StepError::Because(refusal)),
        Read::NoMemory => Err(StepError::NoMemory),
    }
}

/// The operation of a new resource in a collection.
fn created(
    alloc: Global,
    schema: &Schema,
    kind: u32,
    value: &Value,
) -> Result<Operation, StepError<Refusal>>
    ensures { Gives result (create_of schema.now (Some kind) data_pointer (view value.now)) }
{
    taken(read_create(alloc, schema, value, "/data", Some(kind)))
}

/// The task of POST on a collection (JSON:API 1.1, "Creating Resources").
fn create_task(
    alloc: Global,
    schema: &Schema,
    message: &Message,
    kind: u32,
) -> Result<Task, StepError<Refusal>>
    ensures { Gives result (change_of schema.now message.now.method message.now.body (target.Collection kind)) }
{
    let document = body_value(alloc, message.body.as_slice())?;
    let value = data_of(alloc, &document)?;
    let operation = created(alloc, schema, kind, value)?;
    Ok(change(alloc, ReplyForm::Created, operation)?)
}

/// The operation of a changed resource.
fn updated(
    alloc: Global,
    schema: &Schema,
    key: &Key,
    value: &Value,
) -> Result<Operation, StepError<Refusal>>
    ensures { Gives result (update_of schema.now (Some (by_path key.now)) data_pointer (view value.now)) }
{
    taken(read_update(alloc, schema, value, "/data", Some(by_path(key))))
}

/// The task of PATCH on a resource (JSON:API 1.1, "Updating Resources").
fn update_task(
    alloc: Global,
    schema: &Schema,
    key: &Key,
    body: &[u8],
) -> Result<Task, StepError<Refusal>>
    ensures { Gives result (update_task schema.now key.now body.now) }
{
    let document = body_value(alloc, body)?;
    let value = data_of(alloc, &document)?;
    let operation = updated(alloc, schema, key, value)?;
    Ok(change(alloc, ReplyForm::Updated, operation)?)
}

/// The task of DELETE on a resource (JSON:API 1.1, "Deleting Resources").
fn remove_task(alloc: Global, key: &Key) -> Result<Task, NoMemory>
    ensures { IfOk result (λ t. t ≡ change Empty (Remove (by_path key.now))) }
{
    change(
        alloc,
        ReplyForm::Empty,
        Operation::Remove { who: by_path(key) },
    )
}

/// The task of a method on a resource.
fn resource_task(
    alloc: Global,
    schema: &Schema,
    message: &Message,
    key: &Key,
) -> Result<Task, StepError<Refusal>>
    ensures { Gives result (change_of schema.now message.now.method message.now.body (target.Resource key.now)) }
{
    if message.method.as_str() == "DELETE" {
        Ok(remove_task(alloc, key)?)
    } else {
        update_task(alloc, schema, key, message.body.as_slice())
    }
}

/// The task of a method on a relationship (JSON:API 1.1, "Updating Relationships").
fn links_task(
    alloc: Global,
    schema: &Schema,
    message: &Message,
    key: &Key,
    rel: u32,
) -> Result<Task, StepError<Refusal>>
    ensures { Gives result (change_of schema.now message.now.method message.now.body (target.Linkage key.now rel)) }
{
    let document = body_value(alloc, message.body.as_slice())?;
    let value = data_of(alloc, &document)?;
    let members = members_of(read_members(alloc, schema, value, "/data", key.kind, rel))?;
    let operation = links_operation(message.method.as_str(), by_path(key), rel, members);
    Ok(change(alloc, ReplyForm::Empty, operation)?)
}

/// The operations that a reader of documents answers.
fn operations_of(read: Read<Vec<Operation>>) -> Result<List<Operation>, StepError<Refusal>>
    ensures { (d : Result (Listed StoreOperation) Refusal) → IsReadVec read d → Gives result d }
{
    match read {
        Read::Good(operations) => Ok(List::from_vec(operations)),
        Read::Refused(refusal) => Err(StepError::Because(refusal)),
        Read::NoMemory => Err(StepError::NoMemory),
    }
}

/// The task of a list of operations (Atomic Operations extension, "Processing").
fn list_task(alloc: Global, schema: &Schema, message: &Message) -> Result<Task, StepError<Refusal>>
    ensures { Gives result (change_of schema.now message.now.method message.now.body target.Operations) }
{
    let document = body_value(alloc, message.body.as_slice())?;
    let operations = operations_of(read_operations(alloc, schema, &document))?;
    Ok(Task::Change {
        operations,
        form: ReplyForm::Results,
    })
}

/// The task of a method that is neither GET nor HEAD.
fn change_of(
    alloc: Global,
    schema: &Schema,
    message: &Message,
    target: &Target,
) -> Result<Task, StepError<Refusal>>
    ensures { Gives result (change_of schema.now message.now.method message.now.body target.now) }
{
    match target {
        Target::Collection(kind) => create_task(alloc, schema, message, *kind),
        Target::Resource(key) => resource_task(alloc, schema, message, key),
        Target::Related(_, _) => Err(refuse(Code::MethodNotAllowed)),
        Target::Linkage(key, rel) => links_task(alloc, schema, message, key, *rel),
        Target::Operations => list_task(alloc, schema, message),
    }
}

/// The task of a method that is neither GET nor HEAD, which knows no query parameter.
pub fn change_without_query(
    alloc: Global,
    schema: &Schema,
    message: &Message,
    target: &Target,
    query: &str,
) -> Result<Task, StepError<Refusal>>
    ensures { Gives result (change_without_query schema.now message.now.method message.now.body target.now query.now) }
{
    check_query(alloc, query)?;
    change_of(alloc, schema, message, target)
}
