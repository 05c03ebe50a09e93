ghost use Rattle.std.specs.Prelude.{◌≡◌, ◌≤◌, [], codes, length, map};
ghost use Rattle.std.specs.List.{enumerate_from};
ghost use Rattle.serde_json.specs.View.{view};
ghost use Rattle.task_forms.specs.declared.tasks.TheConstants.{OPERATION_LIMIT};
ghost use Rattle.request_model.specs.Words.{all_ok, result_map};
ghost use Rattle.request_model.specs.Documents.{object_at};
ghost use Rattle.request_model.specs.OperationLists.{absent, operations_of};
ghost use Rattle.ident_rules.specs.StepErrors.{Gives};
ghost use Rattle.resource_reader.specs.Reads.{IsReadVec};
ghost use Rattle.operation_reader.specs.Parts.{array_operations, items_operations, listed_operations, operation_at, without_data, without_included, without_results};

use crate::operations::operation_of;
use crate::places::LIST_POINTER;
use crate::refusals::{bad_document, refuse_at, refuse_in};
use error_objects::{Code, Read, Refusal};
use ident_rules::{List, StepError};
use json_forms::member;
use resource_schema::Schema;
use serde_json::Value;
use std::alloc::Global;
use task_forms::{OPERATION_LIMIT, Operation};

/// No member of this name stands at the top.
fn check_absent(alloc: Global, name: &str, value: &Value) -> Result<(), StepError<Refusal>>
    ensures { Gives result (absent name.now (view value.now)) }
{
    match member(value, name) {
        None => Ok(()),
        Some(_) => Err(refuse_in(alloc, Code::BadDocument, "", name)),
    }
}

/// The operation at a place of the array.
fn operation_at(
    alloc: Global,
    schema: &Schema,
    place: u32,
    value: &Value,
) -> Result<Operation, StepError<Refusal>>
    ensures { Gives result (operation_at schema.now (place, view value.now)) }
{
    operation_of(alloc, schema, place, value)
}

/// The operations of an array, each in order.
fn read_items(
    alloc: Global,
    schema: &Schema,
    values: &[Value],
) -> Result<List<Operation>, StepError<Refusal>>
    requires few { length values.now ≤ OPERATION_LIMIT }
    ensures { Gives result (all_ok (map (operation_at schema.now) (enumerate_from 0 (map view values.now)))) }
{
    let mut operations = Vec::new(alloc);
    for (place, value) in values.iter().enumerate() {
        match operation_at(alloc, schema, place as u32, value) {
            Ok(operation) => operations.push(operation)?,
            Err(stop) => return Err(stop),
        }
    }
    Ok(List::from_vec(operations))
}

/// At least one operation and at most `OPERATION_LIMIT`, each in order.
fn read_array(
    alloc: Global,
    schema: &Schema,
    values: &[Value],
) -> Result<List<Operation>, StepError<Refusal>>
    ensures { Gives result (items_operations schema.now (map view values.now)) }
{
    if values.is_empty() {
        return Err(bad_document(alloc, LIST_POINTER));
    }
    if values.len() > OPERATION_LIMIT {
        return Err(refuse_at(alloc, Code::TooManyOperations, LIST_POINTER));
    }
    read_items(alloc, schema, values)
}

/// The operations of the value of the member `atomic:operations`.
fn array_operations(
    alloc: Global,
    schema: &Schema,
    value: &Value,
) -> Result<List<Operation>, StepError<Refusal>>
    ensures { Gives result (array_operations schema.now (view value.now)) }
{
    match value.as_array() {
        Some(values) => read_array(alloc, schema, values),
        None => Err(bad_document(alloc, LIST_POINTER)),
    }
}

/// The operations of the member `atomic:operations`.
fn listed_operations(
    alloc: Global,
    schema: &Schema,
    document: &Value,
) -> Result<List<Operation>, StepError<Refusal>>
    ensures { Gives result (listed_operations schema.now (view document.now)) }
{
    match member(document, "atomic:operations") {
        Some(value) => array_operations(alloc, schema, value),
        None => Err(bad_document(alloc, "")),
    }
}

/// The operations of a document, where `included` is not at its top.
fn without_included(
    alloc: Global,
    schema: &Schema,
    document: &Value,
) -> Result<List<Operation>, StepError<Refusal>>
    ensures { Gives result (without_included schema.now (view document.now)) }
{
    match check_absent(alloc, "included", document) {
        Ok(()) => listed_operations(alloc, schema, document),
        Err(stop) => Err(stop),
    }
}

/// The operations of a document, where neither `data` nor `included` is at its top.
fn without_data(
    alloc: Global,
    schema: &Schema,
    document: &Value,
) -> Result<List<Operation>, StepError<Refusal>>
    ensures { Gives result (without_data schema.now (view document.now)) }
{
    match check_absent(alloc, "data", document) {
        Ok(()) => without_included(alloc, schema, document),
        Err(stop) => Err(stop),
    }
}

/// The operations of a document, where none of `atomic:results`, `data` and `included` is at its top.
fn without_results(
    alloc: Global,
    schema: &Schema,
    document: &Value,
) -> Result<List<Operation>, StepError<Refusal>>
    ensures { Gives result (without_results schema.now (view document.now)) }
{
    match check_absent(alloc, "atomic:results", document) {
        Ok(()) => without_data(alloc, schema, document),
        Err(stop) => Err(stop),
    }
}

/// The root is an object, whatever is in it.
fn check_root(alloc: Global, document: &Value) -> Result<(), StepError<Refusal>>
    ensures { Gives result (result_map (λ _. tt) (object_at [] (view document.now))) }
{
    match document {
        Value::Object(_) => Ok(()),
        _ => Err(bad_document(alloc, "")),
    }
}

/// The operations of a document.
fn operations_of(
    alloc: Global,
    schema: &Schema,
    document: &Value,
) -> Result<List<Operation>, StepError<Refusal>>
    ensures { Gives result (operations_of schema.now (view document.now)) }
{
    match check_root(alloc, document) {
        Ok(()) => without_results(alloc, schema, document),
        Err(stop) => Err(stop),
    }
}

/// Reads the operations of a document (Atomic Operations extension, "Document Structure").
///
/// The refusal is the first one in this order: the root, the members `atomic:results`, `data` and `included`, which may not be
/// there, the array `atomic:operations` and the number of its operations, 1 to `OPERATION_LIMIT`; then operation by operation
/// its word `op`, `ref` or `href`, the pair of both, and `data`. So every operation is judged before the first one is run.
pub fn read_operations(alloc: Global, schema: &Schema, document: &Value) -> Read<Vec<Operation>>
    ensures { IsReadVec result (operations_of schema.now (view document.now)) }
{
    match operations_of(alloc, schema, document) {
        Ok(operations) => Read::Good(operations.into_vec()),
        Err(StepError::Because(refusal)) => Read::Refused(refusal),
        Err(StepError::NoMemory) => Read::NoMemory,
    }
}
