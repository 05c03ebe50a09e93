ghost use Rattle.std.specs.Prelude.{◌≡◌, IfOk, IfSome};
ghost use Rattle.request_model.specs.Words.{result_map, some_if};
ghost use Rattle.request_model.specs.SchemaFile.{name_fault};
ghost use Rattle.resource_schema.specs.SchemaRules.{is_one_of, reserved_fields, reserved_kinds};
ghost use Rattle.ident_rules.specs.Name.{is_name};
ghost use Rattle.schema_file.specs.Finds.{Finds};

use crate::SchemaEnd;
use crate::faults::fault;
use ident_rules::{Name, read_name};
use resource_schema::Why;
use std::alloc::Global;

/// Whether the name is one that no field has.
fn is_reserved_field(name: &str) -> bool
    ensures { result ≡ is_one_of reserved_fields name.now }
{
    name == "type" || name == "id" || name == "lid" || name == "relationships"
}

/// Whether the name is one that no type has.
fn is_reserved_kind(name: &str) -> bool
    ensures { result ≡ is_one_of reserved_kinds name.now }
{
    name == "operations"
}

/// The name that the text is, where it keeps the rule of names.
fn name_of(text: &str) -> Option<Name>
    ensures value { result ≡ some_if (is_name text.now) text.now }
    ensures same { IfSome result (λ n. n ≡ text.now) }
{
    read_name(text).ok()
}

/// The name of a field, which is not reserved.
pub fn field_name(alloc: Global, place: &str, text: &str) -> Result<Name, SchemaEnd>
    ensures value { Finds (result_map (λ _. tt) result) (name_fault reserved_fields place.now text.now) }
    ensures name { IfOk result (λ n. n ≡ text.now) }
{
    let Some(name) = name_of(text) else {
        return Err(fault(alloc, place, Why::BadName));
    };
    if is_reserved_field(text) {
        return Err(fault(alloc, place, Why::Reserved));
    }
    Ok(name)
}

/// The name of a type, which is not reserved.
pub fn kind_name(alloc: Global, place: &str, text: &str) -> Result<Name, SchemaEnd>
    ensures value { Finds (result_map (λ _. tt) result) (name_fault reserved_kinds place.now text.now) }
    ensures name { IfOk result (λ n. n ≡ text.now) }
{
    let Some(name) = name_of(text) else {
        return Err(fault(alloc, place, Why::BadName));
    };
    if is_reserved_kind(text) {
        return Err(fault(alloc, place, Why::Reserved));
    }
    Ok(name)
}
