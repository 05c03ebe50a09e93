ghost use Rattle.std.specs.Prelude.{◌≡◌, ◌==◌, IfSome, option_map, length, nat_lt};
ghost use Rattle.serde_json.specs.Find.{get};
ghost use Rattle.serde_json.specs.View.{view, members_view};
ghost use Rattle.document_parts.specs.Pointers.{member_pointer};
ghost use Rattle.json_forms.specs.Json.{members_list};
ghost use Rattle.json_forms.specs.Order.{AreAscending};
ghost use Rattle.request_model.specs.Words.{result_map};
ghost use Rattle.request_model.specs.SchemaFile.{fault as fault_at, file_object, file_fields, flag_at, default_at, NamesRise};
ghost use Rattle.schema_file.specs.Finds.{Finds, IsFault};
ghost use Rattle.document_parts.specs.Walks.{members_in};
ghost use Rattle.schema_file.specs.Walks.{fields_in};

use crate::SchemaEnd;
use crate::faults::fault;
use document_parts::{member_pointer, read_value};
use ident_rules::NoMemory;
use json_forms::member;
use resource_schema::{AttrValue, Form, Why};
use serde_json::{Map, Value};
use std::alloc::Global;

/// The members of an object, which is there.
pub fn object_at<'v>(
    alloc: Global,
    place: &str,
    value: Option<&'v Value>,
) -> Result<&'v Map<String, Value>, SchemaEnd>
    ensures { Finds (result_map (λ m. members_in m.now) result) (file_object place.now (option_map (λ v. view v.now) value.entry)) }
{
    match value {
        Some(Value::Object(members)) => Ok(members),
        _ => Err(fault(alloc, place, Why::NotObject)),
    }
}

/// Whether an object has more members than so many.
pub fn exceeds(members: &Map<String, Value>, limit: usize) -> bool
    ensures { result ≡ nat_lt limit (length (members_in members.now)) }
{
    members.len() > limit
}

/// Whether an object has no member.
pub fn is_empty(members: &Map<String, Value>) -> bool
    ensures { result ≡ (length (members_in members.now) == 0) }
{
    members.len() == 0
}

/// The members of an object of fields, at most so many, where it is there.
pub fn fields_at<'v>(
    alloc: Global,
    place: &str,
    limit: usize,
    value: Option<&'v Value>,
) -> Result<Option<&'v Map<String, Value>>, SchemaEnd>
    ensures { Finds (result_map (λ o. fields_in (option_map (λ m. m.now) o)) result) (file_fields place.now limit (option_map (λ v. view v.now) value.entry)) }
{
    if value.is_none() {
        return Ok(None);
    }
    let members = object_at(alloc, place, value)?;
    if exceeds(members, limit) {
        return Err(fault(alloc, place, Why::Limit));
    }
    Ok(Some(members))
}

/// The names of an object rise.
fn ascend(members: &Map<String, Value>)
    ensures { AreAscending (members_view members.now.entries) }
{
    let _count = members.len();
}

/// Where the value is an object, its names rise.
pub fn names_rise(value: Option<&Value>)
    ensures { IfSome (option_map (λ v. view v.now) value.entry) NamesRise }
{
    if let Some(Value::Object(members)) = value {
        ascend(members);
    }
}

/// A flag, which is false where it is absent.
pub fn flag_at(alloc: Global, place: &str, value: Option<&Value>) -> Result<bool, SchemaEnd>
    ensures { Finds result (flag_at place.now (option_map (λ v. view v.now) value.entry)) }
{
    match value {
        None => Ok(false),
        Some(Value::Bool(flag)) => Ok(*flag),
        Some(_) => Err(fault(alloc, place, Why::BadFlag)),
    }
}

/// The default of an attribute, where there is one.
pub fn default_at(
    alloc: Global,
    place: &str,
    form: Form,
    nullable: bool,
    value: Option<&Value>,
) -> Result<Option<AttrValue>, SchemaEnd>
    ensures { Finds result (default_at place.now form nullable (option_map (λ v. view v.now) value.entry)) }
{
    let Some(value) = value else {
        return Ok(None);
    };
    match read_value(alloc, form, nullable, value)? {
        Some(default) => Ok(Some(default)),
        None => Err(fault(alloc, place, Why::BadDefault)),
    }
}

/// The fault at the member of that name.
pub fn fault_in(alloc: Global, at: &str, name: &str, why: Why) -> SchemaEnd
    ensures { IsFault result (fault_at (member_pointer at.now name.now) why) }
{
    match member_pointer(alloc, at, name) {
        Ok(place) => fault(alloc, place.as_str(), why),
        Err(NoMemory) => SchemaEnd::NoMemory,
    }
}

/// The flag that is the member of that name.
pub fn flag_in(alloc: Global, at: &str, name: &str, value: &Value) -> Result<bool, SchemaEnd>
    ensures { Finds result (flag_at (member_pointer at.now name.now) (get name.now (view value.now))) }
{
    let place = member_pointer(alloc, at, name)?;
    flag_at(alloc, place.as_str(), member(value, name))
}

/// The default that is the member of that name.
pub fn default_in(
    alloc: Global,
    at: &str,
    name: &str,
    form: Form,
    nullable: bool,
    value: &Value,
) -> Result<Option<AttrValue>, SchemaEnd>
    ensures { Finds result (default_at (member_pointer at.now name.now) form nullable (get name.now (view value.now))) }
{
    let place = member_pointer(alloc, at, name)?;
    default_at(alloc, place.as_str(), form, nullable, member(value, name))
}
