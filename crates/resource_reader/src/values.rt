ghost use Rattle.std.specs.Prelude.{◌≡◌, ◌≢◌, ◌≤◌, ◌<◌, ℕ, IfOk, IfNone, IfSome, None, length, map, option_copied, option_map, slice_get};
ghost use Rattle.std.specs.List.{enumerate_from};
ghost use Rattle.std.specs.Ordering.{nat_cmp};
ghost use Rattle.std.specs.FinMap.Entries.{find};
ghost use Rattle.serde_json.specs.View.{view};
ghost use Rattle.resource_schema.specs.declared.kinds.TheConstants.{ATTRIBUTE_LIMIT};
ghost use Rattle.request_model.specs.Words.{all_ok, all_some};
ghost use Rattle.request_model.specs.Documents.{given_value, given_values, value_or_default, all_values};
ghost use Rattle.document_parts.specs.Walks.{members_in};
ghost use Rattle.document_parts.specs.Pointers.{member_pointer};
ghost use Rattle.error_objects.specs.Refusals.{at_pointer};
ghost use Rattle.ident_rules.specs.StepErrors.{Gives, IsStop};
ghost use Rattle.resource_reader.specs.Given.{IsNumberAt};
ghost use Rattle.resource_reader.specs.Fields.{is_no_at_member, fields_among, attributes_pointer};

use crate::parts::object_in;
use crate::refusals::refuse_below;
use document_parts::read_value;
use error_objects::{Code, Refusal};
use ident_rules::{List, NoMemory, StepError};
use json_forms::member;
use resource_schema::{AttrValue, Attribute, Schema};
use serde_json::{Map, Value};
use std::alloc::Global;
use std::mem::replace;

/// Whether a member is a field: its name does not begin with `@` (JSON:API 1.1, "@-Members").
pub fn is_field_name(name: &str) -> bool
    ensures { result ≡ is_no_at_member name.now }
{
    !name.starts_with('@')
}

/// A refusal of the attribute of that name of the resource object that the pointer leads to.
fn refuse_attribute(alloc: Global, code: Code, at: &str, name: &str) -> StepError<Refusal>
    ensures { IsStop result (at_pointer code (member_pointer (attributes_pointer at.now) name.now)) }
{
    refuse_below(alloc, code, at, "attributes", name)
}

/// The attribute at a place.
fn nth_attribute(attributes: &[Attribute], place: u32) -> Option<&Attribute>
    ensures { option_copied result ≡ slice_get attributes.now place }
{
    attributes.get(place as usize)
}

/// One attribute of the resource object that the pointer leads to: known, and with a value of its form.
fn read_given_value(
    alloc: Global,
    schema: &Schema,
    kind: u32,
    at: &str,
    name: &str,
    value: &Value,
) -> Result<(u32, AttrValue), StepError<Refusal>>
    ensures { Gives result (given_value schema.now kind (attributes_pointer at.now) (name.now, view value.now)) }
{
    let Some(number) = schema.attribute_of(kind, name) else {
        return Err(refuse_attribute(alloc, Code::UnknownField, at, name));
    };
    let Some(attribute) = nth_attribute(schema.attributes_of(kind), number) else {
        return Err(refuse_attribute(alloc, Code::UnknownField, at, name));
    };
    match read_value(alloc, attribute.form, attribute.nullable, value)? {
        Some(given) => Ok((number, given)),
        None => Err(refuse_attribute(alloc, Code::BadValue, at, name)),
    }
}

/// The attributes that the members of `attributes` give, each in order.
fn read_attributes(
    alloc: Global,
    schema: &Schema,
    kind: u32,
    at: &str,
    members: &Map<String, Value>,
) -> Result<List<(u32, AttrValue)>, StepError<Refusal>>
    ensures { Gives result (all_ok (map (given_value schema.now kind (attributes_pointer at.now)) (fields_among (members_in members.now)))) }
{
    let mut values = Vec::new(alloc);
    for (name, value) in members {
        let name = name.as_str();
        if is_field_name(name) {
            match read_given_value(alloc, schema, kind, at, name, value) {
                Ok(given) => values.push(given)?,
                Err(stop) => return Err(stop),
            }
        }
    }
    Ok(List::from_vec(values))
}

/// The attributes that are given, by number (JSON:API 1.1, "Attributes").
pub fn read_given_values(
    alloc: Global,
    schema: &Schema,
    kind: u32,
    at: &str,
    value: &Value,
) -> Result<List<(u32, AttrValue)>, StepError<Refusal>>
    ensures { Gives result (given_values schema.now kind at.now (view value.now)) }
{
    match member(value, "attributes") {
        None => Ok(List::from_vec(Vec::new(alloc))),
        Some(given) => {
            let members = object_in(alloc, at, "attributes", given)?;
            read_attributes(alloc, schema, kind, at, members)
        }
    }
}

/// The place of the first value that was given for an attribute.
fn place_given(given: &[(u32, AttrValue)], number: u32) -> Option<usize>
    ensures missing { IfNone result (find nat_cmp number given.now ≡ None) }
    ensures inside { IfSome result (λ i. i < length given.now) }
    ensures own { IfSome result (λ i. IsNumberAt number given.now i) }
    ensures first { IfSome result (λ i. option_map (λ e. e.1) (slice_get given.now i) ≡ find nat_cmp number given.now) }
{
    for (index, (place, _)) in given.iter().enumerate() {
        if number == *place {
            return Some(index);
        }
    }
    None
}

/// Takes the first value that was given for an attribute; null stays in its place.
#[tactic(auto, using(crate::proofs::Taken::find_other))]
fn take_given(given: &mut [(u32, AttrValue)], number: u32) -> Option<AttrValue>
    ensures value { result ≡ find nat_cmp number given.old }
    ensures others { (n : ℕ) → n ≢ number → find nat_cmp n given.new ≡ find nat_cmp n given.old }
{
    let index = place_given(given, number)?;
    let (_, value) = replace(&mut given[index], (number, AttrValue::Null));
    Some(value)
}

/// The value that is given, or else the default, or else null.
fn value_or_default(
    alloc: Global,
    given: &mut [(u32, AttrValue)],
    number: u32,
    attribute: &Attribute,
) -> Result<Option<AttrValue>, NoMemory>
    ensures value { IfOk result (λ o. o ≡ value_or_default given.old (number, attribute.now)) }
    ensures others { (n : ℕ) → n ≢ number → find nat_cmp n given.new ≡ find nat_cmp n given.old }
{
    if let Some(value) = take_given(given, number) {
        return Ok(Some(value));
    }
    match &attribute.default {
        Some(default) => Ok(Some(default.copy(alloc)?)),
        None if attribute.nullable => Ok(Some(AttrValue::Null)),
        None => Ok(None),
    }
}

/// A value for each attribute, where each has one.
fn values_of(
    alloc: Global,
    attributes: &[Attribute],
    given: &mut [(u32, AttrValue)],
) -> Result<Option<List<AttrValue>>, NoMemory>
    requires few { length attributes.now ≤ ATTRIBUTE_LIMIT }
    ensures { IfOk result (λ o. o ≡ all_some (map (value_or_default given.old) (enumerate_from 0 attributes.now))) }
{
    let mut values = Vec::with_capacity(alloc, attributes.len())?;
    for (place, attribute) in attributes.iter().enumerate() {
        match value_or_default(alloc, given, place as u32, attribute)? {
            Some(value) => values.push(value)?,
            None => return Ok(None),
        }
    }
    Ok(Some(List::from_vec(values)))
}

/// A value for each attribute of a type, where each has one.
pub fn all_values(
    alloc: Global,
    schema: &Schema,
    kind: u32,
    given: List<(u32, AttrValue)>,
) -> Result<Option<List<AttrValue>>, NoMemory>
    ensures { IfOk result (λ o. o ≡ all_values schema.now kind given) }
{
    let mut given = given.into_vec();
    values_of(alloc, schema.attributes_of(kind), given.as_mut_slice())
}
