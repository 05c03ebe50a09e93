ghost use Rattle.std.specs.Prelude.{◌≡◌, ◌<◌, ◌^◌, length, map, option_map};
ghost use Rattle.std.specs.List.{enumerate_from};
ghost use Rattle.serde_json.specs.View.{view};
ghost use Rattle.request_model.specs.Words.{all_ok};
ghost use Rattle.request_model.specs.Documents.{one_linkage, many_linkage, indexed, linkage_from};
ghost use Rattle.ident_rules.specs.StepErrors.{Gives};
ghost use Rattle.resource_reader.specs.Arrays.{items_linkage};
ghost use Rattle.resource_reader.specs.Spots.{spot_pointer};

use crate::identifiers::read_identifier;
use crate::spots::{Spot, bad_spot};
use error_objects::Refusal;
use ident_rules::{List, StepError};
use resource_schema::Schema;
use serde_json::Value;
use std::alloc::Global;
use task_forms::Member;

/// A to-one linkage: null, or an identifier.
fn read_to_one(
    alloc: Global,
    schema: &Schema,
    kind: u32,
    spot: Spot<'_>,
    value: &Value,
) -> Result<List<Member>, StepError<Refusal>>
    ensures { Gives result (one_linkage schema.now kind (spot_pointer spot.entry) (view value.now)) }
{
    let mut members = Vec::new(alloc);
    match value {
        Value::Null => Ok(List::from_vec(members)),
        _ => {
            let named = read_identifier(alloc, schema, kind, spot, None, value)?;
            members.push(Member { named, index: None })?;
            Ok(List::from_vec(members))
        }
    }
}

/// An identifier of an array, at its place.
fn read_indexed(
    alloc: Global,
    schema: &Schema,
    kind: u32,
    spot: Spot<'_>,
    place: u32,
    value: &Value,
) -> Result<Member, StepError<Refusal>>
    ensures { Gives result (indexed schema.now kind (spot_pointer spot.entry) (place, view value.now)) }
{
    let index = Some(place);
    let named = read_identifier(alloc, schema, kind, spot, index, value)?;
    Ok(Member { named, index })
}

/// The identifiers of an array, each in order.
fn read_items(
    alloc: Global,
    schema: &Schema,
    kind: u32,
    spot: Spot<'_>,
    values: &[Value],
) -> Result<List<Member>, StepError<Refusal>>
    requires few { length values.now < 2 ^ 32 }
    ensures { Gives result (all_ok (map (indexed schema.now kind (spot_pointer spot.entry)) (enumerate_from 0 (map view values.now)))) }
{
    let mut members = Vec::new(alloc);
    for (place, value) in values.iter().enumerate() {
        match read_indexed(alloc, schema, kind, spot, place as u32, value) {
            Ok(member) => members.push(member)?,
            Err(stop) => return Err(stop),
        }
    }
    Ok(List::from_vec(members))
}

/// The identifiers of an array of fewer than 2^32 items.
fn read_array(
    alloc: Global,
    schema: &Schema,
    kind: u32,
    spot: Spot<'_>,
    values: &[Value],
) -> Result<List<Member>, StepError<Refusal>>
    ensures { Gives result (items_linkage schema.now kind (spot_pointer spot.entry) (map view values.now)) }
{
    if values.len() > 4_294_967_295 {
        return Err(bad_spot(alloc, spot, None));
    }
    read_items(alloc, schema, kind, spot, values)
}

/// A to-many linkage: an array of identifiers.
fn read_to_many(
    alloc: Global,
    schema: &Schema,
    kind: u32,
    spot: Spot<'_>,
    value: &Value,
) -> Result<List<Member>, StepError<Refusal>>
    ensures { Gives result (many_linkage schema.now kind (spot_pointer spot.entry) (view value.now)) }
{
    match value.as_array() {
        Some(values) => read_array(alloc, schema, kind, spot, values),
        None => Err(bad_spot(alloc, spot, None)),
    }
}

/// The linkage of a relationship, by its type and number (JSON:API 1.1, "Resource Linkage").
pub fn read_linkage(
    alloc: Global,
    schema: &Schema,
    kind: u32,
    rel: u32,
    spot: Spot<'_>,
    value: &Value,
) -> Result<List<Member>, StepError<Refusal>>
    ensures { Gives result (linkage_from schema.now kind rel (spot_pointer spot.entry) (view value.now)) }
{
    let target = schema.target_of(kind, rel);
    if schema.is_many(kind, rel) {
        read_to_many(alloc, schema, target, spot, value)
    } else {
        read_to_one(alloc, schema, target, spot, value)
    }
}
