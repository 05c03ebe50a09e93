ghost use Rattle.std.specs.Prelude.{◌≡◌, map};
ghost use Rattle.serde_json.specs.View.{view};
ghost use Rattle.request_model.specs.Words.{all_ok};
ghost use Rattle.request_model.specs.Documents.{given_link, given_links};
ghost use Rattle.document_parts.specs.Walks.{members_in};
ghost use Rattle.ident_rules.specs.StepErrors.{Gives};
ghost use Rattle.resource_reader.specs.Fields.{fields_among, relationships_pointer};

use crate::linkages::read_linkage;
use crate::parts::object_in;
use crate::refusals::refuse_below;
use crate::spots::Spot;
use crate::values::is_field_name;
use error_objects::{Code, Refusal};
use ident_rules::{List, StepError};
use json_forms::member;
use resource_schema::Schema;
use serde_json::{Map, Value};
use std::alloc::Global;
use task_forms::Member;

/// One relationship of the resource object that the pointer leads to: known, and with its linkage.
fn read_given_link(
    alloc: Global,
    schema: &Schema,
    kind: u32,
    at: &str,
    name: &str,
    value: &Value,
) -> Result<(u32, List<Member>), StepError<Refusal>>
    ensures { Gives result (given_link schema.now kind (relationships_pointer at.now) (name.now, view value.now)) }
{
    let Some(rel) = schema.relationship_of(kind, name) else {
        return Err(refuse_below(alloc, Code::UnknownField, at, "relationships", name));
    };
    let Some(link) = member(value, "data") else {
        return Err(refuse_below(alloc, Code::BadDocument, at, "relationships", name));
    };
    let members = read_linkage(alloc, schema, kind, rel, Spot::Link(at, name), link)?;
    Ok((rel, members))
}

/// The relationships that the members of `relationships` give, each in order.
fn read_relationships(
    alloc: Global,
    schema: &Schema,
    kind: u32,
    at: &str,
    members: &Map<String, Value>,
) -> Result<List<(u32, List<Member>)>, StepError<Refusal>>
    ensures { Gives result (all_ok (map (given_link schema.now kind (relationships_pointer at.now)) (fields_among (members_in members.now)))) }
{
    let mut links = Vec::new(alloc);
    for (name, value) in members {
        let name = name.as_str();
        if is_field_name(name) {
            match read_given_link(alloc, schema, kind, at, name, value) {
                Ok(link) => links.push(link)?,
                Err(stop) => return Err(stop),
            }
        }
    }
    Ok(List::from_vec(links))
}

/// The relationships that are given, by number (JSON:API 1.1, "Relationships").
pub fn read_given_links(
    alloc: Global,
    schema: &Schema,
    kind: u32,
    at: &str,
    value: &Value,
) -> Result<List<(u32, List<Member>)>, StepError<Refusal>>
    ensures { Gives result (given_links schema.now kind at.now (view value.now)) }
{
    match member(value, "relationships") {
        None => Ok(List::from_vec(Vec::new(alloc))),
        Some(given) => {
            let members = object_in(alloc, at, "relationships", given)?;
            read_relationships(alloc, schema, kind, at, members)
        }
    }
}
