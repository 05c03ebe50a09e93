ghost use Rattle.std.specs.Prelude.{◌≡◌, codes};
ghost use Rattle.serde_json.specs.View.{view};
ghost use Rattle.request_model.specs.OperationLists.{aim_of_target, by_href, href_aim};
ghost use Rattle.ident_rules.specs.StepErrors.{Gives};
ghost use Rattle.operation_reader.specs.Parts.{part_pointer};

use crate::refusals::refuse_part;
use error_objects::{Code, Refusal};
use ident_rules::{Key, StepError};
use json_forms::text_of;
use request_model::Aim;
use resource_schema::{Schema, Target};
use route_table::find_target;
use serde_json::Value;
use std::alloc::Global;
use task_forms::{Named, Where, Who};

/// A resource that a path names.
fn by_href(key: Key) -> Who
    ensures { result ≡ by_href key }
{
    Who {
        named: Named::Id(key),
        place: Where::Href,
    }
}

/// What a path is aimed at, by its target.
fn aim_of_target(target: Target) -> Aim
    ensures { result ≡ aim_of_target target }
{
    match target {
        Target::Collection(kind) => Aim::Collection(kind),
        Target::Resource(key) => Aim::Resource(by_href(key)),
        Target::Linkage(key, rel) => Aim::Relationship(by_href(key), rel),
        Target::Related(_, _) | Target::Operations => Aim::Elsewhere,
    }
}

/// What `href` names: a path without a query (Atomic Operations extension, "href").
pub fn href_aim(
    alloc: Global,
    schema: &Schema,
    place: u32,
    value: &Value,
) -> Result<Aim, StepError<Refusal>>
    ensures { Gives result (href_aim schema.now (part_pointer place (codes "href")) (view value.now)) }
{
    let Some(path) = text_of(value) else {
        return Err(refuse_part(alloc, Code::BadDocument, place, "href"));
    };
    match find_target(alloc, schema, path)? {
        Some(target) => Ok(aim_of_target(target)),
        None => Err(refuse_part(alloc, Code::NotFound, place, "href")),
    }
}
