ghost use Rattle.std.specs.Prelude.{◌≡◌, ◌++◌, ◌∷◌, [], IfOk};
ghost use Rattle.request_model.specs.Queries.{has_name, pairs_of, with_pair, with_pairs, with_query};
ghost use Rattle.ident_rules.specs.StepErrors.{Gives};
ghost use Rattle.query_families.specs.Pairs.{nothing_asked};

use crate::names::known_parameter;
use crate::parameters::with_parameter;
use crate::refusals::refuse;
use crate::targets::primary_kind;
use error_objects::{Code, Refusal};
use form_urlencoded::parse;
use ident_rules::{List, NoMemory, StepError, Text};
use request_model::Asked;
use resource_schema::{Schema, Target};
use std::alloc::Global;
use task_forms::Query;

/// Whether a pair has this name.
fn has_name(name: &str, pairs: &[(Text, Text)]) -> bool
    ensures { result ≡ has_name name.now pairs.now }
{
    pairs.iter().any(|pair| pair.0.as_str() == name)
}

/// What is asked, with one more pair kept.
fn keep_pair(asked: Asked, name: Text, value: Text) -> Result<Asked, NoMemory>
    ensures { IfOk result (λ a. a ≡ with_query asked (record asked.query { pairs = asked.query.pairs ++ (name, value) ∷ [] })) }
{
    let Asked {
        query,
        after,
        before,
    } = asked;
    let Query {
        pairs,
        include,
        fields,
        sort,
        page,
    } = query;
    let mut pairs = pairs.into_vec();
    pairs.push((name, value))?;
    let query = Query {
        pairs: List::from_vec(pairs),
        include,
        fields,
        sort,
        page,
    };
    Ok(Asked {
        query,
        after,
        before,
    })
}

/// One pair: unknown at this target, then repeated, then the value (JSON:API 1.1, "Query Parameters").
fn with_pair(
    alloc: Global,
    schema: &Schema,
    target: &Target,
    asked: Asked,
    name: Text,
    value: Text,
) -> Result<Asked, StepError<Refusal>>
    ensures { Gives result (with_pair schema.now target.now asked (name, value)) }
{
    let Some(known) = known_parameter(schema, target, name.as_str()) else {
        return Err(refuse(Code::UnknownParameter, name));
    };
    if has_name(name.as_str(), asked.query.pairs.as_slice()) {
        return Err(refuse(Code::RepeatedParameter, name));
    }
    let kind = primary_kind(schema, target);
    let more = with_parameter(
        alloc,
        schema,
        kind,
        asked,
        name.as_str(),
        value.as_str(),
        known,
    )?;
    Ok(keep_pair(more, name, value)?)
}

/// The pairs of a query from left to right, each decoded once (the URL Standard, "application/x-www-form-urlencoded
/// parsing"), or the first refusal. No memory is taken where there is no pair.
pub fn with_pairs(
    alloc: Global,
    schema: &Schema,
    target: &Target,
    query: &str,
) -> Result<Asked, StepError<Refusal>>
    ensures { Gives result (with_pairs schema.now target.now nothing_asked (pairs_of query.now)) }
{
    let mut asked = Asked {
        query: Query::none(alloc),
        after: None,
        before: None,
    };
    for pair in parse(alloc, query.as_bytes()).into_owned() {
        let Ok((name, value)) = pair else {
            return Err(StepError::NoMemory);
        };
        let (name, value) = (Text::from_string(name), Text::from_string(value));
        asked = with_pair(alloc, schema, target, asked, name, value)?;
    }
    Ok(asked)
}
