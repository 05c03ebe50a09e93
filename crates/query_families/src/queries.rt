ghost use Rattle.std.specs.Prelude.{◌≡◌, []};
ghost use Rattle.error_objects.specs.declared.refusals.Read.TheVariants.{Good};
ghost use Rattle.task_forms.specs.Queries.{no_query};
ghost use Rattle.error_objects.specs.Refusals.{IsRead};
ghost use Rattle.request_model.specs.Queries.{place_at, query_of};
ghost use Rattle.ident_rules.specs.StepErrors.{Gives};

use crate::pairs::with_pairs;
use crate::refusals::refuse_at;
use crate::sorts::sort_forms;
use crate::targets::primary_kind;
use cursor_codec::read_cursor;
use error_objects::{Code, Read, Refusal};
use ident_rules::{StepError, Text};
use resource_schema::{Form, Place, Schema, Target};
use std::alloc::Global;
use task_forms::{Page, Query};

/// The place of a cursor, where one is given.
fn place_at(
    alloc: Global,
    forms: &[(Form, bool)],
    name: &str,
    cursor: &Option<Text>,
) -> Result<Option<Place>, StepError<Refusal>>
    ensures { Gives result (place_at forms.now name.now cursor.now) }
{
    let Some(text) = cursor else {
        return Ok(None);
    };
    match read_cursor(alloc, text.as_str(), forms)? {
        Some(place) => Ok(Some(place)),
        None => Err(refuse_at(alloc, Code::BadCursor, name)),
    }
}

/// The pairs from left to right, and then the cursors.
fn query_of(
    alloc: Global,
    schema: &Schema,
    target: &Target,
    text: &str,
) -> Result<Query, StepError<Refusal>>
    ensures { Gives result (query_of schema.now target.now text.now) }
{
    let asked = with_pairs(alloc, schema, target, text)?;
    let kind = primary_kind(schema, target);
    let forms = sort_forms(alloc, schema, kind, asked.query.sort.as_slice())?;
    let after = place_at(alloc, forms.as_slice(), "page[after]", &asked.after)?;
    let before = place_at(alloc, forms.as_slice(), "page[before]", &asked.before)?;
    let page = Page {
        size: asked.query.page.size,
        after,
        before,
    };
    Ok(Query {
        page,
        ..asked.query
    })
}

/// Reads the query of a GET or HEAD (JSON:API 1.1, "Query Parameters"; Cursor Pagination profile, "Query Parameters").
///
/// The pairs are those of a web form, so `+` is a space and bytes that are not UTF-8 become U+FFFD. The refusal is the
/// first one from left to right, of a pair by this order: unknown at this target, repeated, a bad value; after all pairs
/// `page[after]` and then `page[before]` are judged, by the sort. It names the decoded parameter. `include` has at most
/// `PATH_LIMIT` paths of at most `PATH_LENGTH_LIMIT` names, `sort` at most `SORT_LIMIT` keys, none twice, and
/// `page[size]` 1 to 9 digits, from 1 to `PAGE_SIZE_LIMIT`. An empty query takes no memory.
pub fn read_query(alloc: Global, schema: &Schema, target: &Target, query: &str) -> Read<Query>
    ensures reads { IsRead result (query_of schema.now target.now query.now) }
    ensures empty { query.now ≡ [] → result ≡ Good no_query }
{
    if query.is_empty() {
        return Read::Good(Query::none(alloc));
    }
    match query_of(alloc, schema, target, query) {
        Ok(query) => Read::Good(query),
        Err(StepError::Because(refusal)) => Read::Refused(refusal),
        Err(StepError::NoMemory) => Read::NoMemory,
    }
}
