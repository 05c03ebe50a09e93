ghost use Rattle.std.specs.Prelude.{◌≡◌, ◌++◌, ◌∷◌, [], IfOk, ℕ};
ghost use Rattle.resource_schema.specs.declared.schema.Schema.{Schema as SchemaValue};
ghost use Rattle.request_model.specs.declared.forms.Parameter.TheVariants as parameter;
ghost use Rattle.request_model.specs.Queries.{with_parameter};
ghost use Rattle.ident_rules.specs.StepErrors.{Gives};

use crate::fieldsets::field_set_named;
use crate::includes::paths_of;
use crate::refusals::refuse_at;
use crate::sizes::page_size_of;
use crate::sorts::sort_keys_of;
use error_objects::{Code, Refusal};
use ident_rules::{List, Name, NoMemory, StepError, Text};
use request_model::{Asked, Parameter};
use resource_schema::Schema;
use std::alloc::Global;
use task_forms::{Page, Query};

/// What is asked with the paths of `include`.
fn with_include(
    alloc: Global,
    schema: &Schema,
    kind: u32,
    asked: Asked,
    name: &str,
    value: &str,
) -> Result<Asked, StepError<Refusal>>
    ensures { Gives result (with_parameter schema.now kind asked name.now value.now parameter.Include) }
{
    let Some(paths) = paths_of(alloc, schema, kind, value)? else {
        return Err(refuse_at(alloc, Code::BadInclude, name));
    };
    let Asked {
        query,
        after,
        before,
    } = asked;
    let query = Query {
        include: Some(paths),
        ..query
    };
    Ok(Asked {
        query,
        after,
        before,
    })
}

/// A query with the fields of one more type.
fn with_field_set(query: Query, set: (u32, List<Name>)) -> Result<Query, NoMemory>
    ensures { IfOk result (λ q. q ≡ record query { fields = query.fields ++ set ∷ [] }) }
{
    let Query {
        pairs,
        include,
        fields,
        sort,
        page,
    } = query;
    let mut fields = fields.into_vec();
    fields.push(set)?;
    Ok(Query {
        pairs,
        include,
        fields: List::from_vec(fields),
        sort,
        page,
    })
}

/// What is asked with the fields of `fields[TYPE]`.
fn with_fields(
    alloc: Global,
    schema: &Schema,
    asked: Asked,
    name: &str,
    value: &str,
) -> Result<Asked, StepError<Refusal>>
    ensures { (kind : ℕ) → Gives result (with_parameter schema.now kind asked name.now value.now parameter.Fields) }
{
    let Some(set) = field_set_named(alloc, schema, name, value)? else {
        return Err(refuse_at(alloc, Code::BadFields, name));
    };
    let Asked {
        query,
        after,
        before,
    } = asked;
    let query = with_field_set(query, set)?;
    Ok(Asked {
        query,
        after,
        before,
    })
}

/// What is asked with the keys of `sort`.
fn with_sort(
    alloc: Global,
    schema: &Schema,
    kind: u32,
    asked: Asked,
    name: &str,
    value: &str,
) -> Result<Asked, StepError<Refusal>>
    ensures { Gives result (with_parameter schema.now kind asked name.now value.now parameter.Sort) }
{
    let Some(sort) = sort_keys_of(alloc, schema, kind, value)? else {
        return Err(refuse_at(alloc, Code::BadSort, name));
    };
    let Asked {
        query,
        after,
        before,
    } = asked;
    let query = Query { sort, ..query };
    Ok(Asked {
        query,
        after,
        before,
    })
}

/// What is asked with the size of `page[size]`.
fn with_size(
    alloc: Global,
    asked: Asked,
    name: &str,
    value: &str,
) -> Result<Asked, StepError<Refusal>>
    ensures { (schema : SchemaValue) (kind : ℕ) → Gives result (with_parameter schema kind asked name.now value.now parameter.PageSize) }
{
    let Some(size) = page_size_of(value) else {
        return Err(refuse_at(alloc, Code::BadPageSize, name));
    };
    let page = Page {
        size,
        after: None,
        before: None,
    };
    let Asked {
        query,
        after,
        before,
    } = asked;
    let query = Query { page, ..query };
    Ok(Asked {
        query,
        after,
        before,
    })
}

/// What is asked with one more parameter. The texts of cursors are kept as they are.
pub fn with_parameter(
    alloc: Global,
    schema: &Schema,
    kind: u32,
    asked: Asked,
    name: &str,
    value: &str,
    parameter: Parameter,
) -> Result<Asked, StepError<Refusal>>
    ensures { Gives result (with_parameter schema.now kind asked name.now value.now parameter) }
{
    match parameter {
        Parameter::Include => with_include(alloc, schema, kind, asked, name, value),
        Parameter::Fields => with_fields(alloc, schema, asked, name, value),
        Parameter::Sort => with_sort(alloc, schema, kind, asked, name, value),
        Parameter::PageSize => with_size(alloc, asked, name, value),
        Parameter::PageAfter => Ok(Asked {
            after: Some(Text::from_str(alloc, value)?),
            ..asked
        }),
        Parameter::PageBefore => Ok(Asked {
            before: Some(Text::from_str(alloc, value)?),
            ..asked
        }),
    }
}
