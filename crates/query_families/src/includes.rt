ghost use Rattle.std.specs.Prelude.{◌≡◌, IfOk, map};
ghost use Rattle.request_model.specs.Queries.{include_path, paths_of, rels_from};
ghost use Rattle.request_model.specs.Words.{all_some};
ghost use Rattle.query_families.specs.PartsLeft.{parts_left};

use crate::parts::{Parts, Separator, are_at_most};
use ident_rules::{List, NoMemory};
use resource_schema::Schema;
use std::alloc::Global;
use task_forms::{PATH_LENGTH_LIMIT, PATH_LIMIT, Path};

/// Relationships, each of the type that the one before leads to.
fn rels_from(
    alloc: Global,
    schema: &Schema,
    kind: u32,
    names: Parts<'_>,
) -> Result<Option<List<u32>>, NoMemory>
    ensures { IfOk result (λ o. o ≡ rels_from schema.now kind (parts_left names.entry)) }
{
    let mut rels = Vec::new(alloc);
    let mut at = kind;
    for name in names {
        let Some(rel) = schema.relationship_of(at, name) else {
            return Ok(None);
        };
        rels.push(rel)?;
        at = schema.target_of(at, rel);
    }
    Ok(Some(List::from_vec(rels)))
}

/// A path of at most `PATH_LENGTH_LIMIT` names.
fn include_path(
    alloc: Global,
    schema: &Schema,
    kind: u32,
    text: &str,
) -> Result<Option<Path>, NoMemory>
    ensures { IfOk result (λ o. o ≡ include_path schema.now kind text.now) }
{
    let names = Parts::new(Separator::Dot, text);
    if !are_at_most(PATH_LENGTH_LIMIT, names) {
        return Ok(None);
    }
    match rels_from(alloc, schema, kind, names)? {
        Some(rels) => Ok(Some(Path { rels })),
        None => Ok(None),
    }
}

/// A path of each text.
fn paths_from(
    alloc: Global,
    schema: &Schema,
    kind: u32,
    texts: Parts<'_>,
) -> Result<Option<List<Path>>, NoMemory>
    ensures { IfOk result (λ o. o ≡ all_some (map (include_path schema.now kind) (parts_left texts.entry))) }
{
    let mut paths = Vec::new(alloc);
    for text in texts {
        match include_path(alloc, schema, kind, text)? {
            Some(path) => paths.push(path)?,
            None => return Ok(None),
        }
    }
    Ok(Some(List::from_vec(paths)))
}

/// At most `PATH_LIMIT` paths (JSON:API 1.1, "Inclusion of Related Resources").
pub fn paths_of(
    alloc: Global,
    schema: &Schema,
    kind: u32,
    value: &str,
) -> Result<Option<List<Path>>, NoMemory>
    ensures { IfOk result (λ o. o ≡ paths_of schema.now kind value.now) }
{
    let texts = Parts::listed(value);
    if are_at_most(PATH_LIMIT, texts) {
        paths_from(alloc, schema, kind, texts)
    } else {
        Ok(None)
    }
}
