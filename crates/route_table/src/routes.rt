ghost use Rattle.std.specs.Prelude.{◌≡◌, ◌∷◌, IfOk, IfSome};
ghost use Rattle.ident_rules.specs.Id.{is_id};
ghost use Rattle.resource_schema.specs.Kinds.{relationship_of};
ghost use Rattle.request_model.specs.Words.{some_if};
ghost use Rattle.request_model.specs.Targets.{IsKnownTarget, key_at, kind_at, linkage_target, related_target, relationship_at, target_of_path, top_target};
ghost use Rattle.route_table.specs.Routes.{resource_target, target_below, word_target};

use crate::pieces::first_piece;
use ident_rules::{Id, Key, NoMemory, read_id};
use request_model::found_target_is_known;
use resource_schema::{Schema, Target};
use std::alloc::Global;
use uri_texts::read_segment;

/// The number of a relationship of a type.
fn relationship_of(schema: &Schema, kind: u32, name: &str) -> Option<u32>
    ensures { result ≡ relationship_of schema.now kind name.now }
{
    match schema.kinds().get(kind as usize) {
        Some(kind) => kind.relationship(name),
        None => None,
    }
}

/// The type that a segment names.
fn kind_at(alloc: Global, schema: &Schema, segment: &str) -> Result<Option<u32>, NoMemory>
    ensures { IfOk result (λ o. o ≡ kind_at schema.now segment.now) }
{
    let Some(name) = read_segment(alloc, segment)? else {
        return Ok(None);
    };
    Ok(schema.kind_of(name.as_str()))
}

/// The id that a text is.
fn id_of(text: &str) -> Option<Id>
    ensures { result ≡ some_if (is_id text.now) text.now }
{
    read_id(text).ok()
}

/// The resource that two segments name.
fn key_at(alloc: Global, schema: &Schema, kind: &str, id: &str) -> Result<Option<Key>, NoMemory>
    ensures { IfOk result (λ o. o ≡ key_at schema.now kind.now id.now) }
{
    let Some(kind) = kind_at(alloc, schema, kind)? else {
        return Ok(None);
    };
    let Some(text) = read_segment(alloc, id)? else {
        return Ok(None);
    };
    let Some(id) = id_of(text.as_str()) else {
        return Ok(None);
    };
    Ok(Some(Key { kind, id }))
}

/// The relationship of a resource that a segment names.
fn relationship_at(
    alloc: Global,
    schema: &Schema,
    key: &Key,
    segment: &str,
) -> Result<Option<u32>, NoMemory>
    ensures { IfOk result (λ o. o ≡ relationship_at schema.now key.now segment.now) }
{
    let Some(name) = read_segment(alloc, segment)? else {
        return Ok(None);
    };
    Ok(relationship_of(schema, key.kind, name.as_str()))
}

/// `/operations` as it stands, or a collection.
fn top_target(alloc: Global, schema: &Schema, segment: &str) -> Result<Option<Target>, NoMemory>
    ensures { IfOk result (λ o. o ≡ top_target schema.now segment.now) }
{
    if segment == "operations" {
        return Ok(Some(Target::Operations));
    }
    match kind_at(alloc, schema, segment)? {
        Some(kind) => Ok(Some(Target::Collection(kind))),
        None => Ok(None),
    }
}

/// A resource.
fn resource_target(
    alloc: Global,
    schema: &Schema,
    kind: &str,
    id: &str,
) -> Result<Option<Target>, NoMemory>
    ensures { IfOk result (λ o. o ≡ resource_target schema.now kind.now id.now) }
{
    match key_at(alloc, schema, kind, id)? {
        Some(key) => Ok(Some(Target::Resource(key))),
        None => Ok(None),
    }
}

/// What a relationship leads to.
fn related_target(
    alloc: Global,
    schema: &Schema,
    kind: &str,
    id: &str,
    rel: &str,
) -> Result<Option<Target>, NoMemory>
    ensures { IfOk result (λ o. o ≡ related_target schema.now kind.now id.now rel.now) }
{
    let Some(key) = key_at(alloc, schema, kind, id)? else {
        return Ok(None);
    };
    match relationship_at(alloc, schema, &key, rel)? {
        Some(rel) => Ok(Some(Target::Related(key, rel))),
        None => Ok(None),
    }
}

/// A relationship itself.
fn linkage_target(
    alloc: Global,
    schema: &Schema,
    kind: &str,
    id: &str,
    rel: &str,
) -> Result<Option<Target>, NoMemory>
    ensures { IfOk result (λ o. o ≡ linkage_target schema.now kind.now id.now rel.now) }
{
    let Some(key) = key_at(alloc, schema, kind, id)? else {
        return Ok(None);
    };
    match relationship_at(alloc, schema, &key, rel)? {
        Some(rel) => Ok(Some(Target::Linkage(key, rel))),
        None => Ok(None),
    }
}

/// A relationship itself, where the word `relationships` stands before it as it is.
fn word_target(
    alloc: Global,
    schema: &Schema,
    kind: &str,
    id: &str,
    word: &str,
    rest: &str,
) -> Result<Option<Target>, NoMemory>
    ensures { IfOk result (λ o. o ≡ word_target schema.now kind.now id.now word.now rest.now) }
{
    let (rel, rest) = first_piece(rest);
    if let Some(_more) = rest {
        return Ok(None);
    }
    if word == "relationships" {
        linkage_target(alloc, schema, kind, id, rel)
    } else {
        Ok(None)
    }
}

/// The target of what stands behind the first `/` of a path.
fn target_below(alloc: Global, schema: &Schema, path: &str) -> Result<Option<Target>, NoMemory>
    ensures { IfOk result (λ o. o ≡ target_below schema.now path.now) }
{
    let (kind, rest) = first_piece(path);
    let Some(rest) = rest else {
        return top_target(alloc, schema, kind);
    };
    let (id, rest) = first_piece(rest);
    let Some(rest) = rest else {
        return resource_target(alloc, schema, kind, id);
    };
    let (word, rest) = first_piece(rest);
    match rest {
        None => related_target(alloc, schema, kind, id, word),
        Some(rest) => word_target(alloc, schema, kind, id, word, rest),
    }
}

/// The target of a path.
fn target_of_path(alloc: Global, schema: &Schema, path: &str) -> Result<Option<Target>, NoMemory>
    ensures { IfOk result (λ o. o ≡ target_of_path schema.now path.now) }
{
    match path.strip_prefix('/') {
        Some(path) => target_below(alloc, schema, path),
        None => Ok(None),
    }
}

/// What a path names: `/TYPE`, `/TYPE/ID`, `/TYPE/ID/REL`, `/TYPE/ID/relationships/REL` or `/operations`, and None
/// exactly where it names nothing (JSON:API 1.1, "Fetching Data"; the form of paths is of this project). The path is cut
/// at each `/` before its segments are decoded (RFC 3986, section 2.4); `operations` and `relationships` are words as
/// they stand. Its one error is want of memory.
pub fn find_target(alloc: Global, schema: &Schema, path: &str) -> Result<Option<Target>, NoMemory>
    ensures target { IfOk result (λ o. o ≡ target_of_path schema.now path.now) }
    ensures known { IfOk result (λ o. IfSome o (λ t. IsKnownTarget schema.now t)) }
{
    found_target_is_known();
    target_of_path(alloc, schema, path)
}
