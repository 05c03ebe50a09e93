ghost use Rattle.std.specs.Prelude.{◌≡◌, ◌++◌, IfOk, OnOk, [], map, nat_eq, option_map, slice_get};
ghost use Rattle.std.specs.List.{cons_option, list_any};
ghost use Rattle.request_model.specs.Queries.{are_distinct, sort_forms, sort_key_of, sort_keys_of};
ghost use Rattle.request_model.specs.Words.{all_some};
ghost use Rattle.query_families.specs.PartsLeft.{parts_left};
ghost use Rattle.query_families.specs.Keys.{key_named};

use crate::parts::{Parts, Separator, are_at_most};
use ident_rules::{List, NoMemory};
use resource_schema::{Attribute, Form, Schema};
use std::alloc::Global;
use task_forms::{SORT_LIMIT, SortKey};

/// The key of an attribute, by its name.
fn key_named(schema: &Schema, kind: u32, name: &str, descending: bool) -> Option<SortKey>
    ensures { result ≡ key_named schema.now kind name.now descending }
{
    match schema.attribute_of(kind, name) {
        Some(attribute) => Some(SortKey {
            attribute,
            descending,
        }),
        None => None,
    }
}

/// An attribute, and before it `-` for descending order.
fn sort_key_of(schema: &Schema, kind: u32, text: &str) -> Option<SortKey>
    ensures { result ≡ sort_key_of schema.now kind text.now }
{
    match text.strip_prefix('-') {
        Some(name) => key_named(schema, kind, name, true),
        None => key_named(schema, kind, text, false),
    }
}

/// A key of each text.
fn keys_from(
    alloc: Global,
    schema: &Schema,
    kind: u32,
    texts: Parts<'_>,
) -> Result<Option<List<SortKey>>, NoMemory>
    ensures { IfOk result (λ o. o ≡ all_some (map (sort_key_of schema.now kind) (parts_left texts.entry))) }
{
    let mut keys = Vec::new(alloc);
    for text in texts {
        match sort_key_of(schema, kind, text) {
            Some(key) => keys.push(key)?,
            None => return Ok(None),
        }
    }
    Ok(Some(List::from_vec(keys)))
}

/// Whether a key of this attribute is among the keys.
fn is_key_among(attribute: u32, keys: &[SortKey]) -> bool
    ensures { result ≡ list_any (nat_eq attribute) (map (λ k. k.attribute) keys.now) }
{
    for key in keys {
        if attribute == key.attribute {
            return true;
        }
    }
    false
}

/// Whether no attribute stands twice.
fn are_distinct(keys: &[SortKey]) -> bool
    ensures { result ≡ are_distinct (map (λ k. k.attribute) keys.now) }
{
    let mut left = keys;
    while let [key, behind @ ..] = left {
        if is_key_among(key.attribute, behind) {
            return false;
        }
        left = behind;
    }
    true
}

/// At most `SORT_LIMIT` attributes, none twice (JSON:API 1.1, "Sorting").
pub fn sort_keys_of(
    alloc: Global,
    schema: &Schema,
    kind: u32,
    value: &str,
) -> Result<Option<List<SortKey>>, NoMemory>
    ensures { IfOk result (λ o. o ≡ sort_keys_of schema.now kind value.now) }
{
    let texts = Parts::new(Separator::Comma, value);
    if !are_at_most(SORT_LIMIT, texts) {
        return Ok(None);
    }
    match keys_from(alloc, schema, kind, texts)? {
        Some(keys) if are_distinct(keys.as_slice()) => Ok(Some(keys)),
        _ => Ok(None),
    }
}

/// The form of a key's attribute, and whether it may be null.
fn form_at(attributes: &[Attribute], key: SortKey) -> Option<(Form, bool)>
    ensures { result ≡ option_map (λ a. (a.form, a.nullable)) (slice_get attributes.now key.attribute) }
{
    match attributes.get(key.attribute as usize) {
        Some(attribute) => Some((attribute.form, attribute.nullable)),
        None => None,
    }
}

/// The forms, and one more if it is there.
fn push_form(forms: &mut Vec<(Form, bool)>, form: Option<(Form, bool)>) -> Result<(), NoMemory>
    ensures { OnOk result (forms.new.items ≡ forms.old.items ++ cons_option form []) }
{
    match form {
        Some(form) => Ok(forms.push(form)?),
        None => Ok(()),
    }
}

/// The form of each key's attribute, and whether it may be null.
pub fn sort_forms(
    alloc: Global,
    schema: &Schema,
    kind: u32,
    keys: &[SortKey],
) -> Result<List<(Form, bool)>, NoMemory>
    ensures { IfOk result (λ l. l ≡ sort_forms schema.now kind keys.now) }
{
    let attributes = schema.attributes_of(kind);
    let mut forms = Vec::new(alloc);
    for key in keys {
        push_form(&mut forms, form_at(attributes, *key))?;
    }
    Ok(List::from_vec(forms))
}
