ghost use Rattle.std.specs.Prelude.{◌≡◌, ◌<◌, IfOk, IfSome, IsTrue, codes, length};
ghost use Rattle.resource_schema.specs.SchemaRules.{is_schema};
ghost use Rattle.resource_schema.specs.Kinds.{notes, number_of_kind};

use crate::{Attribute, Form, Kind};
use ident_rules::{List, Name, NoMemory, read_name};
use std::alloc::Global;
use std::marker::Model;

/// A schema: its types in byte order of their names. Contracts see the list of the types. It always keeps the rules
/// of schemas.
#[derive(Drop)]
pub struct Schema {
    kinds: List<Kind>,
}

impl Model for Schema {
    ghost use Rattle.std.specs.Prelude.{List as Listed, IsTrue};
    ghost use Rattle.resource_schema.specs.declared.kinds.Kind.{Kind};
    ghost use Rattle.resource_schema.specs.SchemaRules.{is_schema};

    ghost Value = { Listed Kind };

    ghost view = { λ s. s.kinds };

    ghost invariant = { λ s. IsTrue (is_schema s.kinds) };

    ghost inverse = { λ kinds. record { kinds = kinds } };
}

impl Schema {
    /// The schema of these types. Takes no memory.
    pub fn from_kinds(kinds: List<Kind>) -> Schema
        requires rules { IsTrue (is_schema kinds) }
        ensures { result ≡ kinds }
    {
        Schema { kinds }
    }

    /// The built-in schema: the one type `notes` with the text attribute `text`. Its one error is want of memory.
    pub fn notes(alloc: Global) -> Result<Schema, NoMemory>
        ensures { IfOk result (λ s. s ≡ notes) }
    {
        let attribute = Attribute {
            name: text_name(),
            form: Form::Text,
            nullable: false,
            default: None,
        };
        let mut attributes = Vec::new(alloc);
        attributes.push(attribute)?;
        let kind = Kind {
            name: notes_name(),
            client_ids: false,
            attributes: List::from_vec(attributes),
            relationships: List::from_vec(Vec::new(alloc)),
        };
        let mut kinds = Vec::new(alloc);
        kinds.push(kind)?;
        Ok(Schema::from_kinds(List::from_vec(kinds)))
    }

    /// The types, by their numbers from 0, and the rules that they keep.
    pub fn kinds(&self) -> &[Kind]
        ensures kinds { result.now ≡ self.now }
        ensures rules { IsTrue (is_schema self.now) }
    {
        self.kinds.as_slice()
    }

    /// An equal schema. Its one error is want of memory.
    pub fn copy(&self, alloc: Global) -> Result<Schema, NoMemory>
        ensures { IfOk result (λ s. s ≡ self.now) }
    {
        let kinds = copy_kinds(alloc, self.kinds())?;
        Ok(Schema::from_kinds(kinds))
    }

    /// The number of the type of this name, from 0; None exactly where there is none. Takes no memory.
    pub fn kind_of(&self, name: &str) -> Option<u32>
        ensures { result ≡ number_of_kind self.now name.now }
    {
        match place_of_kind(self.kinds(), name) {
            Some(place) => Some(place as u32),
            None => None,
        }
    }
}

fn place_of_kind(kinds: &[Kind], name: &str) -> Option<usize>
    ensures number { result ≡ number_of_kind kinds.now name.now }
    ensures within { IfSome result (λ place. place < length kinds.now) }
{
    kinds.iter().position(|kind| kind.name.as_str() == name)
}

fn notes_name() -> Name
    ensures { result ≡ codes "notes" }
{
    let Ok(name) = read_name("notes") else {
        unreachable!()
    };
    name
}

fn text_name() -> Name
    ensures { result ≡ codes "text" }
{
    let Ok(name) = read_name("text") else {
        unreachable!()
    };
    name
}

fn copy_kinds(alloc: Global, kinds: &[Kind]) -> Result<List<Kind>, NoMemory>
    ensures { IfOk result (λ l. l ≡ kinds.now) }
{
    let mut copies = Vec::with_capacity(alloc, kinds.len())?;
    for kind in kinds {
        copies.push(kind.copy(alloc)?)?;
    }
    Ok(List::from_vec(copies))
}
