//! A blog in memory, what is done to it, and what is told.
ghost use Rattle.std.specs.Prelude.{◌≡◌, Ok};
ghost use Rattle.ident_rules.specs.Name.{read_name};

use error_objects::{Blame, Read, Refusal};
use ident_rules::{Id, Key, List, Name, NoMemory, read_name};
use local_ids::LocalIds;
use outer_ends::Work;
use resource_schema::{Attribute, Form, Kind, Relationship, Schema};
use row_change::{Step, change};
use std::alloc::{AllocError, Global};
use task_forms::Operation;
use view_reads::{CellMap, Recorder};
use world_cells::WriteSet;

// The numbers of the types, and those of the relationships of articles.
pub const ARTICLES: u32 = 0;

pub const PEOPLE: u32 = 1;

pub const REPLIES: u32 = 1;

fn name(text: &str) -> Name
    requires { read_name text.now ≡ Ok text.now }
    ensures { result ≡ text.now }
{
    let Ok(name) = read_name(text) else {
        unreachable!()
    };
    name
}

fn relationship(name: Name, many: bool, target: u32) -> Relationship
    ensures { result ≡ record { name = name; many = many; target = target } }
{
    Relationship { name, many, target }
}

/// Articles with a title, an author and replies, which are articles; and people, whose ids clients give.
pub fn blog(alloc: Global) -> Result<Schema, NoMemory> {
    let mut attributes = Vec::new(alloc);
    attributes.push(Attribute {
        name: name("title"),
        form: Form::Text,
        nullable: false,
        default: None,
    })?;
    let mut relationships = Vec::new(alloc);
    relationships.push(relationship(name("author"), false, 1))?;
    relationships.push(relationship(name("replies"), true, 0))?;
    let mut kinds = Vec::new(alloc);
    kinds.push(Kind {
        name: name("articles"),
        client_ids: false,
        attributes: List::from_vec(attributes),
        relationships: List::from_vec(relationships),
    })?;
    kinds.push(Kind {
        name: name("people"),
        client_ids: true,
        attributes: List::from_vec(Vec::new(alloc)),
        relationships: List::from_vec(Vec::new(alloc)),
    })?;
    Ok(Schema::from_kinds(List::from_vec(kinds)))
}

/// The key of that number.
pub fn key(kind: u32, number: u64) -> Key {
    let id = Id::of_number(number);
    Key { kind, id }
}

fn refusal_words(alloc: Global, refusal: &Refusal) -> Result<String, AllocError> {
    let code = refusal.code.word();
    match &refusal.blame {
        Blame::Pointer(pointer) => format!(in alloc; "{code} {}", pointer.as_str()),
        _ => String::from_str(alloc, code),
    }
}

fn tried(
    alloc: Global,
    schema: &Schema,
    lids: &mut LocalIds,
    operation: &Operation,
    cells: &CellMap,
) -> (Read<Option<Key>>, WriteSet) {
    let mut work = Work::new();
    let mut recorder = Recorder::new(alloc, cells);
    let step = Step {
        alloc,
        schema,
        pointer: "/at",
    };
    let told = change(&step, lids, operation, &mut recorder, &mut work);
    (told, recorder.finish().1)
}

/// Does an operation, and tells what is answered; its writes stand where it is done.
pub fn answer(
    alloc: Global,
    schema: &Schema,
    lids: &mut LocalIds,
    operation: &Operation,
    cells: &mut CellMap,
) -> Result<String, NoMemory> {
    let (told, writes) = tried(alloc, schema, lids, operation, &*cells);
    let key = match told {
        Read::NoMemory => return Err(NoMemory),
        Read::Refused(refusal) => return Ok(refusal_words(alloc, &refusal)?),
        Read::Good(key) => key,
    };
    cells.apply(writes)?;
    match key {
        Some(key) => Ok(format!(in alloc; "done {}", key.id.as_str())?),
        None => Ok(String::from_str(alloc, "done")?),
    }
}
