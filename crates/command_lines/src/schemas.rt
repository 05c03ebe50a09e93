ghost use Rattle.std.specs.Prelude.{◌≡◌, codes, Result, Err};
ghost use Rattle.resource_schema.specs.declared.schema.Schema.{Schema};
ghost use Rattle.resource_schema.specs.declared.faults.SchemaFault.{SchemaFault};
ghost use Rattle.resource_schema.specs.declared.faults.Why.TheVariants as why;
ghost use Rattle.request_model.specs.SchemaFile.{schema_of_text, fault as fault_at};
ghost use Rattle.schema_file.specs.Finds.{Finds};
ghost use Rattle.command_lines.specs.SchemaFiles.{IsParsed, IsContent, IsFound, IsOpened, HasMiss, HasFault};

use crate::files::{FileBytes, read_whole};
use ident_rules::{NoMemory, Text};
use json_forms::parse;
use outer_ends::{OpenEnd, Opener, Source};
use resource_schema::{Schema, Why};
use schema_file::{SchemaEnd, read_schema};
use std::alloc::Global;

/// The most bytes of a schema file.
pub const SCHEMA_FILE_LIMIT: usize = 1_048_576;

/// What a schema file gave.
#[derive(Drop)]
pub enum SchemaRead {
    /// The schema.
    Good(Schema),
    /// There is no such file.
    Missing,
    /// It has more than 1,048,576 bytes.
    TooLarge,
    /// Its first fault.
    Fault {
        /// The pointer of the offending value (RFC 6901), or `/` for the file as a whole.
        place: Text,
        /// What is wrong there.
        why: Why,
    },
    /// The opener or the file failed.
    Failed,
    /// Want of memory.
    NoMemory,
}

/// What the bytes of a schema file come to.
fn schema_in(alloc: Global, bytes: &[u8]) -> SchemaRead
    ensures { IsParsed (schema_of_text bytes.now) result }
{
    match parse(alloc, bytes) {
        Err(NoMemory) => SchemaRead::NoMemory,
        Ok(None) => no_json(alloc),
        Ok(Some(value)) => schema_or_fault(read_schema(alloc, &value)),
    }
}

/// The fault of a file that is no JSON text.
fn no_json(alloc: Global) -> SchemaRead
    ensures { IsParsed (Err (fault_at (codes "/") why.NoJson)) result }
{
    match Text::from_str(alloc, "/") {
        Ok(place) => SchemaRead::Fault {
            place,
            why: Why::NoJson,
        },
        Err(NoMemory) => SchemaRead::NoMemory,
    }
}

/// What a schema file gave whose value was read.
fn schema_or_fault(read: Result<Schema, SchemaEnd>) -> SchemaRead
    ensures { (d : Result Schema SchemaFault) → Finds read d → IsParsed d result }
{
    match read {
        Ok(schema) => SchemaRead::Good(schema),
        Err(SchemaEnd::Fault { place, why }) => SchemaRead::Fault { place, why },
        Err(SchemaEnd::NoMemory) => SchemaRead::NoMemory,
    }
}

/// What a schema file came to that is open.
fn read_opened<S: Source>(alloc: Global, source: &mut S) -> SchemaRead
    ensures faults { HasFault (S.told source.old).faults (S.told source.new).faults result }
    ensures content { IsContent (S.told source.old).left result }
{
    match read_whole(alloc, SCHEMA_FILE_LIMIT, source) {
        FileBytes::Whole(bytes) => schema_in(alloc, &bytes),
        FileBytes::TooLarge => SchemaRead::TooLarge,
        FileBytes::Failed => SchemaRead::Failed,
        FileBytes::NoMemory => SchemaRead::NoMemory,
    }
}

/// The schema of the file of that name (of this project; a JSON text by RFC 8259). The file is opened, read up to its end or to
/// past 1,048,576 bytes, and given back.
///
/// `Missing` is answered only where the opener's count of misses rose, and `Failed` only where its count of faults did.
pub fn read_schema_file<O: Opener>(alloc: Global, path: &str, opener: &mut O) -> SchemaRead
    ensures misses { HasMiss (O.told opener.old) (O.told opener.new) result }
    ensures faults { HasFault (O.told opener.old).faults (O.told opener.new).faults result }
    ensures files { (O.told opener.new).files ≡ (O.told opener.old).files }
    ensures found { IsFound (O.told opener.old).files path.now result }
    ensures opened { IsOpened O.Src.told result }
{
    match opener.open(path) {
        Err(OpenEnd::Missing) => SchemaRead::Missing,
        Err(OpenEnd::Failed) => SchemaRead::Failed,
        Ok(opened) => {
            let mut source = opened;
            let read = read_opened(alloc, &mut source);
            opener.done(source);
            read
        }
    }
}
