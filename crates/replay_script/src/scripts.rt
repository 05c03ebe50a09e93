//! Scripts.
ghost use Rattle.std.specs.Prelude.{◌≡◌, ◌<◌, ◌≤◌, ℕ, List as Listed, Ok, codes, length, slice_index};
ghost use Rattle.serde_json.specs.View.{view};
ghost use Rattle.ident_rules.specs.StepErrors.{Gives};
ghost use Rattle.request_model.specs.SchemaFile.{schema_of};
ghost use Rattle.replay_runs.specs.declared.reports.TheConstants.{STREAM_LIMIT};
ghost use Rattle.replay_script.specs.declared.scripts.Script.{Script as ReadScript};
ghost use Rattle.replay_script.specs.Scripts.{ReadsScript, at_place, schema_in, parts_in, script_in, script_of_text};

use crate::arrays::{steps_in, streams_in};
use crate::places::fault;
use ident_rules::{Bytes, List, StepError, Text};
use json_forms::{member, parse};
use replay_runs::STREAM_LIMIT;
use resource_schema::Schema;
use schema_file::{SchemaEnd, read_schema};
use serde_json::Value;
use std::alloc::Global;

/// The most bytes of a script.
pub const SCRIPT_LIMIT: usize = 16_777_216;

/// The most steps of a script.
pub const STEP_LIMIT: usize = 100_000;

/// A list of steps over streams.
#[derive(Drop)]
pub struct Script {
    /// The schema of the store.
    pub schema: Schema,
    /// What each connection sends.
    pub streams: List<Bytes>,
    /// The number of the stream of each step, from 0.
    pub steps: List<u32>,
}

/// Why there is no script.
#[derive(Drop)]
pub enum ScriptEnd {
    /// The place of the first fault: `size`, `json`, `object`, `schema`, `streams`, `streams/K`, `steps` or `steps/K`.
    Fault(Text),
    /// Want of memory.
    NoMemory,
}

/// The schema of a value.
fn schema_at(alloc: Global, value: &Value) -> Result<Schema, StepError<Text>>
    ensures { Gives result (at_place (codes "schema") (schema_of (view value.now))) }
{
    match read_schema(alloc, value) {
        Ok(schema) => Ok(schema),
        Err(SchemaEnd::Fault { .. }) => Err(fault(alloc, "schema")),
        Err(SchemaEnd::NoMemory) => Err(StepError::NoMemory),
    }
}

/// The schema of a script; the built-in one where it has none.
fn schema_in(alloc: Global, script: &Value) -> Result<Schema, StepError<Text>>
    ensures { Gives result (schema_in (view script.now)) }
{
    match member(script, "schema") {
        Some(value) => schema_at(alloc, value),
        None => Ok(Schema::notes(alloc)?),
    }
}

/// The parts of a script.
fn parts_in(alloc: Global, script: &Value) -> Result<Script, StepError<Text>>
    ensures { Gives result (parts_in (view script.now)) }
{
    let schema = schema_in(alloc, script)?;
    let streams = streams_in(alloc, script)?;
    let steps = steps_in(alloc, streams.as_slice().len(), script)?;
    Ok(Script {
        schema,
        streams,
        steps,
    })
}

/// The script that a value is.
fn script_in(alloc: Global, script: &Value) -> Result<Script, StepError<Text>>
    ensures { Gives result (script_in (view script.now)) }
{
    match script {
        Value::Object(_) => parts_in(alloc, script),
        _ => Err(fault(alloc, "object")),
    }
}

/// The script of a text.
fn script_of_text(alloc: Global, bytes: &[u8]) -> Result<Script, StepError<Text>>
    ensures { Gives result (script_of_text bytes.now) }
{
    if bytes.len() > SCRIPT_LIMIT {
        return Err(fault(alloc, "size"));
    }
    match parse(alloc, bytes)? {
        Some(value) => script_in(alloc, &value),
        None => Err(fault(alloc, "json")),
    }
}

/// A law: of a script that is read, the streams are few, and each step is the number of one of them. Call it to have the fact.
pub fn script_is_fit()
    ensures few { (bytes : Listed ℕ) (s : ReadScript) → script_of_text bytes ≡ Ok s → length s.streams ≤ STREAM_LIMIT }
    ensures within { (bytes : Listed ℕ) (s : ReadScript) → script_of_text bytes ≡ Ok s → (i : ℕ) → i < length s.steps → slice_index s.steps i < length s.streams }
{}

/// Reads a script: a JSON text (RFC 8259) of at most `SCRIPT_LIMIT` bytes that is an object with the members
///
/// - `schema`, a schema as schema files have it; the built-in one where there is none;
/// - `streams`, an array of 1 to `STREAM_LIMIT` strings, each the bytes of a connection in padded base64 (RFC 4648, section 4);
/// - `steps`, an array of at most `STEP_LIMIT` numbers of streams, from 0.
///
/// The fault is the first one in this order.
pub fn read_script(alloc: Global, bytes: &[u8]) -> Result<Script, ScriptEnd>
    ensures { ReadsScript result (script_of_text bytes.now) }
{
    match script_of_text(alloc, bytes) {
        Ok(script) => Ok(script),
        Err(StepError::Because(place)) => Err(ScriptEnd::Fault(place)),
        Err(StepError::NoMemory) => Err(ScriptEnd::NoMemory),
    }
}
