//! The arrays of a script.
ghost use Rattle.std.specs.Prelude.{◌≡◌, ◌≤◌, IfOk, codes, length, map, option_and_then};
ghost use Rattle.std.specs.List.{enumerate_from};
ghost use Rattle.std.specs.Result.{result_ok};
ghost use Rattle.base64.specs.Engines.{standard};
ghost use Rattle.base64.specs.GeneralPurpose.{decode_of};
ghost use Rattle.serde_json.specs.Find.{as_str};
ghost use Rattle.serde_json.specs.View.{view};
ghost use Rattle.ident_rules.specs.StepErrors.{Gives};
ghost use Rattle.request_model.specs.Words.{all_ok};
ghost use Rattle.replay_runs.specs.declared.reports.TheConstants.{STREAM_LIMIT};
ghost use Rattle.replay_script.specs.declared.scripts.TheConstants.{STEP_LIMIT};
ghost use Rattle.replay_script.specs.Scripts.{stream_at, items_streams, array_streams, streams_in, stream_number, step_at, items_steps, array_steps, steps_in};

use crate::places::{fault, fault_at};
use crate::scripts::STEP_LIMIT;
use base64::DecodeAllocError;
use base64::engine::general_purpose::STANDARD;
use ident_rules::{Bytes, List, NoMemory, StepError, Text};
use json_forms::{member, text_of};
use replay_runs::STREAM_LIMIT;
use serde_json::Value;
use std::alloc::Global;

/// The bytes of a string in padded base64.
fn decoded(alloc: Global, value: &Value) -> Result<Option<Bytes>, NoMemory>
    ensures { IfOk result (λ o. o ≡ option_and_then (λ text. result_ok (decode_of standard text)) (as_str (view value.now))) }
{
    let Some(text) = text_of(value) else {
        return Ok(None);
    };
    match STANDARD.decode(alloc, text.as_bytes()) {
        Ok(bytes) => Ok(Some(Bytes::from_vec(bytes))),
        Err(DecodeAllocError::OutOfMemory) => Err(NoMemory),
        Err(DecodeAllocError::DecodeError(_)) => Ok(None),
    }
}

/// The stream at a place of its array.
fn stream_at(alloc: Global, place: u32, value: &Value) -> Result<Bytes, StepError<Text>>
    ensures { Gives result (stream_at (place, view value.now)) }
{
    match decoded(alloc, value)? {
        Some(bytes) => Ok(bytes),
        None => Err(fault_at(alloc, "streams", place)),
    }
}

/// The streams of an array, each in order.
fn read_streams(alloc: Global, values: &[Value]) -> Result<List<Bytes>, StepError<Text>>
    requires few { length values.now ≤ STREAM_LIMIT }
    ensures { Gives result (all_ok (map stream_at (enumerate_from 0 (map view values.now)))) }
{
    let mut streams = Vec::new(alloc);
    for (place, value) in values.iter().enumerate() {
        match stream_at(alloc, place as u32, value) {
            Ok(stream) => streams.push(stream)?,
            Err(stop) => return Err(stop),
        }
    }
    Ok(List::from_vec(streams))
}

/// At least one stream and at most `STREAM_LIMIT`, each in order.
fn items_streams(alloc: Global, values: &[Value]) -> Result<List<Bytes>, StepError<Text>>
    ensures { Gives result (items_streams (map view values.now)) }
{
    if values.is_empty() {
        return Err(fault(alloc, "streams"));
    }
    if values.len() > STREAM_LIMIT {
        return Err(fault(alloc, "streams"));
    }
    read_streams(alloc, values)
}

/// The streams of the value of the member `streams`.
fn array_streams(alloc: Global, value: &Value) -> Result<List<Bytes>, StepError<Text>>
    ensures { Gives result (array_streams (view value.now)) }
{
    match value.as_array() {
        Some(values) => items_streams(alloc, values),
        None => Err(fault(alloc, "streams")),
    }
}

/// The streams of a script.
pub fn streams_in(alloc: Global, script: &Value) -> Result<List<Bytes>, StepError<Text>>
    ensures { Gives result (streams_in (view script.now)) }
{
    match member(script, "streams") {
        Some(value) => array_streams(alloc, value),
        None => Err(fault(alloc, "streams")),
    }
}

/// The number of a stream, where it is one below their count.
fn stream_number(count: usize, value: &Value) -> Option<u32>
    requires few { count ≤ STREAM_LIMIT }
    ensures { result ≡ stream_number count (view value.now) }
{
    let number = value.as_u64()?;
    if number < count as u64 {
        Some(number as u32)
    } else {
        None
    }
}

/// The step at a place of its array.
fn step_at(alloc: Global, count: usize, place: u32, value: &Value) -> Result<u32, StepError<Text>>
    requires few { count ≤ STREAM_LIMIT }
    ensures { Gives result (step_at count (place, view value.now)) }
{
    match stream_number(count, value) {
        Some(number) => Ok(number),
        None => Err(fault_at(alloc, "steps", place)),
    }
}

/// The steps of an array, each in order.
fn read_steps(alloc: Global, count: usize, values: &[Value]) -> Result<List<u32>, StepError<Text>>
    requires few { count ≤ STREAM_LIMIT }
    requires short { length values.now ≤ STEP_LIMIT }
    ensures { Gives result (all_ok (map (step_at count) (enumerate_from 0 (map view values.now)))) }
{
    let mut steps = Vec::new(alloc);
    for (place, value) in values.iter().enumerate() {
        match step_at(alloc, count, place as u32, value) {
            Ok(step) => steps.push(step)?,
            Err(stop) => return Err(stop),
        }
    }
    Ok(List::from_vec(steps))
}

/// At most `STEP_LIMIT` steps, each in order.
fn items_steps(alloc: Global, count: usize, values: &[Value]) -> Result<List<u32>, StepError<Text>>
    requires few { count ≤ STREAM_LIMIT }
    ensures { Gives result (items_steps count (map view values.now)) }
{
    if values.len() > STEP_LIMIT {
        return Err(fault(alloc, "steps"));
    }
    read_steps(alloc, count, values)
}

/// The steps of the value of the member `steps`.
fn array_steps(alloc: Global, count: usize, value: &Value) -> Result<List<u32>, StepError<Text>>
    requires few { count ≤ STREAM_LIMIT }
    ensures { Gives result (array_steps count (view value.now)) }
{
    match value.as_array() {
        Some(values) => items_steps(alloc, count, values),
        None => Err(fault(alloc, "steps")),
    }
}

/// The steps of a script over so many streams.
pub fn steps_in(alloc: Global, count: usize, script: &Value) -> Result<List<u32>, StepError<Text>>
    requires few { count ≤ STREAM_LIMIT }
    ensures { Gives result (steps_in count (view script.now)) }
{
    match member(script, "steps") {
        Some(value) => array_steps(alloc, count, value),
        None => Err(fault(alloc, "steps")),
    }
}
