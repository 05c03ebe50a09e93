//! Old trials, and snapshots that are kept.
ghost use Rattle.std.specs.Prelude.{◌<◌};

use crate::{SnapshotReads, end_of_old_trial, reads_of_snapshot};
use commit_core::{CommitEnd, Setback};
use http_messages::{Field, Message};
use ident_rules::{Bytes, List, NoMemory, Text};
use request_tasks::LentTasks;
use resource_schema::Schema;
use std::alloc::Global;
use std::str;
use std::test::Fail;
use task_run::JsonSubject;

/// The field that a message with a body has.
fn content_type(alloc: Global) -> Result<Field, NoMemory> {
    Ok(Field {
        name: Text::from_str(alloc, "Content-Type")?,
        value: Bytes::from_slice(alloc, b"application/vnd.api+json")?,
    })
}

/// A message that asks for the notes.
fn lists(alloc: Global) -> Result<Message, NoMemory> {
    Ok(Message {
        method: Text::from_str(alloc, "GET")?,
        target: Text::from_str(alloc, "/notes")?,
        minor: 1,
        fields: List::from_vec(Vec::new(alloc)),
        body: Bytes::from_slice(alloc, b"")?,
    })
}

/// A message that makes a note.
fn makes(alloc: Global) -> Result<Message, NoMemory> {
    let mut fields = Vec::new(alloc);
    fields.push(content_type(alloc)?)?;
    let body = br#"{"data":{"type":"notes","attributes":{"text":"hello"}}}"#;
    Ok(Message {
        method: Text::from_str(alloc, "POST")?,
        target: Text::from_str(alloc, "/notes")?,
        minor: 1,
        fields: List::from_vec(fields),
        body: Bytes::from_slice(alloc, body)?,
    })
}

/// A setback of a commit in words: how often it was refused, and why.
fn setback_of(end: &Option<CommitEnd>) -> Option<(u8, Setback)> {
    match end {
        Some(CommitEnd::Stale(attempt, why)) => Some((attempt.refused(), *why)),
        _ => None,
    }
}

/// What comes of a trial of a new note that is committed after so many new notes, where the last `window` are remembered.
fn setback_after(
    alloc: Global,
    window: usize,
    times: u64,
) -> Result<Option<(u8, Setback)>, NoMemory>
    requires window { 0 < window }
{
    let schema = Schema::notes(alloc)?;
    let subject = JsonSubject::new(schema.copy(alloc)?);
    let planner = LentTasks { schema: &schema };
    let end = end_of_old_trial(alloc, subject, &planner, &makes(alloc)?, window, times)?;
    Ok(setback_of(&end))
}

/// A list of the notes by a snapshot before and after a thousand new notes.
fn reads(alloc: Global) -> Result<Option<SnapshotReads>, NoMemory> {
    let schema = Schema::notes(alloc)?;
    let subject = JsonSubject::new(schema.copy(alloc)?);
    let planner = LentTasks { schema: &schema };
    reads_of_snapshot(
        alloc,
        subject,
        &planner,
        &lists(alloc)?,
        &makes(alloc)?,
        1_000,
    )
}

/// Whether old trials are refused, and one that is not old is not.
fn are_refused(alloc: Global) -> Result<bool, NoMemory> {
    let aged = setback_after(alloc, 1, 2)?;
    let met = setback_after(alloc, 2, 2)?;
    let fresh = setback_after(alloc, 1, 0)?;
    Ok(
        aged == Some((1, Setback::Aged(1)))
            && met == Some((1, Setback::Conflict(1)))
            && fresh == None,
    )
}

#[test]
fn old_trials_are_refused(rt: HostRuntime) -> Result<(), Fail> {
    assert!(rt; are_refused(rt.alloc())?);
    Ok(())
}

/// Whether a list that was made is empty.
fn is_empty(body: &[u8]) -> bool {
    match str::from_utf8(body) {
        Ok(text) => text.starts_with(r#"{"data":[],"#),
        Err(_) => false,
    }
}

/// Whether the snapshot's list is empty before and after the new notes, that of the core then is not, and the trial of the snapshot is refused.
fn is_kept(reads: SnapshotReads) -> bool {
    let before = reads.before.reply.body.as_slice();
    let later = reads.later.reply.body.as_slice();
    let after = reads.after.reply.body.as_slice();
    let read = is_empty(before) && later == before && !is_empty(after);
    read && setback_of(&Some(reads.end)) == Some((1, Setback::Conflict(1)))
}

#[test]
fn snapshots_are_kept(rt: HostRuntime) -> Result<(), Fail> {
    let reads = reads(rt.alloc())?;
    assert!(rt; reads.is_some_and(is_kept));
    Ok(())
}
