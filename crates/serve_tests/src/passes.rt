//! Two passes of one store that take turns: what one writes the other finds.
use crate::serves::{WRITES, opener};
use crate::{Client, count_of_turns, listener, was_sent};
use command_lines::{SchemaRead, read_schema_file};
use ident_rules::NoMemory;
use request_tasks::LentTasks;
use resource_schema::Schema;
use std::alloc::Global;
use std::sync::Wait;
use std::test::Fail;
use task_run::JsonSubject;

/// The first note is found, and a second one is made.
const FINDS: Client = Client {
    bytes: b"GET /notes/1 HTTP/1.1\r\nHost: h\r\n\r\nPOST /notes HTTP/1.1\r\nHost: h\r\nContent-Type: application/vnd.api+json\r\nContent-Length: 53\r\n\r\n{\"data\":{\"type\":\"notes\",\"attributes\":{\"text\":\"two\"}}}",
    pieces: &[
        "HTTP/1.1 200 ",
        r#"{"data":{"attributes":{"text":"hello"},"id":"1","#,
        "HTTP/1.1 201 ",
        r#"{"data":{"attributes":{"text":"two"},"id":"2","#,
    ],
};

/// Both are found.
const LISTS: Client = Client {
    bytes: b"GET /notes HTTP/1.1\r\nHost: h\r\n\r\n",
    pieces: &[
        "HTTP/1.1 200 ",
        r#"{"data":[{"attributes":{"text":"hello"},"id":"1","#,
        r#"{"attributes":{"text":"two"},"id":"2","#,
    ],
};

/// How many entries the turns made; None where something else was sent.
fn entries_of<R: Wait>(rt: &R, alloc: Global, schema: &Schema) -> Result<Option<u64>, NoMemory> {
    let mut first = listener(alloc, &WRITES)?;
    let mut second = listener(alloc, &FINDS)?;
    let mut third = listener(alloc, &LISTS)?;
    let subject = JsonSubject::new(schema.copy(alloc)?);
    let planner = LentTasks { schema };
    let count = count_of_turns(
        rt,
        alloc,
        subject,
        &planner,
        &mut first,
        &mut second,
        &mut third,
    )?;
    let written = was_sent(first.closed(), WRITES.pieces);
    let found = was_sent(second.closed(), FINDS.pieces);
    let listed = was_sent(third.closed(), LISTS.pieces);
    if written && found && listed {
        Ok(count)
    } else {
        Ok(None)
    }
}

/// The same under the schema of the notes.
fn entries_of_notes<R: Wait>(rt: &R, alloc: Global) -> Result<Option<u64>, NoMemory> {
    let mut opener = opener(alloc)?;
    match read_schema_file(alloc, "s", &mut opener) {
        SchemaRead::Good(schema) => entries_of(rt, alloc, &schema),
        _ => Ok(None),
    }
}

#[test]
fn passes_take_turns(rt: HostRuntime) -> Result<(), Fail> {
    assert_eq!(rt; entries_of_notes(&rt, rt.alloc())?, Some(6));
    Ok(())
}
