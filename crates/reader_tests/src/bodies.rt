//! Items of a list of operations, whose type and target stand in the item itself.
use error_objects::{Blame, Code, Read};
use ident_rules::NoMemory;
use json_forms::parse;
use resource_reader::{read_create, read_update};
use resource_schema::Schema;
use std::alloc::Global;

/// What was read of an item of notes: the code and the pointer of its refusal, where it is refused.
#[derive(Drop)]
enum Found {
    Good,
    Refused(Code, bool),
    Other,
}

/// What a reader came to, and whether a refusal is told at that pointer.
fn outcome_of<T: Drop>(read: Read<T>, pointer: &str) -> Found {
    match read {
        Read::Good(_) => Found::Good,
        Read::Refused(refusal) => match &refusal.blame {
            Blame::Pointer(at) => Found::Refused(refusal.code, at.as_str() == pointer),
            _ => Found::Other,
        },
        Read::NoMemory => Found::Other,
    }
}

/// What an item comes to: a new resource, or an update.
fn read_item(alloc: Global, new: bool, text: &str, pointer: &str) -> Result<Found, NoMemory> {
    let schema = Schema::notes(alloc)?;
    let Some(value) = parse(alloc, text.as_bytes())? else {
        return Ok(Found::Other);
    };
    if new {
        let read = read_create(alloc, &schema, &value, "/data", None);
        return Ok(outcome_of(read, pointer));
    }
    let read = read_update(alloc, &schema, &value, "/data", None);
    Ok(outcome_of(read, pointer))
}

/// A row: whether the item is a new resource, its text, and the code and pointer of its refusal.
type Row = (bool, &'static str, Option<Code>, &'static str);

/// Whether a row holds.
fn is_so(alloc: Global, row: &Row) -> bool {
    match (read_item(alloc, row.0, row.1, row.3), row.2) {
        (Ok(Found::Good), None) => true,
        (Ok(Found::Refused(code, at_place)), Some(wanted)) => code == wanted && at_place,
        _ => false,
    }
}

#[test]
fn reads_items_of_lists(rt: HostRuntime) {
    let rows: [Row; 8] = [
        (
            true,
            "{\"type\":\"notes\",\"attributes\":{\"text\":\"T\",\"@more\":1},\"@x\":[]}",
            None,
            "",
        ),
        (
            true,
            "{\"type\":\"tags\"}",
            Some(Code::NotFound),
            "/data/type",
        ),
        (false, "{\"type\":\"notes\",\"lid\":\"p\"}", None, ""),
        (false, "{\"type\":\"notes\",\"id\":\"1\"}", None, ""),
        (
            false,
            "{\"type\":\"notes\",\"id\":\"1\",\"lid\":\"p\"}",
            Some(Code::BadDocument),
            "/data",
        ),
        (
            false,
            "{\"type\":\"notes\",\"id\":\"a b\"}",
            Some(Code::NotFound),
            "/data/id",
        ),
        (
            false,
            "{\"type\":\"notes\",\"lid\":1}",
            Some(Code::BadDocument),
            "/data/lid",
        ),
        (
            false,
            "{\"type\":\"tags\",\"id\":\"1\"}",
            Some(Code::NotFound),
            "/data/type",
        ),
    ];
    for (at, row) in rows.iter().enumerate() {
        assert!(rt; is_so(rt.alloc(), row), "row {at}");
    }
}
