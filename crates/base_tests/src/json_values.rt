use ident_rules::NoMemory;
use json_forms::{escape_pointer, parse, render};
use serde_json::json;
use std::alloc::Global;
use std::test::Fail;

// So many opening brackets, and as many closing ones.
fn nested(alloc: Global, depth: usize) -> Result<Vec<u8>, NoMemory> {
    let mut text = Vec::new(alloc);
    for _ in 0..depth {
        text.push(b'[')?;
    }
    for _ in 0..depth {
        text.push(b']')?;
    }
    Ok(text)
}

// The first text that is read as JSON and is none, or the other way round.
fn first_misread(alloc: Global, rows: &[(&[u8], bool)]) -> Result<Option<usize>, NoMemory> {
    for (row, (bytes, is_json)) in rows.iter().enumerate() {
        if parse(alloc, bytes)?.is_some() != *is_json {
            return Ok(Some(row));
        }
    }
    Ok(None)
}

#[test]
fn knows_json(rt: HostRuntime) -> Result<(), Fail> {
    let rows: [(&[u8], bool); 12] = [
        (b"null", true),
        (b"\xef\xbb\xbfnull", false),
        (b"\t[1, 2.5e3, \"\\u00e9\"]\r\n", true),
        (b"", false),
        (b" ", false),
        (b"{} x", false),
        (b"[1,]", false),
        (b"01", false),
        (b"\"\xff\"", false),
        (b"\"\\ud800\"", false),
        (b"\"\\ud83d\\ude00\"", true),
        (b"1e400", false),
    ];
    let wrong = first_misread(rt.alloc(), rows.as_slice())?;
    assert_eq!(rt; wrong, None);
    Ok(())
}

// Whether so many nested arrays are read.
fn is_read(alloc: Global, depth: usize) -> Result<bool, NoMemory> {
    let text = nested(alloc, depth)?;
    Ok(parse(alloc, text.as_slice())?.is_some())
}

#[test]
fn reads_to_a_depth(rt: HostRuntime) -> Result<(), Fail> {
    let alloc = rt.alloc();
    assert!(rt; is_read(alloc, 127)?);
    assert!(rt; !is_read(alloc, 128)?);
    assert!(rt; !is_read(alloc, 40_000)?);
    Ok(())
}

#[test]
fn writes_with_ample_memory(rt: HostRuntime) -> Result<(), Fail> {
    let value = json!(in rt.alloc(); { "type": "people", "id": ["7", null, -1] })?;
    let bytes = render(rt.alloc(), &value)?;
    let text = b"{\"id\":[\"7\",null,-1],\"type\":\"people\"}".as_slice();
    assert_eq!(rt; bytes.as_slice(), text);
    let name = escape_pointer(rt.alloc(), "\u{e9}a~/b")?;
    assert_eq!(rt; name.as_str(), "\u{e9}a~0~1b");
    Ok(())
}
