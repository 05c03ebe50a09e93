//! Texts with ample memory (RFC 8259, sections 6 and 7).
use ident_rules::NoMemory;
use json_texts::{TextDraft, add_int, add_string};
use std::alloc::Global;
use std::test::Fail;

/// A text, an integer, and both as they stand in JSON, one behind the other.
const ROWS: [(&str, i64, &[u8]); 8] = [
    ("", 0, b"\"\"0"),
    ("plain", -1, b"\"plain\"-1"),
    ("\"\\/", i64::MAX, b"\"\\\"\\\\/\"9223372036854775807"),
    (
        "\u{8}\u{c}\n\r\t",
        i64::MIN,
        b"\"\\b\\f\\n\\r\\t\"-9223372036854775808",
    ),
    ("\u{0}\u{1f}\u{7f}", 10, b"\"\\u0000\\u001f\x7f\"10"),
    (
        "\u{e9}\u{20ac}\u{1f600}",
        7,
        b"\"\xc3\xa9\xe2\x82\xac\xf0\x9f\x98\x80\"7",
    ),
    ("sixteen plain by\"", 1, b"\"sixteen plain by\\\"\"1"),
    (
        "fifteen plain b\nand more than sixteen behind it\u{1}",
        2,
        b"\"fifteen plain b\\nand more than sixteen behind it\\u0001\"2",
    ),
];

/// Whether the text and the integer come to that.
fn comes_so(alloc: Global, row: &(&str, i64, &[u8])) -> Result<bool, NoMemory> {
    let mut draft = TextDraft::with_room(alloc, 4);
    add_string(&mut draft, row.0);
    add_int(&mut draft, row.1);
    Ok(draft.finish()?.as_slice() == row.2)
}

/// The number of the first row that does not come so.
fn first_wrong(alloc: Global, rows: &[(&str, i64, &[u8])]) -> Result<Option<usize>, NoMemory> {
    for (number, row) in rows.iter().enumerate() {
        if !comes_so(alloc, row)? {
            return Ok(Some(number));
        }
    }
    Ok(None)
}

#[test]
fn texts_stand_so(rt: HostRuntime) -> Result<(), Fail> {
    assert_eq!(rt; first_wrong(rt.alloc(), &ROWS)?, None);
    assert!(rt; TextDraft::new(rt.alloc()).finish()?.as_slice().is_empty());
    Ok(())
}
