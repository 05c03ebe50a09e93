//! Texts with ample memory, of the type `notes` (JSON:API 1.1, "Document Structure").
use document_texts::{
    add_linkage_document, add_null_document, add_page_links, add_resources, add_result_item,
    add_row_document,
};
use ident_rules::{Bytes, Id, Key, List, NoMemory, Text};
use json_texts::TextDraft;
use resource_schema::{AttrValue, Schema};
use std::alloc::Global;
use std::test::Fail;
use world_cells::{Link, Row};

/// A note with this number.
fn note(alloc: Global, number: u64) -> Result<Row, NoMemory> {
    let mut values = Vec::new(alloc);
    values.push(AttrValue::Text(Text::from_str(alloc, "a \"b\"")?))?;
    Ok(Row {
        key: Key {
            kind: 0,
            id: Id::of_number(number),
        },
        values: List::from_vec(values),
        links: List::from_vec(Vec::new(alloc)),
    })
}

/// The documents of one note, whole and without its fields, and of none.
fn rows(alloc: Global, schema: &Schema) -> Result<Bytes, NoMemory> {
    let row = note(alloc, 1)?;
    let hidden = [(0, List::from_vec(Vec::new(alloc)))];
    let mut draft = TextDraft::new(alloc);
    add_row_document(&mut draft, schema, &row, &[]);
    add_row_document(&mut draft, schema, &row, &hidden);
    add_null_document(&mut draft);
    draft.finish()
}

const ROWS: &[u8] =
    b"{\"data\":{\"attributes\":{\"text\":\"a \\\"b\\\"\"},\"id\":\"1\",\"links\":{\"self\":\"/notes/1\"},\"type\":\"notes\"}}{\"data\":{\"id\":\"1\",\"links\":{\"self\":\"/notes/1\"},\"type\":\"notes\"}}{\"data\":null}";

/// The documents of links to none, to one and to two.
fn linkages(alloc: Global, schema: &Schema) -> Result<Bytes, NoMemory> {
    let mut ids = Vec::new(alloc);
    ids.push(Id::of_number(7))?;
    ids.push(Id::of_number(8))?;
    let mut draft = TextDraft::new(alloc);
    add_linkage_document(&mut draft, schema, 0, &Link::One(None));
    add_linkage_document(&mut draft, schema, 0, &Link::One(Some(Id::of_number(7))));
    add_linkage_document(&mut draft, schema, 0, &Link::Many(List::from_vec(ids)));
    draft.finish()
}

const LINKAGES: &[u8] =
    b"{\"data\":null}{\"data\":{\"id\":\"7\",\"type\":\"notes\"}}{\"data\":[{\"id\":\"7\",\"type\":\"notes\"},{\"id\":\"8\",\"type\":\"notes\"}]}";

/// Two notes, the links of a page, and the results of a removal and of a creation.
fn parts(alloc: Global, schema: &Schema) -> Result<Bytes, NoMemory> {
    let rows = [note(alloc, 1)?, note(alloc, 2)?];
    let hidden = [(0, List::from_vec(Vec::new(alloc)))];
    let next = Text::from_str(alloc, "/notes?a=\u{e9}")?;
    let mut draft = TextDraft::new(alloc);
    add_resources(&mut draft, schema, &rows, &hidden);
    add_page_links(&mut draft, Some(&next), None);
    add_result_item(&mut draft, false, schema, None);
    add_result_item(&mut draft, true, schema, Some(&rows[0]));
    draft.finish()
}

const PARTS: &[u8] =
    b"[{\"id\":\"1\",\"links\":{\"self\":\"/notes/1\"},\"type\":\"notes\"},{\"id\":\"2\",\"links\":{\"self\":\"/notes/2\"},\"type\":\"notes\"}]{\"next\":\"/notes?a=\xc3\xa9\",\"prev\":null}{},{\"data\":{\"attributes\":{\"text\":\"a \\\"b\\\"\"},\"id\":\"1\",\"links\":{\"self\":\"/notes/1\"},\"type\":\"notes\"}}";

#[test]
fn documents_stand_so(rt: HostRuntime) -> Result<(), Fail> {
    let alloc = rt.alloc();
    let schema = Schema::notes(alloc)?;
    assert_eq!(rt; rows(alloc, &schema)?.as_slice(), ROWS);
    assert_eq!(rt; linkages(alloc, &schema)?.as_slice(), LINKAGES);
    assert_eq!(rt; parts(alloc, &schema)?.as_slice(), PARTS);
    Ok(())
}
