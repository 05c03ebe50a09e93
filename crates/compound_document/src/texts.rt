//! The texts of documents.
ghost use Rattle.std.specs.Prelude.{◌≡◌, ◌++◌, IfOk, None, Some, codes, option_copied, unwrap_or};
ghost use Rattle.json_texts.specs.Drafts.{Adds};
ghost use Rattle.serde_json.specs.Written.{compact_text};
ghost use Rattle.error_objects.specs.ErrorReply.{only};
ghost use Rattle.world_cells.specs.World.{no_link};
ghost use Rattle.store_model.specs.Document.{resources};
ghost use Rattle.store_model.specs.Resource.{linkage};
ghost use Rattle.compound_document.specs.Documents.{beside_text, links_data, meta_text, one_data, page_data, page_object, row_object};

use crate::links::page_links;
use document_texts::{
    add_linkage_document, add_null_document, add_page_links, add_resource, add_resources,
    add_row_document,
};
use ident_rules::{Bytes, List, NoMemory, Text};
use json_texts::TextDraft;
use resource_schema::Schema;
use std::alloc::Global;
use store_model::Selected;
use task_forms::Query;
use world_cells::{Link, Row};

/// The room that the text of one resource begins with.
const ROOM: usize = 640;

/// Goes on with the resource objects of rows.
fn add_rows(draft: &mut TextDraft, schema: &Schema, query: &Query, rows: &[Row])
    ensures { Adds draft.old draft.new (compact_text (resources schema.now query.now rows.now)) }
{
    add_resources(draft, schema, rows, query.fields.as_slice());
}

/// Goes on with the member `included` behind other members.
fn add_included(draft: &mut TextDraft, schema: &Schema, query: &Query, rows: &[Row])
    ensures { Adds draft.old draft.new (codes ",\"included\":" ++ compact_text (resources schema.now query.now rows.now)) }
{
    draft.add(b",\"included\":");
    add_rows(draft, schema, query, rows);
}

/// Goes on with the member `included`, where paths were asked for (JSON:API 1.1, "Compound Documents").
fn add_beside(draft: &mut TextDraft, schema: &Schema, query: &Query, beside: &Option<List<Row>>)
    ensures { Adds draft.old draft.new (beside_text schema.now query.now beside.now) }
{
    match beside {
        Some(rows) => add_included(draft, schema, query, rows.as_slice()),
        None => {}
    }
}

/// Goes on with the member `meta`, where a range is cut short (Cursor Pagination profile, "Range Pagination").
fn add_meta(draft: &mut TextDraft, truncated: bool)
    ensures { Adds draft.old draft.new (meta_text truncated) }
{
    if truncated {
        draft.add(b",\"meta\":{\"page\":{\"rangeTruncated\":true}}");
    }
}

/// Goes on with the links of a page.
fn add_links(draft: &mut TextDraft, links: &(Option<Text>, Option<Text>))
    ensures { Adds draft.old draft.new (compact_text (links_data links.now.0 links.now.1)) }
{
    add_page_links(draft, links.0.as_ref(), links.1.as_ref());
}

/// The room that the text of so many rows, and of those beside them, begins with; a longer one takes more.
fn room_of(rows: usize, beside: &Option<List<Row>>) -> usize {
    let more = match beside {
        Some(list) => list.as_slice().len(),
        None => 0,
    };
    rows.saturating_add(more).saturating_mul(ROOM)
}

/// Goes on with the document of a page.
fn add_page(
    draft: &mut TextDraft,
    schema: &Schema,
    query: &Query,
    rows: &[Row],
    beside: &Option<List<Row>>,
    links: &(Option<Text>, Option<Text>),
    truncated: bool,
)
    ensures { Adds draft.old draft.new (compact_text (page_object schema.now query.now rows.now beside.now (links_data links.now.0 links.now.1) truncated)) }
{
    draft.add(b"{\"data\":");
    add_rows(draft, schema, query, rows);
    add_beside(draft, schema, query, beside);
    draft.add(b",\"links\":");
    add_links(draft, links);
    add_meta(draft, truncated);
    draft.add(b"}");
}

/// The document of a page, with the rows beside it.
pub fn page_text(
    alloc: Global,
    schema: &Schema,
    query: &Query,
    path: &str,
    page: &Selected,
    beside: &Option<List<Row>>,
) -> Result<Bytes, NoMemory>
    ensures { IfOk result (λ b. b ≡ compact_text (page_data schema.now query.now path.now page.now beside.now)) }
{
    let links = page_links(alloc, path, query, page)?;
    let rows = page.rows.as_slice();
    let mut draft = TextDraft::with_room(alloc, room_of(rows.len(), beside));
    add_page(
        &mut draft,
        schema,
        query,
        rows,
        beside,
        &links,
        page.truncated,
    );
    draft.finish()
}

/// Goes on with the resource object of a row, or null.
fn add_row(draft: &mut TextDraft, schema: &Schema, query: &Query, row: &Option<Row>)
    ensures { Adds draft.old draft.new (compact_text (row_object schema.now query.now row.now)) }
{
    match row {
        Some(row) => add_resource(draft, schema, row, query.fields.as_slice()),
        None => draft.add(b"null"),
    }
}

/// Goes on with the document of a row, or null.
fn add_one(
    draft: &mut TextDraft,
    schema: &Schema,
    query: &Query,
    row: &Option<Row>,
    beside: &Option<List<Row>>,
)
    ensures { Adds draft.old draft.new (compact_text (one_data schema.now query.now row.now beside.now)) }
{
    draft.add(b"{\"data\":");
    add_row(draft, schema, query, row);
    add_beside(draft, schema, query, beside);
    draft.add(b"}");
}

/// The document of a row, or null, with the rows beside it.
pub fn one_text(
    alloc: Global,
    schema: &Schema,
    query: &Query,
    row: &Option<Row>,
    beside: &Option<List<Row>>,
) -> Result<Bytes, NoMemory>
    ensures { IfOk result (λ b. b ≡ compact_text (one_data schema.now query.now row.now beside.now)) }
{
    let mut draft = TextDraft::with_room(alloc, room_of(1, beside));
    add_one(&mut draft, schema, query, row, beside);
    draft.finish()
}

/// Goes on with the document of a row with nothing beside it.
fn add_alone(draft: &mut TextDraft, schema: &Schema, query: &Query, row: &Row)
    ensures { Adds draft.old draft.new (compact_text (one_data schema.now query.now (Some row.now) None)) }
{
    add_row_document(draft, schema, row, query.fields.as_slice());
}

/// The document of a row with nothing beside it.
pub fn alone_text(
    alloc: Global,
    schema: &Schema,
    query: &Query,
    row: &Row,
) -> Result<Bytes, NoMemory>
    ensures { IfOk result (λ b. b ≡ compact_text (one_data schema.now query.now (Some row.now) None)) }
{
    let mut draft = TextDraft::with_room(alloc, ROOM);
    add_alone(&mut draft, schema, query, row);
    draft.finish()
}

/// Goes on with the document of a linkage, where None is a link to nothing.
fn add_link(draft: &mut TextDraft, schema: &Schema, target: u32, link: Option<&Link>)
    ensures { Adds draft.old draft.new (compact_text (only (codes "data") (linkage schema.now target (unwrap_or (option_copied link.entry) no_link)))) }
{
    match link {
        Some(link) => add_linkage_document(draft, schema, target, link),
        None => add_null_document(draft),
    }
}

/// The document of a linkage, where None is a link to nothing (JSON:API 1.1, "Fetching Relationships").
pub fn linkage_text(
    alloc: Global,
    schema: &Schema,
    target: u32,
    link: Option<&Link>,
) -> Result<Bytes, NoMemory>
    ensures { IfOk result (λ b. b ≡ compact_text (only (codes "data") (linkage schema.now target (unwrap_or (option_copied link.entry) no_link)))) }
{
    let mut draft = TextDraft::with_room(alloc, ROOM);
    add_link(&mut draft, schema, target, link);
    draft.finish()
}
