use ident_rules::{Bytes, Id, Key, List, Name, NoMemory, Text, read_id, read_name};
use json_forms::{parse, render};
use resource_objects::{
    collection_path, linkage_value, related_path, relationship_path, resource_path, resource_value,
};
use resource_schema::{AttrValue, Schema};
use schema_file::{SchemaEnd, read_schema};
use std::alloc::Global;
use std::test::Fail;
use task_forms::{Page, Query};
use world_cells::{Link, Row};

const ARTICLES: &str =
    "{\"types\":{\"articles\":{\"attributes\":{\"draft\":{\"nullable\":true,\"type\":\"bool\"},\"title\":{\"type\":\"text\"},\"views\":{\"type\":\"int\"}},\"relationships\":{\"author\":{\"kind\":\"one\",\"target\":\"people\"},\"comments\":{\"kind\":\"many\",\"target\":\"comments\"}}},\"comments\":{},\"people\":{}}}";

const WHOLE: &str =
    "{\"attributes\":{\"draft\":null,\"title\":\"T\",\"views\":0},\"id\":\"1\",\"links\":{\"self\":\"/articles/1\"},\"relationships\":{\"author\":{\"data\":{\"id\":\"ann\",\"type\":\"people\"},\"links\":{\"related\":\"/articles/1/author\",\"self\":\"/articles/1/relationships/author\"}},\"comments\":{\"data\":[],\"links\":{\"related\":\"/articles/1/comments\",\"self\":\"/articles/1/relationships/comments\"}}},\"type\":\"articles\"}";

const RELATIONSHIPS: &str =
    "{\"id\":\"1\",\"links\":{\"self\":\"/articles/1\"},\"relationships\":{\"author\":{\"data\":null,\"links\":{\"related\":\"/articles/1/author\",\"self\":\"/articles/1/relationships/author\"}}},\"type\":\"articles\"}";

const MANY: &str =
    "{\"id\":\"1\",\"links\":{\"self\":\"/articles/1\"},\"relationships\":{\"comments\":{\"data\":[{\"id\":\"2\",\"type\":\"comments\"},{\"id\":\"1\",\"type\":\"comments\"}],\"links\":{\"related\":\"/articles/1/comments\",\"self\":\"/articles/1/relationships/comments\"}}},\"type\":\"articles\"}";

fn article_schema(alloc: Global) -> Result<Schema, SchemaEnd> {
    match parse(alloc, ARTICLES.as_bytes())? {
        Some(value) => read_schema(alloc, &value),
        None => Err(SchemaEnd::NoMemory),
    }
}

fn names_of(alloc: Global, texts: &[&str]) -> Result<List<Name>, NoMemory> {
    let mut names = Vec::new(alloc);
    for text in texts {
        if let Ok(name) = read_name(*text) {
            names.push(name)?;
        }
    }
    Ok(List::from_vec(names))
}

/// A query with these field sets.
fn query_of(alloc: Global, sets: &[(u32, &[&str])]) -> Result<Query, NoMemory> {
    let mut fields = Vec::new(alloc);
    for (kind, texts) in sets {
        fields.push((*kind, names_of(alloc, *texts)?))?;
    }
    Ok(Query {
        pairs: List::from_vec(Vec::new(alloc)),
        include: None,
        fields: List::from_vec(fields),
        sort: List::from_vec(Vec::new(alloc)),
        page: Page {
            size: 10,
            after: None,
            before: None,
        },
    })
}

fn comments_of(alloc: Global, numbers: &[u64]) -> Result<Link, NoMemory> {
    let mut ids = Vec::new(alloc);
    for number in numbers {
        ids.push(Id::of_number(*number))?;
    }
    Ok(Link::Many(List::from_vec(ids)))
}

/// An article with this author and these comments.
fn article(alloc: Global, author: Option<Id>, comments: &[u64]) -> Result<Row, NoMemory> {
    let mut values = Vec::new(alloc);
    values.push(AttrValue::Null)?;
    values.push(AttrValue::Text(Text::from_str(alloc, "T")?))?;
    values.push(AttrValue::Int(0))?;
    let mut links = Vec::new(alloc);
    links.push(Link::One(author))?;
    links.push(comments_of(alloc, comments)?)?;
    Ok(Row {
        key: Key {
            kind: 0,
            id: Id::of_number(1),
        },
        values: List::from_vec(values),
        links: List::from_vec(links),
    })
}

/// The text of a row's resource object.
fn text_of(alloc: Global, schema: &Schema, row: &Row, query: &Query) -> Result<Bytes, NoMemory> {
    let value = resource_value(alloc, schema, row, query)?;
    render(alloc, &value)
}

/// The first row that is written otherwise than it should be, from 1 on; 0 where none is. Each has field sets, the author, the
/// comments and the text.
fn wrong_text(
    alloc: Global,
    rows: &[(&[(u32, &[&str])], &str, &[u64], &str)],
) -> Result<usize, SchemaEnd> {
    let schema = article_schema(alloc)?;
    let mut place = 1;
    for (sets, author, comments, want) in rows {
        let row = article(alloc, read_id(*author).ok(), *comments)?;
        let text = text_of(alloc, &schema, &row, &query_of(alloc, *sets)?)?;
        if text.as_slice() != want.as_bytes() {
            return Ok(place);
        }
        place = place.wrapping_add(1);
    }
    Ok(0)
}

#[test]
fn writes_articles(rt: HostRuntime) -> Result<(), Fail> {
    let rows: [(&[(u32, &[&str])], &str, &[u64], &str); 3] = [
        (&[(1, &[]), (2, &[])], "ann", &[], WHOLE),
        (
            &[(2, &["title"]), (0, &["author"])],
            "",
            &[5],
            RELATIONSHIPS,
        ),
        (&[(0, &["comments"])], "", &[2, 1], MANY),
    ];
    assert_eq!(rt; wrong_text(rt.alloc(), &rows)?, 0);
    Ok(())
}

/// The text of the linkage of an article's comments.
fn comments_text(alloc: Global, numbers: &[u64]) -> Result<Bytes, SchemaEnd> {
    let schema = article_schema(alloc)?;
    let value = linkage_value(alloc, &schema, 0, 1, &comments_of(alloc, numbers)?)?;
    Ok(render(alloc, &value)?)
}

#[test]
fn writes_linkages(rt: HostRuntime) -> Result<(), Fail> {
    let text = comments_text(rt.alloc(), &[2, 1])?;
    let want = "[{\"id\":\"2\",\"type\":\"comments\"},{\"id\":\"1\",\"type\":\"comments\"}]";
    assert_eq!(rt; text.as_slice(), want.as_bytes());
    Ok(())
}

/// Whether each path is written as it should be.
fn writes_paths_so(alloc: Global) -> Result<bool, SchemaEnd> {
    let schema = article_schema(alloc)?;
    let key = Key {
        kind: 2,
        id: Id::of_number(7),
    };
    let related = related_path(alloc, &schema, &key, "best")?;
    let relationship = relationship_path(alloc, &schema, &key, "best")?;
    Ok(
        collection_path(alloc, &schema, 1)?.as_str() == "/comments"
            && resource_path(alloc, &schema, &key)?.as_str() == "/people/7"
            && related.as_str() == "/people/7/best"
            && relationship.as_str() == "/people/7/relationships/best",
    )
}

#[test]
fn writes_paths(rt: HostRuntime) -> Result<(), Fail> {
    assert!(rt; writes_paths_so(rt.alloc())?);
    Ok(())
}
