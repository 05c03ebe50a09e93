//! Links, byte for byte.
use ident_rules::{Id, Name, NoMemory, Text, read_id, read_name};
use std::alloc::Global;
use uri_texts::{related_link, relationship_link, resource_link, with_query};

/// The longest id.
const LONGEST: &str = "0123456789abcdef0123456789abcdef0123456789abcdef0123456789abcdef";

/// The four links of a resource of a type: of the one with the id 12, of what is related to it, of its relationship, and of
/// the one with the longest id.
fn links(alloc: Global, kind: &Name, rel: &Name, longest: &Id) -> Result<[Text; 4], NoMemory> {
    let id = Id::of_number(12);
    Ok([
        resource_link(alloc, kind, &id)?,
        related_link(alloc, kind, &id, rel)?,
        relationship_link(alloc, kind, &id, rel)?,
        resource_link(alloc, kind, longest)?,
    ])
}

/// The links of articles and their author.
fn links_of_articles(alloc: Global) -> Option<[Text; 4]> {
    let kind = read_name("articles").ok()?;
    let rel = read_name("author").ok()?;
    let longest = read_id(LONGEST).ok()?;
    links(alloc, &kind, &rel, &longest).ok()
}

/// A path with a query of two pairs.
fn link_with_query(alloc: Global) -> Result<Text, NoMemory> {
    let after = (
        Text::from_str(alloc, "page[after]")?,
        Text::from_str(alloc, "a b&c")?,
    );
    let sort = (Text::from_str(alloc, "sort")?, Text::from_str(alloc, "")?);
    let pairs = vec![in alloc; after, sort]?;
    with_query(alloc, "/articles", pairs.as_slice())
}

#[test]
fn writes_links(rt: HostRuntime) {
    let wanted = [
        "/articles/12",
        "/articles/12/author",
        "/articles/12/relationships/author",
        "/articles/0123456789abcdef0123456789abcdef0123456789abcdef0123456789abcdef",
    ];
    match links_of_articles(rt.alloc()) {
        Some(links) => {
            for (link, want) in links.iter().zip(wanted.iter()) {
                assert_eq!(rt; link.as_str(), *want);
            }
        }
        None => assert!(rt; false, "no links"),
    }
}

#[test]
fn writes_a_query(rt: HostRuntime) {
    match link_with_query(rt.alloc()) {
        Ok(link) => { assert_eq!(rt; link.as_str(), "/articles?page%5Bafter%5D=a+b%26c&sort=") }
        Err(NoMemory) => assert!(rt; false, "no memory"),
    }
}
