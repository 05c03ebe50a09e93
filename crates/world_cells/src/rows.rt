ghost use Rattle.std.specs.Prelude.{◌≡◌, IfOk};

use ident_rules::{Id, Key, List, NoMemory};
use resource_schema::{AttrValue, copy_values};
use std::alloc::Global;

/// The most resources that a to-many relationship leads to.
pub const LINK_LIMIT: usize = 1_000;

/// What one relationship of a resource leads to. The ids are of the relationship's target type.
#[derive(Drop)]
pub enum Link {
    /// Of a to-one relationship: one resource or none.
    One(Option<Id>),
    /// Of a to-many relationship: distinct resources in order, at most `LINK_LIMIT`.
    Many(List<Id>),
}

/// A resource: its key, the values of its type's attributes and the links of its type's relationships, each by number.
#[derive(Drop)]
pub struct Row {
    /// Its type and id.
    pub key: Key,
    /// One value for each attribute.
    pub values: List<AttrValue>,
    /// One link for each relationship.
    pub links: List<Link>,
}

impl Link {
    /// An equal link. Its one error is want of memory.
    pub fn copy(&self, alloc: Global) -> Result<Link, NoMemory>
        ensures { IfOk result (λ l. l ≡ self.now) }
    {
        match self {
            Link::One(id) => Ok(Link::One(*id)),
            Link::Many(ids) => {
                let ids = Vec::from_slice(alloc, ids.as_slice())?;
                Ok(Link::Many(List::from_vec(ids)))
            }
        }
    }
}

fn copy_links(alloc: Global, links: &[Link]) -> Result<List<Link>, NoMemory>
    ensures { IfOk result (λ l. l ≡ links.now) }
{
    let mut copies = Vec::with_capacity(alloc, links.len())?;
    for link in links {
        copies.push(link.copy(alloc)?)?;
    }
    Ok(List::from_vec(copies))
}

impl Row {
    /// An equal row. Its one error is want of memory.
    pub fn copy(&self, alloc: Global) -> Result<Row, NoMemory>
        ensures { IfOk result (λ r. r ≡ self.now) }
    {
        Ok(Row {
            key: self.key,
            values: copy_values(alloc, self.values.as_slice())?,
            links: copy_links(alloc, self.links.as_slice())?,
        })
    }
}
