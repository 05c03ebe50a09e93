ghost use Rattle.std.specs.Prelude.{◌≡◌, ◌↔◌, IfOk, IsTrue};

use ident_rules::{Id, List, NoMemory, Text};
use std::alloc::Global;

/// The most bytes of a text attribute.
pub const TEXT_LIMIT: usize = 65_536;

/// What values an attribute has.
#[derive(Clone, Copy, Debug, PartialEq, Eq)]
pub enum Form {
    /// Integers of 64 bits with a sign.
    Int,
    /// Texts, UTF-8, of at most `TEXT_LIMIT` bytes.
    Text,
    /// Truth values.
    Bool,
}

/// The value of an attribute.
#[derive(Debug, Drop)]
pub enum AttrValue {
    /// No value, where the attribute is nullable.
    Null,
    /// An integer.
    Int(i64),
    /// A text.
    Text(Text),
    /// A truth value.
    Bool(bool),
}

/// Where a resource stands in an order: its sort values in the order of the sort keys, and then its id.
#[derive(Drop)]
pub struct Place {
    /// The values of the sort keys' attributes.
    pub values: List<AttrValue>,
    /// The id, which decides between equal values.
    pub id: Id,
}

impl AttrValue {
    /// An equal value. Its one error is want of memory.
    pub fn copy(&self, alloc: Global) -> Result<AttrValue, NoMemory>
        ensures { IfOk result (λ v. v ≡ self.now) }
    {
        match self {
            AttrValue::Null => Ok(AttrValue::Null),
            AttrValue::Int(number) => Ok(AttrValue::Int(*number)),
            AttrValue::Text(text) => Ok(AttrValue::Text(text.copy(alloc)?)),
            AttrValue::Bool(flag) => Ok(AttrValue::Bool(*flag)),
        }
    }
}

/// Equal values in the same order. Its one error is want of memory.
pub fn copy_values(alloc: Global, values: &[AttrValue]) -> Result<List<AttrValue>, NoMemory>
    ensures { IfOk result (λ l. l ≡ values.now) }
{
    let mut copies = Vec::with_capacity(alloc, values.len())?;
    for value in values {
        copies.push(value.copy(alloc)?)?;
    }
    Ok(List::from_vec(copies))
}

/// Whether two values are equal. Takes no memory.
pub fn same_value(one: &AttrValue, other: &AttrValue) -> bool
    ensures { IsTrue result ↔ (one.now ≡ other.now) }
{
    match (one, other) {
        (AttrValue::Null, AttrValue::Null) => true,
        (AttrValue::Int(x), AttrValue::Int(y)) => x == y,
        (AttrValue::Text(x), AttrValue::Text(y)) => x.as_str() == y.as_str(),
        (AttrValue::Bool(x), AttrValue::Bool(y)) => x == y,
        _ => false,
    }
}

/// Whether two lists of values are equal. Takes no memory.
pub fn same_values(one: &[AttrValue], other: &[AttrValue]) -> bool
    ensures { IsTrue result ↔ (one.now ≡ other.now) }
{
    if one.len() != other.len() {
        return false;
    }
    let mut place = 0;
    while place < one.len() {
        if !same_value(&one[place], &other[place]) {
            return false;
        }
        place += 1;
    }
    true
}

impl Place {
    /// An equal place. Its one error is want of memory.
    pub fn copy(&self, alloc: Global) -> Result<Place, NoMemory>
        ensures { IfOk result (λ p. p ≡ self.now) }
    {
        Ok(Place {
            values: copy_values(alloc, self.values.as_slice())?,
            id: self.id,
        })
    }
}
