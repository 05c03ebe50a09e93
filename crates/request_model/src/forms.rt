use ident_rules::{Bytes, List, Text};
use task_forms::{Query, Who};

/// A media type (RFC 9110, section 8.3.1), as it was written: `main/sub` and its parameters.
#[derive(Debug, Drop)]
pub struct Media {
    /// The type before the slash.
    pub main: Text,
    /// The subtype behind the slash.
    pub sub: Text,
    /// The parameters, in order.
    pub params: List<Param>,
}

/// A parameter of a media type (RFC 9110, section 5.6.6).
#[derive(Debug, Drop)]
pub struct Param {
    /// Its name, as it was written.
    pub name: Text,
    /// Its value: a token, or the content of a quoted string without its quoting.
    pub value: Bytes,
}

/// What a request must have as its content.
#[derive(Clone, Copy, Debug, PartialEq, Eq)]
pub enum Need {
    /// No content is needed.
    Nothing,
    /// A JSON:API document (JSON:API 1.1, "Document Structure").
    Document,
    /// A document of the Atomic Operations extension.
    Atomic,
}

/// How the fields of a request that describe its content are judged (JSON:API 1.1, "Server Responsibilities").
#[derive(Clone, Copy, Debug, PartialEq, Eq)]
pub enum ContentVerdict {
    /// The content can be read.
    Good,
    /// Content-Type names no type that is read here.
    BadType,
    /// Content-Encoding names a coding that is not read here (RFC 9110, section 8.4).
    BadEncoding,
}

/// Where a byte stands that follows (RFC 9110, section 5.6.4).
#[derive(Clone, Copy, Debug, PartialEq, Eq)]
pub enum Quoting {
    /// Outside of quoted strings.
    Outside,
    /// In a quoted string.
    Within,
    /// In a quoted string, behind a backslash.
    Escaped,
}

/// A query parameter, by its family (JSON:API 1.1, "Query Parameters"; Cursor Pagination profile, "Query Parameters").
#[derive(Clone, Copy, Debug, PartialEq, Eq)]
pub enum Parameter {
    /// `include`.
    Include,
    /// `fields[TYPE]`.
    Fields,
    /// `sort`.
    Sort,
    /// `page[size]`.
    PageSize,
    /// `page[after]`.
    PageAfter,
    /// `page[before]`.
    PageBefore,
}

/// A query so far, while its pairs are read from left to right. The cursors are read at the end, when the sort is known.
#[derive(Drop)]
pub struct Asked {
    /// What the pairs so far ask for, but for cursors.
    pub query: Query,
    /// The text of `page[after]`, if it was there.
    pub after: Option<Text>,
    /// The text of `page[before]`, if it was there.
    pub before: Option<Text>,
}

/// The word `op` of an operation (Atomic Operations extension, "Operation Objects").
#[derive(Clone, Copy, Debug, PartialEq, Eq)]
pub enum Op {
    /// `add`.
    Add,
    /// `update`.
    Update,
    /// `remove`.
    Remove,
}

/// What `ref` or `href` of an operation is aimed at (Atomic Operations extension, "Operation Objects").
#[derive(Drop)]
pub enum Aim {
    /// Neither is there.
    Nothing,
    /// The collection of a type, by its number.
    Collection(u32),
    /// A resource.
    Resource(Who),
    /// A relationship of a resource, by its number in the resource's type.
    Relationship(Who, u32),
    /// A target that no operation has.
    Elsewhere,
}

/// What an operation does with its data (Atomic Operations extension, "Operation Objects").
#[derive(Drop)]
pub enum Act {
    /// Creates a resource, of this type where a collection was named.
    Creates(Option<u32>),
    /// Updates this resource, or else the one that the data names.
    Updates(Option<Who>),
    /// Removes a resource.
    Removes(Who),
    /// Adds members to a to-many relationship.
    Adds(Who, u32),
    /// Sets what a relationship leads to.
    Sets(Who, u32),
    /// Drops members of a to-many relationship.
    Drops(Who, u32),
}
