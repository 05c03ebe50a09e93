use ident_rules::Text;

/// What is wrong with a schema file. Each is printed as one word.
#[derive(Clone, Copy, Debug, PartialEq, Eq)]
pub enum Why {
    /// `json`: the file is no JSON text.
    NoJson,
    /// `object`: a value that must be an object is none.
    NotObject,
    /// `empty`: there is no type at all.
    Empty,
    /// `limit`: there are more types than `KIND_LIMIT`, or of one type more attributes than `ATTRIBUTE_LIMIT` or more
    /// relationships than `RELATIONSHIP_LIMIT`.
    Limit,
    /// `name`: a type's or a field's name breaks the rule of names.
    BadName,
    /// `reserved`: a name is reserved.
    Reserved,
    /// `shared`: a relationship has the name of an attribute of its type.
    Shared,
    /// `flag`: `client-ids` or `nullable` is no Boolean.
    BadFlag,
    /// `type`: an attribute's `type` is absent or none of `int`, `text` and `bool`.
    BadType,
    /// `default`: the default is no value of the attribute.
    BadDefault,
    /// `kind`: a relationship's `kind` is absent or neither `one` nor `many`.
    BadKind,
    /// `target`: a relationship's `target` is absent or no type of the file.
    BadTarget,
}

/// The first fault of a schema file.
#[derive(Debug, Drop)]
pub struct SchemaFault {
    /// The pointer of the offending value (RFC 6901), or `/` for the file as a whole.
    pub place: Text,
    /// What is wrong there.
    pub why: Why,
}
