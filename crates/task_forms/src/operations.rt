use ident_rules::{Id, Key, List, Text};
use resource_schema::AttrValue;

/// The most bytes of the local id that a request gives a new resource.
pub const LID_LIMIT: usize = 64;

/// How a request names a resource (JSON:API 1.1, "Identification").
#[derive(Debug, Drop)]
pub enum Named {
    /// By its key.
    Id(Key),
    /// By the number of its type and a local id of this request.
    Lid(u32, Text),
}

impl Named {
    ghost use Rattle.std.specs.Prelude.{◌≡◌};
    ghost use Rattle.task_forms.specs.Fit.{kind_of};

    /// The number of the type that the resource is named with.
    pub fn kind(&self) -> u32
        ensures { result ≡ kind_of self.now }
    {
        match self {
            Named::Id(key) => key.kind,
            Named::Lid(kind, _) => *kind,
        }
    }
}

/// Where in the request the resource stands that an operation changes; a refusal of it is blamed there.
#[derive(Clone, Copy, Debug, PartialEq, Eq)]
pub enum Where {
    /// In the path of a plain request, so nothing is blamed.
    Plain,
    /// In the operation's `ref` (Atomic Operations extension, "Operation Objects").
    Ref,
    /// In the operation's `href`.
    Href,
    /// In the operation's `data`.
    Data,
}

/// The resource that an operation changes.
#[derive(Debug, Drop)]
pub struct Who {
    /// Which one.
    pub named: Named,
    /// Where it is named.
    pub place: Where,
}

/// A resource in a linkage (JSON:API 1.1, "Resource Linkage").
#[derive(Debug, Drop)]
pub struct Member {
    /// Which one.
    pub named: Named,
    /// Its place from 0 in a to-many linkage, and none in a to-one linkage.
    pub index: Option<u32>,
}

/// One change of the store (Atomic Operations extension, "Operation Objects"). Attributes and relationships are named
/// by their numbers in the type, in ascending order.
#[derive(Drop)]
pub enum Operation {
    /// Makes a resource.
    Create {
        /// The number of its type.
        kind: u32,
        /// The id that the client chose, or none where the server is to give one.
        id: Option<Id>,
        /// Its local id in this request, of 1 to `LID_LIMIT` bytes.
        lid: Option<Text>,
        /// A value for each attribute.
        values: List<AttrValue>,
        /// The links that are given, by relationship; the others are empty.
        links: List<(u32, List<Member>)>,
    },
    /// Changes attributes and links of a resource.
    Update {
        /// The resource.
        who: Who,
        /// The new values, by attribute.
        values: List<(u32, AttrValue)>,
        /// The new links, by relationship.
        links: List<(u32, List<Member>)>,
    },
    /// Removes a resource.
    Remove {
        /// The resource.
        who: Who,
    },
    /// Replaces the links of a relationship (JSON:API 1.1, "Updating Relationships").
    SetLinks {
        /// The resource.
        who: Who,
        /// The number of the relationship.
        rel: u32,
        /// What it leads to from then on.
        members: List<Member>,
    },
    /// Adds links to a to-many relationship, where they are not there.
    AddLinks {
        /// The resource.
        who: Who,
        /// The number of the relationship.
        rel: u32,
        /// What is added.
        members: List<Member>,
    },
    /// Drops links of a to-many relationship, where they are there.
    DropLinks {
        /// The resource.
        who: Who,
        /// The number of the relationship.
        rel: u32,
        /// What is dropped.
        members: List<Member>,
    },
}
