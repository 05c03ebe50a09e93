use ident_rules::{List, Name, Text};
use resource_schema::Place;
use std::alloc::Global;

/// The most resources that a page shows where no size is asked for.
pub const DEFAULT_PAGE_SIZE: u16 = 50;

/// The greatest size of a page that may be asked for.
pub const PAGE_SIZE_LIMIT: u16 = 1_000;

/// The most keys of an order.
pub const SORT_LIMIT: usize = 8;

/// The most paths to include.
pub const PATH_LIMIT: usize = 16;

/// The most relationships of a path to include.
pub const PATH_LENGTH_LIMIT: usize = 8;

/// A path of relationships from the primary resources on (JSON:API 1.1, "Inclusion of Related Resources").
#[derive(Debug, Drop)]
pub struct Path {
    /// The numbers of the relationships, each in the type that is reached by then.
    pub rels: List<u32>,
}

/// One key of an order (JSON:API 1.1, "Sorting").
#[derive(Clone, Copy, Debug, PartialEq, Eq)]
pub struct SortKey {
    /// The number of the attribute.
    pub attribute: u32,
    /// Whether greater values come first.
    pub descending: bool,
}

/// Which part of an order is asked for (Cursor Pagination profile).
#[derive(Drop)]
pub struct Page {
    /// The most resources that it shows.
    pub size: u16,
    /// Only places behind this one, where it is given.
    pub after: Option<Place>,
    /// Only places before this one, where it is given. Both may be.
    pub before: Option<Place>,
}

/// What the query of a fetch says (JSON:API 1.1, "Query Parameters").
#[derive(Drop)]
pub struct Query {
    /// The decoded pairs, the cursors among them, in their order. The links of a page repeat all but the cursors.
    pub pairs: List<(Text, Text)>,
    /// The paths to include, where `include` is given.
    pub include: Option<List<Path>>,
    /// The fields to show, by type ("Sparse Fieldsets"); a type that is not named shows all.
    pub fields: List<(u32, List<Name>)>,
    /// The order's keys; the id decides last.
    pub sort: List<SortKey>,
    /// The part of the order.
    pub page: Page,
}

impl Query {
    ghost use Rattle.std.specs.Prelude.{◌≡◌};
    ghost use Rattle.task_forms.specs.Queries.{no_query};

    /// The query that asks for nothing: a page of `DEFAULT_PAGE_SIZE` resources from the first on, in the order of their ids, each with all
    /// its fields. Takes no memory.
    pub fn none(alloc: Global) -> Query
        ensures { result ≡ no_query }
    {
        Query {
            pairs: List::from_vec(Vec::new(alloc)),
            include: None,
            fields: List::from_vec(Vec::new(alloc)),
            sort: List::from_vec(Vec::new(alloc)),
            page: Page {
                size: DEFAULT_PAGE_SIZE,
                after: None,
                before: None,
            },
        }
    }
}
