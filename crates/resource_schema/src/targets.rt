use ident_rules::Key;

/// What the path of a request names (JSON:API 1.1, "URL Design" of its recommendations; the operations endpoint is
/// that of the Atomic Operations extension).
#[derive(Clone, Copy)]
pub enum Target {
    /// The resources of a type.
    Collection(u32),
    /// One resource.
    Resource(Key),
    /// What one relationship of a resource leads to, by the relationship's number.
    Related(Key, u32),
    /// One relationship of a resource itself, its linkage.
    Linkage(Key, u32),
    /// The endpoint of operation lists.
    Operations,
}
