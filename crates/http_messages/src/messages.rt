use ident_rules::{Bytes, List, Text};

/// A field of a message: its name as it was written, and its value without the spaces and tabs
/// around it (RFC 9110, section 5).
#[derive(Debug, Drop)]
pub struct Field {
    pub name: Text,
    pub value: Bytes,
}

/// A request: the parts of its head and its body (RFC 9112, sections 2 and 3).
#[derive(Debug, Drop)]
pub struct Message {
    /// The method, a token of this case.
    pub method: Text,
    /// The request target, of visible ASCII alone.
    pub target: Text,
    /// The version is HTTP/1 and this digit: 0 or 1.
    pub minor: u8,
    /// The fields of the head in their order. Trailer fields are not kept.
    pub fields: List<Field>,
    /// The content, with no trace of how it was framed.
    pub body: Bytes,
}

/// What a reply's body is, which its Content-Type tells.
#[derive(Clone, Copy, Debug, PartialEq, Eq)]
pub enum Content {
    /// No body.
    Nothing,
    /// A JSON:API document.
    Plain,
    /// A JSON:API document of the Cursor Pagination profile.
    Page,
    /// A JSON:API document of the Atomic Operations extension.
    Atomic,
}

/// The methods that a target answers, which Allow tells where another one was asked for
/// (RFC 9110, section 10.2.1).
#[derive(Clone, Copy, Debug, PartialEq, Eq)]
pub enum Allow {
    /// No field Allow.
    Nothing,
    /// A collection: GET, HEAD and POST.
    Collection,
    /// A resource: GET, HEAD, PATCH and DELETE.
    Resource,
    /// Related resources: GET and HEAD.
    Related,
    /// A relationship to one: GET, HEAD and PATCH.
    One,
    /// A relationship to many: GET, HEAD, PATCH, POST and DELETE.
    Many,
    /// The operations: POST.
    Operations,
}

/// What ends a session in place of a reply.
#[derive(Clone, Copy, Debug, PartialEq, Eq)]
pub enum Stop {
    /// The history takes no further entry: 507.
    Worn,
    /// The store failed: 500.
    Store,
    /// The feed of another server failed: 502.
    Feed,
}

/// A reply before it is written.
#[derive(Debug, Drop)]
pub struct Reply {
    /// The status code. One without a reason phrase of this server is written without one.
    pub status: u16,
    /// What the body is.
    pub content: Content,
    /// The value of Location, if there is one.
    pub location: Option<Text>,
    /// The methods that Allow names, if it is there.
    pub allow: Allow,
    /// The content. It is not written to a HEAD request, and not where the status is 204.
    pub body: Bytes,
}
