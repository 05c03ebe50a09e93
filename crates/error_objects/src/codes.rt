ghost use Rattle.std.specs.Prelude.{◌≡◌};
ghost use Rattle.error_objects.specs.Codes.{told};

/// Why a request is refused. Each is an application-specific code with a status and a title of its own (JSON:API 1.1,
/// "Error Objects"; the statuses are those of RFC 9110, section 15, and RFC 6585).
#[derive(Clone, Copy, Debug, PartialEq, Eq)]
pub enum Code {
    /// The bytes are no HTTP message, or one that contradicts itself (RFC 9112).
    BadMessage,
    /// The head of a message is too large, or has too many fields.
    HeadTooLarge,
    /// The content of a message is too large.
    BodyTooLarge,
    /// A transfer coding that is not served (RFC 9112, section 6.1).
    UnknownCoding,
    /// An expectation other than `100-continue` (RFC 9110, section 10.1.1).
    UnknownExpectation,
    /// The request target has no path (RFC 9112, section 3.2).
    BadTarget,
    /// There is no such resource, type or relationship.
    NotFound,
    /// The target does not answer this method (RFC 9110, section 9.1).
    MethodNotAllowed,
    /// The content is of no media type that is read here (JSON:API 1.1, "Server Responsibilities").
    UnsupportedMediaType,
    /// No media type that the client accepts is sent here (JSON:API 1.1, "Server Responsibilities").
    NotAcceptable,
    /// A query parameter that the target does not know (JSON:API 1.1, "Query Parameters").
    UnknownParameter,
    /// A query parameter that stands twice.
    RepeatedParameter,
    /// A path of `include` that is none of the primary type (JSON:API 1.1, "Inclusion of Related Resources").
    BadInclude,
    /// A field of `fields[TYPE]` that the type has not (JSON:API 1.1, "Sparse Fieldsets").
    BadFields,
    /// A sort key that is not served (JSON:API 1.1, "Sorting").
    BadSort,
    /// A page size out of range (Cursor Pagination profile).
    BadPageSize,
    /// A text that is no cursor of this order (Cursor Pagination profile, "Invalid Parameter Value Error").
    BadCursor,
    /// The content is no JSON text (RFC 8259).
    BadJson,
    /// The content is JSON and no document of the kind that is asked for (JSON:API 1.1, "Document Structure").
    BadDocument,
    /// A list of more operations than are served.
    TooManyOperations,
    /// The type of a resource is not that of the target (JSON:API 1.1, "409 Conflict").
    TypeMismatch,
    /// The id of a resource is not that of the target (JSON:API 1.1, "409 Conflict").
    IdMismatch,
    /// The type takes no id from a client (JSON:API 1.1, "Client-Generated IDs").
    ClientIdUnsupported,
    /// A client's id that breaks the rule of ids.
    BadId,
    /// A client's id of digits alone, which the server gives.
    ReservedId,
    /// A member that is no field of the type.
    UnknownField,
    /// A value that the attribute does not take.
    BadValue,
    /// A new resource without a value for an attribute that must have one.
    MissingField,
    /// Linkage to another type than the relationship leads to.
    WrongTarget,
    /// A local id that is bound already in this request.
    LidBound,
    /// A local id that is not bound in this request.
    UnknownLid,
    /// A client's id that a resource of the type has already (JSON:API 1.1, "409 Conflict").
    IdExists,
    /// The type has no further id to give.
    IdsEnded,
    /// Linkage to a resource that does not exist.
    RelatedNotFound,
    /// A to-many relationship of more members than are served.
    TooManyMembers,
    /// A resource that another one still links to.
    StillReferenced,
}

impl Code {
    /// The status code of the reply.
    pub fn status(self) -> u16
        ensures { result ≡ (told self).status }
    {
        match self {
            Code::BadMessage => 400,
            Code::HeadTooLarge => 431,
            Code::BodyTooLarge => 413,
            Code::UnknownCoding => 501,
            Code::UnknownExpectation => 417,
            Code::BadTarget => 400,
            Code::NotFound => 404,
            Code::MethodNotAllowed => 405,
            Code::UnsupportedMediaType => 415,
            Code::NotAcceptable => 406,
            Code::UnknownParameter => 400,
            Code::RepeatedParameter => 400,
            Code::BadInclude => 400,
            Code::BadFields => 400,
            Code::BadSort => 400,
            Code::BadPageSize => 400,
            Code::BadCursor => 400,
            Code::BadJson => 400,
            Code::BadDocument => 400,
            Code::TooManyOperations => 400,
            Code::TypeMismatch => 409,
            Code::IdMismatch => 409,
            Code::ClientIdUnsupported => 403,
            Code::BadId => 422,
            Code::ReservedId => 403,
            Code::UnknownField => 422,
            Code::BadValue => 422,
            Code::MissingField => 422,
            Code::WrongTarget => 422,
            Code::LidBound => 409,
            Code::UnknownLid => 404,
            Code::IdExists => 409,
            Code::IdsEnded => 403,
            Code::RelatedNotFound => 404,
            Code::TooManyMembers => 422,
            Code::StillReferenced => 409,
        }
    }

    /// The code as a word.
    pub fn word(self) -> &'static str
        ensures { result.now ≡ (told self).word }
    {
        match self {
            Code::BadMessage => "bad-message",
            Code::HeadTooLarge => "head-too-large",
            Code::BodyTooLarge => "body-too-large",
            Code::UnknownCoding => "unknown-coding",
            Code::UnknownExpectation => "unknown-expectation",
            Code::BadTarget => "bad-target",
            Code::NotFound => "not-found",
            Code::MethodNotAllowed => "method-not-allowed",
            Code::UnsupportedMediaType => "unsupported-media-type",
            Code::NotAcceptable => "not-acceptable",
            Code::UnknownParameter => "unknown-parameter",
            Code::RepeatedParameter => "repeated-parameter",
            Code::BadInclude => "bad-include",
            Code::BadFields => "bad-fields",
            Code::BadSort => "bad-sort",
            Code::BadPageSize => "bad-page-size",
            Code::BadCursor => "bad-cursor",
            Code::BadJson => "bad-json",
            Code::BadDocument => "bad-document",
            Code::TooManyOperations => "too-many-operations",
            Code::TypeMismatch => "type-mismatch",
            Code::IdMismatch => "id-mismatch",
            Code::ClientIdUnsupported => "client-id-unsupported",
            Code::BadId => "bad-id",
            Code::ReservedId => "reserved-id",
            Code::UnknownField => "unknown-field",
            Code::BadValue => "bad-value",
            Code::MissingField => "missing-field",
            Code::WrongTarget => "wrong-target",
            Code::LidBound => "lid-bound",
            Code::UnknownLid => "unknown-lid",
            Code::IdExists => "id-exists",
            Code::IdsEnded => "ids-ended",
            Code::RelatedNotFound => "related-not-found",
            Code::TooManyMembers => "too-many-members",
            Code::StillReferenced => "still-referenced",
        }
    }

    /// The title, which is the same in every error of the code.
    pub fn title(self) -> &'static str
        ensures { result.now ≡ (told self).title }
    {
        match self {
            Code::BadMessage => "Malformed message",
            Code::HeadTooLarge => "Head too large",
            Code::BodyTooLarge => "Body too large",
            Code::UnknownCoding => "Unknown transfer coding",
            Code::UnknownExpectation => "Unknown expectation",
            Code::BadTarget => "Malformed request target",
            Code::NotFound => "Not found",
            Code::MethodNotAllowed => "Method not allowed",
            Code::UnsupportedMediaType => "Unsupported media type",
            Code::NotAcceptable => "Not acceptable",
            Code::UnknownParameter => "Unknown parameter",
            Code::RepeatedParameter => "Repeated parameter",
            Code::BadInclude => "Unsupported include",
            Code::BadFields => "Unsupported fields",
            Code::BadSort => "Unsupported sort",
            Code::BadPageSize => "Unsupported page size",
            Code::BadCursor => "Malformed cursor",
            Code::BadJson => "Malformed JSON",
            Code::BadDocument => "Malformed document",
            Code::TooManyOperations => "Too many operations",
            Code::TypeMismatch => "Type does not match",
            Code::IdMismatch => "Id does not match",
            Code::ClientIdUnsupported => "Client ids not supported",
            Code::BadId => "Malformed id",
            Code::ReservedId => "Reserved id",
            Code::UnknownField => "Unknown field",
            Code::BadValue => "Unsupported value",
            Code::MissingField => "Missing field",
            Code::WrongTarget => "Wrong target type",
            Code::LidBound => "Local id already bound",
            Code::UnknownLid => "Unknown local id",
            Code::IdExists => "Id already exists",
            Code::IdsEnded => "No ids left",
            Code::RelatedNotFound => "Related resource not found",
            Code::TooManyMembers => "Too many members",
            Code::StillReferenced => "Resource is still referenced",
        }
    }
}
