ghost use Rattle.std.specs.Prelude.{◌≡◌};
ghost use Rattle.http_messages.specs.declared.limits.TheConstants.{MESSAGE_LIMIT, HEAD_LIMIT, FIELD_LIMIT, BODY_LIMIT};

use http_messages::{BODY_LIMIT, FIELD_LIMIT, HEAD_LIMIT, MESSAGE_LIMIT};

/// The limits of a connection. They have one value, which the definitions of messages and sessions use.
#[derive(Clone, Copy, Debug, PartialEq, Eq)]
pub struct Limits {
    /// The messages that a connection may bring; the reply to the last one closes it.
    pub requests_per_connection: u64,
    /// The bytes of a head, empty lines before it included.
    pub head: usize,
    /// The fields of a head.
    pub fields: usize,
    /// The bytes of a body.
    pub body: usize,
    ghost requests_limit: { requests_per_connection ≡ MESSAGE_LIMIT },
    ghost head_limit: { head ≡ HEAD_LIMIT },
    ghost fields_limit: { fields ≡ FIELD_LIMIT },
    ghost body_limit: { body ≡ BODY_LIMIT },
}

impl Limits {
    /// The one value.
    pub fn standard() -> Limits
        ensures requests { result.requests_per_connection ≡ MESSAGE_LIMIT }
        ensures head { result.head ≡ HEAD_LIMIT }
        ensures fields { result.fields ≡ FIELD_LIMIT }
        ensures body { result.body ≡ BODY_LIMIT }
    {
        Limits {
            requests_per_connection: MESSAGE_LIMIT,
            head: HEAD_LIMIT,
            fields: FIELD_LIMIT,
            body: BODY_LIMIT,
        }
    }
}
