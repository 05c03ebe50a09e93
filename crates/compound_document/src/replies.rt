//! Replies.
ghost use Rattle.std.specs.Prelude.{◌≡◌, if◌then◌else◌, IfOk};
ghost use Rattle.error_objects.specs.declared.codes.Code.TheVariants as code;
ghost use Rattle.error_objects.specs.ErrorReply.{error_reply};
ghost use Rattle.error_objects.specs.Refusals.{refusal};
ghost use Rattle.http_messages.specs.declared.messages.Content.TheVariants as content;
ghost use Rattle.resource_schema.specs.Kinds.{is_many};
ghost use Rattle.compound_document.specs.Fetches.{reply_with};

use error_objects::{Blame, Code, Refusal, error_reply};
use http_messages::{Allow, Content, Reply};
use ident_rules::{Bytes, NoMemory};
use resource_schema::Schema;
use std::alloc::Global;

/// The reply with a document.
pub fn ok_reply(content: Content, body: Bytes) -> Reply
    ensures { result ≡ reply_with content body }
{
    Reply {
        status: 200,
        content,
        location: None,
        allow: Allow::Nothing,
        body,
    }
}

/// The reply that a resource is not there.
pub fn not_found(alloc: Global) -> Result<Reply, NoMemory>
    ensures { IfOk result (λ r. r ≡ error_reply (refusal code.NotFound)) }
{
    let refusal = Refusal {
        code: Code::NotFound,
        blame: Blame::Nothing,
    };
    error_reply(alloc, &refusal)
}

/// What the document of related resources is: a page of those of a to-many relationship.
pub fn related_content(schema: &Schema, kind: u32, rel: u32) -> Content
    ensures { result ≡ (if is_many schema.now kind rel then content.Page else content.Plain) }
{
    if schema.is_many(kind, rel) {
        Content::Page
    } else {
        Content::Plain
    }
}
