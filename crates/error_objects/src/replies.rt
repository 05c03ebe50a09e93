ghost use Rattle.std.specs.Prelude.{◌≡◌, IfOk, Some, None, option_map};
ghost use Rattle.serde_json.specs.View.{view};
ghost use Rattle.error_objects.specs.ErrorReply.{error_reply, error_document, error_object, source_of};
ghost use Rattle.error_objects.specs.Codes.{told};

use crate::{Blame, Code, Refusal};
use http_messages::{Allow, Content, Reply};
use ident_rules::NoMemory;
use json_forms::render;
use serde_json::{Value, json};
use std::alloc::Global;

/// What a refusal names, as a value with one member.
fn source_value(alloc: Global, blame: &Blame) -> Result<Option<Value>, NoMemory>
    ensures { IfOk result (λ o. option_map view o ≡ source_of blame.now) }
{
    match blame {
        Blame::Nothing => Ok(None),
        Blame::Pointer(text) => Ok(Some(json!(in alloc; {"pointer": text.as_str()})?)),
        Blame::Parameter(text) => Ok(Some(json!(in alloc; {"parameter": text.as_str()})?)),
        Blame::Header(text) => Ok(Some(json!(in alloc; {"header": text.as_str()})?)),
    }
}

/// The error object of a code that blames nothing.
fn bare_error(alloc: Global, code: Code) -> Result<Value, NoMemory>
    ensures { IfOk result (λ v. view v ≡ error_object (told code) None) }
{
    let mut digits = itoa::Buffer::new();
    let status = digits.format(code.status());
    let (word, title) = (code.word(), code.title());
    Ok(json!(in alloc; {"code": word, "status": status, "title": title})?)
}

/// The error object of a code and a source.
fn sourced_error(alloc: Global, code: Code, source: Value) -> Result<Value, NoMemory>
    ensures { IfOk result (λ v. view v ≡ error_object (told code) (Some (view source))) }
{
    let mut digits = itoa::Buffer::new();
    let status = digits.format(code.status());
    let (word, title) = (code.word(), code.title());
    Ok(json!(in alloc; {"code": word, "source": source, "status": status, "title": title})?)
}

fn error_object(alloc: Global, code: Code, source: Option<Value>) -> Result<Value, NoMemory>
    ensures { IfOk result (λ v. view v ≡ error_object (told code) (option_map view source)) }
{
    match source {
        None => bare_error(alloc, code),
        Some(source) => sourced_error(alloc, code, source),
    }
}

/// The document of a refusal.
fn error_document(alloc: Global, refusal: &Refusal) -> Result<Value, NoMemory>
    ensures { IfOk result (λ d. view d ≡ error_document refusal.now) }
{
    let source = source_value(alloc, &refusal.blame)?;
    let error = error_object(alloc, refusal.code, source)?;
    Ok(json!(in alloc; {"errors": [error]})?)
}

/// The reply to a refused request: the status of its code, and a document with one error object (JSON:API 1.1, "Error
/// Objects"). Its one error is want of memory.
pub fn error_reply(alloc: Global, refusal: &Refusal) -> Result<Reply, NoMemory>
    ensures { IfOk result (λ r. r ≡ error_reply refusal.now) }
{
    let document = error_document(alloc, refusal)?;
    Ok(Reply {
        status: refusal.code.status(),
        content: Content::Plain,
        location: None,
        allow: Allow::Nothing,
        body: render(alloc, &document)?,
    })
}
