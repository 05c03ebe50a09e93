ghost use Rattle.std.specs.Prelude.{codes, not};
ghost use Rattle.error_objects.specs.declared.codes.Code.TheVariants as code;
ghost use Rattle.error_objects.specs.Refusals.{at_header};
ghost use Rattle.request_model.specs.Negotiation.{acceptable, content};
ghost use Rattle.request_model.specs.Plans.{judged, task_of, task_or_reply};
ghost use Rattle.request_model.specs.Results.{err_if};
ghost use Rattle.request_model.specs.Targets.{allow_of, need_of};
ghost use Rattle.ident_rules.specs.StepErrors.{Gives};

use crate::changes::change_without_query;
use crate::fetches::{fetch_of, is_fetch};
use crate::replies::{not_allowed, or_reply, refuse_header, reply_with};
use error_objects::{Code, Refusal};
use http_messages::{Field, Message, Reply};
use ident_rules::StepError;
use media_types::{ContentVerdict, accept_ok, content_ok};
use resource_schema::{Schema, Target};
use route_table::{allow_of, allows, find_target, need_of};
use std::alloc::Global;
use task_forms::Task;
use uri_texts::split_target;

/// The refusal of fields that describe the content wrongly (JSON:API 1.1, "Server Responsibilities").
fn judged(alloc: Global, how: ContentVerdict) -> Result<(), StepError<Refusal>>
    ensures { Gives result (judged how) }
{
    match how {
        ContentVerdict::Good => Ok(()),
        ContentVerdict::BadType => Err(refuse_header(
            alloc,
            Code::UnsupportedMediaType,
            "Content-Type",
        )),
        ContentVerdict::BadEncoding => Err(refuse_header(
            alloc,
            Code::UnsupportedMediaType,
            "Content-Encoding",
        )),
    }
}

/// The fields describe content that can be read.
fn check_content(
    alloc: Global,
    schema: &Schema,
    message: &Message,
    target: &Target,
) -> Result<(), StepError<Refusal>>
    ensures { Gives result (judged (content message.now.fields (need_of (allow_of schema.now target.now) message.now.method))) }
{
    let need = need_of(allow_of(schema, target), message.method.as_str());
    judged(alloc, content_ok(alloc, message.fields.as_slice(), need)?)
}

/// The fields accept a type that is given (RFC 9110, section 12.5.1).
fn check_accept(alloc: Global, fields: &[Field]) -> Result<(), StepError<Refusal>>
    ensures { Gives result (err_if (not (acceptable fields.now)) (at_header code.NotAcceptable (codes "Accept"))) }
{
    if accept_ok(alloc, fields)? {
        Ok(())
    } else {
        Err(refuse_header(alloc, Code::NotAcceptable, "Accept"))
    }
}

/// Negotiation, then the query, then the body.
fn task_of(
    alloc: Global,
    schema: &Schema,
    message: &Message,
    target: &Target,
    query: &str,
) -> Result<Task, StepError<Refusal>>
    ensures { Gives result (task_of schema.now message.now target.now query.now) }
{
    check_content(alloc, schema, message, target)?;
    check_accept(alloc, message.fields.as_slice())?;
    if is_fetch(message.method.as_str()) {
        fetch_of(alloc, schema, target, query)
    } else {
        change_without_query(alloc, schema, message, target, query)
    }
}

/// Target, path and method, then the rest.
pub fn task_or_reply(
    alloc: Global,
    schema: &Schema,
    message: &Message,
) -> Result<Task, StepError<Reply>>
    ensures { Gives result (task_or_reply schema.now message.now) }
{
    let Some((path, query)) = split_target(message.target.as_str()) else {
        return Err(reply_with(alloc, Code::BadTarget));
    };
    let Some(target) = find_target(alloc, schema, path)? else {
        return Err(reply_with(alloc, Code::NotFound));
    };
    let allow = allow_of(schema, &target);
    if !allows(allow, message.method.as_str()) {
        return Err(not_allowed(alloc, allow));
    }
    match task_of(alloc, schema, message, &target, query) {
        Ok(task) => Ok(task),
        Err(stop) => Err(or_reply(alloc, &stop)),
    }
}
