//! The replies to operations that were done.
ghost use Rattle.std.specs.Prelude.{◌≡◌, ◌<◌, IfOk, false, true, List, option_copied};
ghost use Rattle.serde_json.specs.Data.{Data};
ghost use Rattle.store_model.specs.Answer.{created_reply, empty_reply, results_reply, updated_reply};
ghost use Rattle.store_model.specs.Laws.{is_list_form};
ghost use Rattle.operation_run.specs.Texts.{IsDraftOf, list_data};
ghost use Rattle.operation_run.specs.Replies.{one_reply};

use crate::bodies::row_body;
use http_messages::{Allow, Content, Reply};
use ident_rules::{Bytes, NoMemory};
use json_texts::TextDraft;
use resource_objects::resource_path;
use resource_schema::Schema;
use std::alloc::Global;
use task_forms::ReplyForm;
use world_cells::Row;

/// The reply without a document.
fn empty_reply(alloc: Global) -> Reply
    ensures { result ≡ empty_reply }
{
    Reply {
        status: 204,
        content: Content::Nothing,
        location: None,
        allow: Allow::Nothing,
        body: Bytes::from_vec(Vec::new(alloc)),
    }
}

/// The reply to a creation (JSON:API 1.1, "Creating Resources").
fn created_reply(alloc: Global, schema: &Schema, row: Option<&Row>) -> Result<Reply, NoMemory>
    ensures { IfOk result (λ r. r ≡ created_reply schema.now (option_copied row.entry)) }
{
    let location = match row {
        Some(row) => Some(resource_path(alloc, schema, &row.key)?),
        None => None,
    };
    Ok(Reply {
        status: 201,
        content: Content::Plain,
        location,
        allow: Allow::Nothing,
        body: row_body(alloc, schema, row)?,
    })
}

/// The reply to an update (JSON:API 1.1, "Updating Resources").
fn updated_reply(alloc: Global, schema: &Schema, row: Option<&Row>) -> Result<Reply, NoMemory>
    ensures { IfOk result (λ r. r ≡ updated_reply schema.now (option_copied row.entry)) }
{
    Ok(Reply {
        status: 200,
        content: Content::Plain,
        location: None,
        allow: Allow::Nothing,
        body: row_body(alloc, schema, row)?,
    })
}

/// The reply to the one operation of a plain request, with its row where it is a creation or an update.
pub fn one_reply(
    alloc: Global,
    schema: &Schema,
    form: ReplyForm,
    row: Option<&Row>,
) -> Result<Reply, NoMemory>
    requires plain { is_list_form form ≡ false }
    ensures { IfOk result (λ r. r ≡ one_reply schema.now form (option_copied row.entry)) }
{
    match form {
        ReplyForm::Created => created_reply(alloc, schema, row),
        ReplyForm::Updated => updated_reply(alloc, schema, row),
        ReplyForm::Empty => Ok(empty_reply(alloc)),
        ReplyForm::Results => unreachable!(),
    }
}

/// The reply to a list that created something.
fn full_reply(later: bool, results: TextDraft) -> Result<Reply, NoMemory>
    ensures reply { IfOk result (λ r. (done : List Data) → IsDraftOf results later done → r ≡ results_reply true (list_data done)) }
    ensures status { IfOk result (λ r. r.status < 400) }
{
    let mut text = results;
    text.add(b"]}");
    Ok(Reply {
        status: 200,
        content: Content::Atomic,
        location: None,
        allow: Allow::Nothing,
        body: text.finish()?,
    })
}

/// The reply to a list: its results where it created something, else nothing (Atomic Operations extension, "Processing
/// Results").
pub fn results_reply(
    alloc: Global,
    created: bool,
    later: bool,
    results: TextDraft,
) -> Result<Reply, NoMemory>
    ensures reply { IfOk result (λ r. (done : List Data) → IsDraftOf results later done → r ≡ results_reply created (list_data done)) }
    ensures status { IfOk result (λ r. r.status < 400) }
{
    if created {
        full_reply(later, results)
    } else {
        Ok(empty_reply(alloc))
    }
}
