//! The schema of a workload.
ghost use Rattle.std.specs.Prelude.{◌≡◌, IfOk, Ok};
ghost use Rattle.request_model.specs.SchemaFile.{schema_of_text};
ghost use Rattle.workload_command.specs.Blog.{blog_text};

use ident_rules::NoMemory;
use json_forms::parse;
use resource_schema::Schema;
use schema_file::{SchemaEnd, read_schema};
use std::alloc::Global;

/// The text of the schema: articles, comments and people.
fn blog_text() -> &'static str
    ensures { result.now ≡ blog_text }
{
    "{\"types\":{\"articles\":{\"attributes\":{\"draft\":{\"type\":\"bool\",\"nullable\":true},\"title\":{\"type\":\"text\"},\"views\":{\"type\":\"int\",\"default\":0}},\"relationships\":{\"author\":{\"kind\":\"one\",\"target\":\"people\"},\"comments\":{\"kind\":\"many\",\"target\":\"comments\"}}},\"comments\":{\"attributes\":{\"text\":{\"type\":\"text\"}},\"relationships\":{\"author\":{\"kind\":\"one\",\"target\":\"people\"}}},\"people\":{\"client-ids\":true,\"attributes\":{\"name\":{\"type\":\"text\"}}}}}"
}

/// The schema of a workload. Its one error is want of memory.
pub fn blog_schema(alloc: Global) -> Result<Schema, NoMemory>
    ensures { IfOk result (λ s. schema_of_text blog_text ≡ Ok s) }
{
    let Some(value) = parse(alloc, blog_text().as_bytes())? else {
        unreachable!()
    };
    match read_schema(alloc, &value) {
        Ok(schema) => Ok(schema),
        Err(SchemaEnd::NoMemory) => Err(NoMemory),
        Err(SchemaEnd::Fault { .. }) => unreachable!(),
    }
}
