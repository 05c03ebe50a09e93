//! The replies to fetches (JSON:API 1.1, "Fetching Data").
ghost use Rattle.std.specs.Prelude.{◌≡◌, IfOk};
ghost use Rattle.resource_schema.specs.declared.targets.Target.TheVariants as target;
ghost use Rattle.task_forms.specs.Fit.{IsFit};
ghost use Rattle.task_forms.specs.declared.tasks.Task.TheVariants as task;
ghost use Rattle.trial_steps.specs.Runners.{TellsRead};
ghost use Rattle.store_model.specs.Answer.{fetch_reply};
ghost use Rattle.store_model.specs.Reach.{reach_fetch};
ghost use Rattle.compound_document.specs.Documents.{one_data, page_data};
ghost use Rattle.compound_document.specs.Fetches.{TellsBeside, TellsFetch};
ghost use Rattle.compound_document.specs.Gathering.{key_list, keys_in};

use crate::alone::alone_reply;
use crate::gathering::{asked_key_list, asked_keys, rows_beside};
use crate::linked::{is_many_link, link_at, linked_page, linked_row};
use crate::paths::{collection_path, related_path};
use crate::replies::{not_found, ok_reply, related_content};
use crate::texts::{linkage_text, one_text, page_text};
use http_messages::{Content, Reply};
use ident_rules::{Key, NoMemory};
use outer_ends::Work;
use page_select::{Members, select_page};
use resource_schema::{Schema, Target};
use std::alloc::Global;
use store_model::{Selected, pages_are_exact, rows_are_the_worlds};
use task_forms::{Fetch, Query};
use trial_steps::find_row;
use view_reads::{Recorder, View};
use world_cells::Row;

/// The reply with a page, and the rows that are included beside it.
fn page_reply<V: View>(
    alloc: Global,
    schema: &Schema,
    query: &Query,
    content: Content,
    path: &str,
    page: &Selected,
    recorder: &mut Recorder<V>,
    work: &mut Work,
) -> Result<Reply, NoMemory>
    ensures { TellsBeside schema.now V.cells query.now (keys_in page.now.rows) content (page_data schema.now query.now path.now page.now) recorder.old recorder.new result }
{
    let keys = asked_keys(alloc, page.rows.as_slice(), &query.include)?;
    let beside = rows_beside(
        alloc,
        schema,
        keys.as_slice(),
        &query.include,
        recorder,
        work,
    )?;
    let body = page_text(alloc, schema, query, path, page, &beside)?;
    Ok(ok_reply(content, body))
}

/// The reply with one row or null, and the rows that are included beside it.
fn one_reply<V: View>(
    alloc: Global,
    schema: &Schema,
    query: &Query,
    content: Content,
    row: &Option<Row>,
    recorder: &mut Recorder<V>,
    work: &mut Work,
) -> Result<Reply, NoMemory>
    ensures { TellsBeside schema.now V.cells query.now (key_list row.now) content (one_data schema.now query.now row.now) recorder.old recorder.new result }
{
    let keys = asked_key_list(alloc, row, &query.include)?;
    let beside = rows_beside(
        alloc,
        schema,
        keys.as_slice(),
        &query.include,
        recorder,
        work,
    )?;
    let body = one_text(alloc, schema, query, row, &beside)?;
    Ok(ok_reply(content, body))
}

/// The reply to a fetch of a collection.
fn collection_reply<V: View>(
    alloc: Global,
    schema: &Schema,
    kind: u32,
    query: &Query,
    recorder: &mut Recorder<V>,
    work: &mut Work,
) -> Result<Reply, NoMemory>
    ensures { TellsFetch schema.now V.cells query.now (target.Collection kind) recorder.old recorder.new result }
{
    rows_are_the_worlds();
    pages_are_exact();
    let members = Members::OfKind(kind);
    let sort = query.sort.as_slice();
    let page = select_page(alloc, &members, sort, &query.page, recorder, work)?;
    let path = collection_path(alloc, schema, kind)?;
    let content = Content::Page;
    page_reply(
        alloc,
        schema,
        query,
        content,
        path.as_str(),
        &page,
        recorder,
        work,
    )
}

/// The reply with a resource, and the rows that are included beside it.
fn gathered_reply<V: View>(
    alloc: Global,
    schema: &Schema,
    key: &Key,
    query: &Query,
    recorder: &mut Recorder<V>,
    work: &mut Work,
) -> Result<Reply, NoMemory>
    ensures { TellsFetch schema.now V.cells query.now (target.Resource key.now) recorder.old recorder.new result }
{
    let Some(row) = find_row(alloc, key, recorder, work)? else {
        return not_found(alloc);
    };
    let found = Some(row);
    let content = Content::Plain;
    one_reply(alloc, schema, query, content, &found, recorder, work)
}

/// The reply to a fetch of a resource.
fn resource_reply<V: View>(
    alloc: Global,
    schema: &Schema,
    key: &Key,
    query: &Query,
    recorder: &mut Recorder<V>,
    work: &mut Work,
) -> Result<Reply, NoMemory>
    ensures { TellsFetch schema.now V.cells query.now (target.Resource key.now) recorder.old recorder.new result }
{
    match &query.include {
        Some(_) => gathered_reply(alloc, schema, key, query, recorder, work),
        None => alone_reply(alloc, schema, key, query, recorder, work),
    }
}

/// The reply to a fetch of a relationship.
fn linkage_reply<V: View>(
    alloc: Global,
    schema: &Schema,
    key: &Key,
    rel: u32,
    query: &Query,
    recorder: &mut Recorder<V>,
    work: &mut Work,
) -> Result<Reply, NoMemory>
    ensures { TellsFetch schema.now V.cells query.now (target.Linkage key.now rel) recorder.old recorder.new result }
{
    let Some(row) = find_row(alloc, key, recorder, work)? else {
        return not_found(alloc);
    };
    let target = schema.target_of(row.key.kind, rel);
    let body = linkage_text(alloc, schema, target, link_at(&row, rel))?;
    Ok(ok_reply(Content::Plain, body))
}

/// The reply to a fetch of what a relationship leads to.
fn related_reply<V: View>(
    alloc: Global,
    schema: &Schema,
    key: &Key,
    rel: u32,
    query: &Query,
    recorder: &mut Recorder<V>,
    work: &mut Work,
) -> Result<Reply, NoMemory>
    ensures { TellsFetch schema.now V.cells query.now (target.Related key.now rel) recorder.old recorder.new result }
{
    rows_are_the_worlds();
    pages_are_exact();
    let Some(row) = find_row(alloc, key, recorder, work)? else {
        return not_found(alloc);
    };
    let content = related_content(schema, key.kind, rel);
    if is_many_link(link_at(&row, rel)) {
        let page = linked_page(alloc, schema, &row, rel, query, recorder, work)?;
        let path = related_path(alloc, schema, &row.key, rel)?;
        page_reply(
            alloc,
            schema,
            query,
            content,
            path.as_str(),
            &page,
            recorder,
            work,
        )
    } else {
        let linked = linked_row(alloc, schema, &row, rel, recorder, work)?;
        one_reply(alloc, schema, query, content, &linked, recorder, work)
    }
}

/// The reply to a fetch that is fit for the schema: the document of its target, with the rows that asked paths lead to, in the
/// world that stands behind the view, or the error that the resource is not there (JSON:API 1.1, "Fetching Data"; Cursor
/// Pagination profile). It looks at no more than `reach_fetch` names, and writes nothing. Its one error is want of memory.
pub fn fetch_reply<V: View>(
    alloc: Global,
    schema: &Schema,
    fetch: &Fetch,
    recorder: &mut Recorder<V>,
    work: &mut Work,
) -> Result<Reply, NoMemory>
    requires fit { IsFit schema.now (task.Fetch fetch.now) }
    ensures { IfOk result (λ r. TellsRead schema.now V.cells (λ w. reach_fetch schema.now w fetch.now) (λ now. r ≡ fetch_reply schema.now now fetch.now) recorder.old recorder.new) }
{
    let query = &fetch.query;
    match fetch.target {
        Target::Collection(kind) => collection_reply(alloc, schema, kind, query, recorder, work),
        Target::Resource(key) => resource_reply(alloc, schema, &key, query, recorder, work),
        Target::Related(key, rel) => {
            related_reply(alloc, schema, &key, rel, query, recorder, work)
        }
        Target::Linkage(key, rel) => {
            linkage_reply(alloc, schema, &key, rel, query, recorder, work)
        }
        Target::Operations => not_found(alloc),
    }
}
