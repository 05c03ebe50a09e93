//! A session over the requests of a workload.
ghost use Rattle.std.specs.Prelude.{◌≡◌, ◌≤◌, [], IfOk, IfSome};
ghost use Rattle.world_cells.specs.World.{empty_world};
ghost use Rattle.store_model.specs.StoreMeaning.{meaning_of};
ghost use Rattle.commit_core.specs.Standing.{StandsFor};
ghost use Rattle.workload_command.specs.declared.words.TheConstants.{REQUEST_LIMIT};
ghost use Rattle.workload_command.specs.Tallies.{capped, tally_of};
ghost use Rattle.task_run.specs.Subjects.{subject_kind};
ghost use Rattle.workload_command.specs.Workloads.{IsCounted, IsCountedOf};

use crate::blog::blog_schema;
use crate::counts::Counts;
use crate::inputs::make_input;
use crate::tallies::TallyDesk;
use crate::words::WorkloadWords;
use http_messages::SessionEnd;
use ident_rules::NoMemory;
use local_desk::LocalDesk;
use outer_ends::{MemorySink, MemorySource};
use request_tasks::LentTasks;
use resource_schema::Schema;
use session_engine::{Limits, drive_counted};
use std::alloc::Global;
use task_run::JsonSubject;

/// The most bytes of one read of the input.
const PIECE: usize = 65_536;

/// A desk on a store of its own over a schema, which begins empty and has counted nothing.
fn own_desk(alloc: Global, schema: &Schema) -> Result<TallyDesk<LocalDesk<JsonSubject>>, NoMemory>
    ensures subject { IfOk result (λ d. d.desk.subject ≡ schema.now) }
    ensures begins { IfOk result (λ d. StandsFor subject_kind meaning_of d.desk 0 empty_world []) }
    ensures tally { IfOk result (λ d. d.tally ≡ capped (tally_of [])) }
{
    let desk = LocalDesk::new(alloc, JsonSubject::new(schema.copy(alloc)?))?;
    Ok(TallyDesk::new(desk))
}

/// Serves the input as one connection over such a desk. What was counted, where the session ended by closing; for whole requests it
/// ends otherwise only for want of memory.
fn serve_input(
    alloc: Global,
    schema: &Schema,
    desk: &mut TallyDesk<LocalDesk<JsonSubject>>,
    input: Vec<u8>,
) -> Option<Counts>
    requires subject { desk.old.desk.subject ≡ schema.now }
    requires begins { StandsFor subject_kind meaning_of desk.old.desk 0 empty_world [] }
    requires tally { desk.old.tally ≡ capped (tally_of []) }
    ensures { IfSome result (IsCounted schema.now input.items) }
{
    let mut source = MemorySource::new(input, PIECE, Vec::new(alloc));
    let mut sink = MemorySink::new(alloc, Vec::new(alloc));
    let planner = LentTasks { schema };
    let driven = drive_counted(
        alloc,
        Limits::standard(),
        &planner,
        &mut source,
        &mut sink,
        desk,
    );
    match driven.end {
        SessionEnd::Closed => Some(Counts {
            requests: driven.answered,
            tally: desk.tally,
            entries: driven.entries,
            bytes: sink.written().len() as u64,
        }),
        _ => None,
    }
}

/// Serves the requests that the words ask for. What was counted, where the session ended by closing.
pub fn run_workload(alloc: Global, asked: WorkloadWords) -> Result<Option<Counts>, NoMemory>
    requires few { asked.requests ≤ REQUEST_LIMIT }
    ensures { IfOk result (λ o. IfSome o (IsCountedOf asked)) }
{
    let schema = blog_schema(alloc)?;
    let input = make_input(alloc, asked)?;
    let mut desk = own_desk(alloc, &schema)?;
    Ok(serve_input(alloc, &schema, &mut desk, input))
}
