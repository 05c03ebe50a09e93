//! The requests of a workload, one behind another.
ghost use Rattle.std.specs.Prelude.{◌≡◌, ◌≤◌, IfOk};
ghost use Rattle.std.specs.List.{concat};
ghost use Rattle.workload_maker.specs.Requests.{requests};
ghost use Rattle.workload_command.specs.declared.words.TheConstants.{REQUEST_LIMIT};

use crate::words::WorkloadWords;
use ident_rules::NoMemory;
use std::alloc::Global;
use workload_maker::{Draws, PEOPLE, make_request};

/// The bytes of all requests that the words ask for. Its one error is want of memory.
pub fn make_input(alloc: Global, asked: WorkloadWords) -> Result<Vec<u8>, NoMemory>
    requires few { asked.requests ≤ REQUEST_LIMIT }
    ensures { IfOk result (λ v. v.items ≡ concat (requests asked.requests asked.seed)) }
{
    let mut draws = Draws::new(asked.seed);
    let mut input = Vec::new(alloc);
    for place in 0..PEOPLE + asked.requests {
        let request = make_request(alloc, &mut draws, place + 1)?;
        input.extend_from_slice(request.as_slice())?;
    }
    Ok(input)
}
