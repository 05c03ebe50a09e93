ghost use Rattle.std.specs.Prelude.{◌≡◌, ℕ, List};
ghost use Rattle.http_model.specs.Served.{InputEnd};
ghost use Rattle.resource_schema.specs.declared.kinds.Kind.{Kind};
ghost use Rattle.workload_command.specs.declared.counts.Counts.{Counts};
ghost use Rattle.workload_command.specs.declared.words.WorkloadWords.{WorkloadWords};
ghost use Rattle.workload_command.specs.Workloads.{IsCountedOf};
ghost use Rattle.commands.specs.Outputs.{Run};

use http_model::{exchanges_are_requests, requests_are_one, served_is_one};
use task_forms::{Entry, Task};

/// A law: where the input decides the end, it decides all that is sent, the end and how many messages were answered: two
/// runs of `pipe` over one input send the same.
pub fn output_is_one()
    ensures { (schema : List Kind) (bytes a b : List ℕ) (j k : ℕ) (one other : InputEnd) → Run schema bytes a j one → Run schema bytes b k other → (a ≡ b) × (one ≡ other) × (j ≡ k) }
{
    requests_are_one();
    exchanges_are_requests::<Task, Entry>();
    served_is_one::<Task, Entry>();
}

/// A law: the words of a workload decide what is counted, and so the line that tells it.
pub fn workload_is_one()
    ensures { (asked : WorkloadWords) (a b : Counts) → IsCountedOf asked a → IsCountedOf asked b → a ≡ b }
{
    requests_are_one();
    exchanges_are_requests::<Task, Entry>();
    output_is_one();
}
