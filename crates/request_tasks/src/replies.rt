ghost use Rattle.std.specs.Prelude.{◌≡◌, [], Result};
ghost use Rattle.error_objects.specs.declared.codes.Code.TheVariants as code;
ghost use Rattle.error_objects.specs.declared.refusals.Refusal.{Refusal};
ghost use Rattle.error_objects.specs.ErrorReply.{error_reply};
ghost use Rattle.error_objects.specs.Refusals.{at_header, at_parameter, refusal};
ghost use Rattle.task_forms.specs.declared.tasks.Task.{Task};
ghost use Rattle.request_model.specs.Documents.{bad_document};
ghost use Rattle.request_model.specs.Plans.{not_allowed, or_reply};
ghost use Rattle.ident_rules.specs.StepErrors.{IsStop, IsStopOf};

use error_objects::{Blame, Code, Refusal, error_reply};
use http_messages::{Allow, Reply};
use ident_rules::{NoMemory, StepError, Text};
use std::alloc::Global;

/// A refusal that names nothing.
fn refusal(code: Code) -> Refusal
    ensures { result ≡ refusal code }
{
    Refusal {
        code,
        blame: Blame::Nothing,
    }
}

/// A refusal for this reason, which names nothing.
pub fn refuse(code: Code) -> StepError<Refusal>
    ensures { IsStop result (refusal code) }
{
    StepError::Because(refusal(code))
}

/// A refusal of a field of the head.
pub fn refuse_header(alloc: Global, code: Code, name: &str) -> StepError<Refusal>
    ensures { IsStop result (at_header code name.now) }
{
    match Text::from_str(alloc, name) {
        Ok(name) => StepError::Because(Refusal {
            code,
            blame: Blame::Header(name),
        }),
        Err(NoMemory) => StepError::NoMemory,
    }
}

/// A refusal of the parameter of that name (JSON:API 1.1, "Query Parameters").
pub fn refuse_parameter(name: Text) -> StepError<Refusal>
    ensures { IsStop result (at_parameter code.UnknownParameter name) }
{
    StepError::Because(Refusal {
        code: Code::UnknownParameter,
        blame: Blame::Parameter(name),
    })
}

/// A refusal of the whole body, which is no document of the kind that is asked for.
pub fn refuse_document(alloc: Global) -> StepError<Refusal>
    ensures { IsStop result (bad_document []) }
{
    match Text::from_str(alloc, "") {
        Ok(pointer) => StepError::Because(Refusal {
            code: Code::BadDocument,
            blame: Blame::Pointer(pointer),
        }),
        Err(NoMemory) => StepError::NoMemory,
    }
}

/// The reply to a refusal.
fn error_stop(alloc: Global, refusal: &Refusal) -> StepError<Reply>
    ensures { IsStop result (error_reply refusal.now) }
{
    match error_reply(alloc, refusal) {
        Ok(reply) => StepError::Because(reply),
        Err(NoMemory) => StepError::NoMemory,
    }
}

/// The reply to a refusal that names nothing.
pub fn reply_with(alloc: Global, code: Code) -> StepError<Reply>
    ensures { IsStop result (error_reply (refusal code)) }
{
    error_stop(alloc, &refusal(code))
}

/// The reply to a method that the target does not answer (RFC 9110, section 15.5.6).
pub fn not_allowed(alloc: Global, allow: Allow) -> StepError<Reply>
    ensures { IsStop result (not_allowed allow) }
{
    match error_reply(alloc, &refusal(Code::MethodNotAllowed)) {
        Ok(reply) => StepError::Because(Reply { allow, ..reply }),
        Err(NoMemory) => StepError::NoMemory,
    }
}

/// A refusal as a reply.
pub fn or_reply(alloc: Global, stop: &StepError<Refusal>) -> StepError<Reply>
    ensures { (d : Result Task Refusal) → IsStopOf stop.now d → IsStopOf result (or_reply d) }
{
    match stop {
        StepError::Because(refusal) => error_stop(alloc, refusal),
        StepError::NoMemory => StepError::NoMemory,
    }
}
