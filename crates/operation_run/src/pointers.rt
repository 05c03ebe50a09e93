//! Where an operation of a list stands in its request.
ghost use Rattle.std.specs.Prelude.{◌≡◌, ◌++◌, IfOk};
ghost use Rattle.task_forms.specs.declared.tasks.ReplyForm.TheVariants as reply_form;
ghost use Rattle.store_model.specs.Run.{blame_under, operation_pointer, refusal_under};

use error_objects::{Blame, Refusal};
use ident_rules::{NoMemory, Text};
use std::alloc::Global;

/// A pointer in an operation of a list, seen from the request (Atomic Operations extension, "Operation Objects").
fn pointer_under(alloc: Global, number: usize, pointer: &str) -> Result<Text, NoMemory>
    ensures { IfOk result (λ t. t ≡ operation_pointer reply_form.Results number ++ pointer.now) }
{
    let mut digits = itoa::Buffer::new();
    let mut text = String::from_str(alloc, "/atomic:operations/")?;
    text.push_str(digits.format(number))?;
    text.push_str(pointer)?;
    Ok(Text::from_string(text))
}

/// What a refused operation of a list blames, seen from the request.
fn blame_under(alloc: Global, number: usize, blame: Blame) -> Result<Blame, NoMemory>
    ensures { IfOk result (λ b. b ≡ blame_under (operation_pointer reply_form.Results number) blame) }
{
    match blame {
        Blame::Nothing => Ok(Blame::Nothing),
        Blame::Pointer(text) => Ok(Blame::Pointer(pointer_under(alloc, number, text.as_str())?)),
        Blame::Parameter(text) => Ok(Blame::Parameter(text)),
        Blame::Header(text) => Ok(Blame::Header(text)),
    }
}

/// The refusal of the operation with that number, seen from the request.
pub fn refusal_under(alloc: Global, number: usize, refusal: Refusal) -> Result<Refusal, NoMemory>
    ensures { IfOk result (λ r. r ≡ refusal_under (operation_pointer reply_form.Results number) refusal) }
{
    let Refusal { code, blame } = refusal;
    let blame = blame_under(alloc, number, blame)?;
    Ok(Refusal { code, blame })
}
