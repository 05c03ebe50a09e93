use crate::NoMemory;
use std::alloc::AllocFailed;

/// Why a step gave no value: one that `?` passes on.
#[derive(Debug, Drop)]
pub enum StepError<R> {
    /// For this reason: the first refusal, or a reply that is fixed.
    Because(R),
    /// Want of memory.
    NoMemory,
}

impl<R> From<NoMemory> for StepError<R> {
    ghost use Rattle.std.specs.Prelude.{◌≡◌};
    ghost use Rattle.ident_rules.specs.declared.step_errors.StepError.TheVariants as step_error;

    ghost from_gives = { λ _ e. e ≡ step_error.NoMemory };

    fn from(_: NoMemory) -> StepError<R> {
        StepError::NoMemory
    }
}

impl<R, T: Drop> From<AllocFailed<T>> for StepError<R> {
    ghost use Rattle.std.specs.Prelude.{◌≡◌};
    ghost use Rattle.ident_rules.specs.declared.step_errors.StepError.TheVariants as step_error;

    ghost from_gives = { λ _ e. e ≡ step_error.NoMemory };

    fn from(_: AllocFailed<T>) -> StepError<R> {
        StepError::NoMemory
    }
}
