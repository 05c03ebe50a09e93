ghost use Rattle.request_model.specs.SchemaFile.{fault as fault_at};
ghost use Rattle.schema_file.specs.Finds.{IsFault};

use ident_rules::{NoMemory, Text};
use resource_schema::Why;
use std::alloc::{AllocFailed, Global};

/// Why there is no schema.
#[derive(Debug, Drop)]
pub enum SchemaEnd {
    /// The first fault, in the order in which the value is walked.
    Fault {
        /// The pointer of the offending value (RFC 6901), or `/` for the value as a whole.
        place: Text,
        /// What is wrong there.
        why: Why,
    },
    /// Want of memory.
    NoMemory,
}

impl From<NoMemory> for SchemaEnd {
    ghost use Rattle.std.specs.Prelude.{◌≡◌};
    ghost use Rattle.schema_file.specs.declared.faults.SchemaEnd.TheVariants as end;

    ghost from_gives = { λ _ e. e ≡ end.NoMemory };

    fn from(_: NoMemory) -> SchemaEnd {
        SchemaEnd::NoMemory
    }
}

impl<T: Drop> From<AllocFailed<T>> for SchemaEnd {
    ghost use Rattle.std.specs.Prelude.{◌≡◌};
    ghost use Rattle.schema_file.specs.declared.faults.SchemaEnd.TheVariants as end;

    ghost from_gives = { λ _ e. e ≡ end.NoMemory };

    fn from(_: AllocFailed<T>) -> SchemaEnd {
        SchemaEnd::NoMemory
    }
}

/// The fault at that place.
pub fn fault(alloc: Global, place: &str, why: Why) -> SchemaEnd
    ensures { IsFault result (fault_at place.now why) }
{
    match Text::from_str(alloc, place) {
        Ok(place) => SchemaEnd::Fault { place, why },
        Err(NoMemory) => SchemaEnd::NoMemory,
    }
}
