ghost use Rattle.std.specs.Prelude.{◌≡◌, IfOk};
ghost use Rattle.std.specs.Str.{bytes_eq};
ghost use Rattle.request_model.specs.Cursors.{cursor_text};

use crate::writing::write_cursor;
use ident_rules::NoMemory;
use resource_schema::Place;
use std::alloc::Global;

/// Whether a text is the cursor of the place.
pub fn is_cursor_of(alloc: Global, place: &Place, text: &str) -> Result<bool, NoMemory>
    ensures { IfOk result (λ b. b ≡ bytes_eq (cursor_text place.now) text.now) }
{
    let cursor = write_cursor(alloc, place)?;
    Ok(cursor.as_str() == text)
}
