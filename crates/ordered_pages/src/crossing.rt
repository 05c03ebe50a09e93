//! Pages may be sent to other threads, and seen by them.
ghost use Rattle.std.specs.Prelude.{◌≡◌};

use crate::Pages;

fn sends<T: Send + Sync>(value: T) -> T
    ensures { result ≡ value }
{
    value
}

/// Nothing happens to pages that cross.
pub(crate) fn crosses(pages: Pages) -> Pages
    ensures { result ≡ pages }
{
    sends(pages)
}
