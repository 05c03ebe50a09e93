use outer_ends::Work;
use world_cells::{Cell, CellKey, Span};

/// A finite map of cells, which contracts see as the function from keys to what stands there.
///
/// No call takes memory. Each adds one to `work`.
pub trait View: Drop {
    ghost use Rattle.std.specs.Prelude.{◌≡◌};
    ghost use Rattle.std.specs.Option.{option_copied, option_map};
    ghost use Rattle.world_cells.specs.Reads.{Cells, IsFirstIn, IsLastIn};
    ghost use Rattle.view_reads.specs.Counts.{counted};

    ghost cells: { Self → Cells };

    /// The cell at a key; None exactly where there is none.
    fn get(&self, key: &CellKey, work: &mut Work) -> Option<&Cell>
        ensures value { option_copied result ≡ cells self.now key.now }
        ensures work { work.new.done ≡ counted work.old.done };

    /// The first cell of a span and its key; None exactly where the span has no cell.
    fn first_in(&self, span: &Span, work: &mut Work) -> Option<(&CellKey, &Cell)>
        ensures value { IsFirstIn (cells self.now) span.now (option_map (λ p. (p.0.now, p.1.now)) result) }
        ensures work { work.new.done ≡ counted work.old.done };

    /// The last cell of a span and its key; None exactly where the span has no cell.
    fn last_in(&self, span: &Span, work: &mut Work) -> Option<(&CellKey, &Cell)>
        ensures value { IsLastIn (cells self.now) span.now (option_map (λ p. (p.0.now, p.1.now)) result) }
        ensures work { work.new.done ≡ counted work.old.done };
}

impl<V: View> View for &V {
    ghost cells = { λ s. V.cells s.now };

    fn get(&self, key: &CellKey, work: &mut Work) -> Option<&Cell> {
        V::get(*self, key, work)
    }

    fn first_in(&self, span: &Span, work: &mut Work) -> Option<(&CellKey, &Cell)> {
        V::first_in(*self, span, work)
    }

    fn last_in(&self, span: &Span, work: &mut Work) -> Option<(&CellKey, &Cell)> {
        V::last_in(*self, span, work)
    }
}
