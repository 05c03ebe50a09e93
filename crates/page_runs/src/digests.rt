//! What a view has, as a number.
use crate::draws::{key, place};
use ident_rules::Key;
use outer_ends::Work;
use view_reads::View;
use world_cells::{Cell, CellKey, Edge, Span};

/// How many cells there are, and a digest of them.
#[derive(Clone, Copy, PartialEq, Eq, Debug)]
pub struct Digest {
    pub cells: u64,
    pub digest: u64,
}

impl Digest {
    /// With one more number.
    fn with(self, number: u64) -> Digest {
        Digest {
            cells: self.cells,
            digest: (self.digest ^ number).wrapping_mul(1_099_511_628_211),
        }
    }

    /// With one more cell.
    fn with_cell(self, cell: &Cell) -> Digest {
        let number = match cell {
            Cell::Row(_) => 11,
            Cell::Back => 13,
            Cell::Counter(number) => 17_u64.wrapping_add(*number),
        };
        let next = self.with(number);
        Digest {
            cells: next.cells.wrapping_add(1),
            digest: next.digest,
        }
    }

    /// With the bytes of a key.
    fn with_key(self, key: &Key) -> Digest {
        let mut now = self;
        for byte in key.id.bytes() {
            now = now.with(u64::from(*byte));
        }
        now
    }
}

/// Behind a row.
pub fn past(key: &Key) -> Edge {
    Edge::Open(key.id)
}

/// The rows of a type from an edge on.
pub fn rows_from(kind: u32, low: &Edge) -> Span {
    Span::Rows {
        kind,
        low: *low,
        high: Edge::End,
    }
}

/// Behind a way back.
fn past_link(from: &Key, rel: u32) -> Option<(Key, u32)> {
    Some((*from, rel))
}

/// The ways back behind one, or all of them.
fn backs_from(to: &Key, after: &Option<(Key, u32)>) -> Span {
    Span::Backs {
        to: *to,
        after: *after,
    }
}

/// The rows of a type up to so many, in order.
fn with_rows<V: View>(digest: Digest, view: &V, kind: u32, places: u64) -> Digest {
    let mut work = Work::new();
    let mut low = Edge::End;
    let mut now = digest;
    for _ in 0..places {
        let span = rows_from(kind, &low);
        let Some((CellKey::Row(found), cell)) = view.first_in(&span, &mut work) else {
            return now;
        };
        now = now.with_key(found).with_cell(cell);
        low = past(found);
    }
    now
}

/// The ways back from a resource up to so many, in order.
fn with_backs<V: View>(digest: Digest, view: &V, to: &Key, places: u64) -> Digest {
    let mut work = Work::new();
    let mut after = None;
    let mut now = digest;
    for _ in 0..places {
        let span = backs_from(to, &after);
        let Some((CellKey::Back { to: _, from, rel }, cell)) = view.first_in(&span, &mut work)
        else {
            return now;
        };
        now = now.with_key(from).with_cell(cell);
        after = past_link(from, *rel);
    }
    now
}

/// The counters below a number.
fn with_counters<V: View>(digest: Digest, view: &V, places: u64) -> Digest {
    let mut work = Work::new();
    let mut now = digest;
    for number in 0..places {
        if number % 8 == 1 {
            if let Some(cell) = view.get(&place(number), &mut work) {
                now = now.with(number).with_cell(cell);
            }
        }
    }
    now
}

/// Of all cells at places below a number.
pub fn digest_of<V: View>(view: &V, places: u64) -> Digest {
    let mut now = Digest {
        cells: 0,
        digest: 14_695_981_039_346_656_037,
    };
    for kind in 0..3 {
        now = with_rows(now, view, kind, places);
    }
    for number in 0..50 {
        now = with_backs(now, view, &key(0, number), places);
    }
    with_counters(now, view, places)
}
