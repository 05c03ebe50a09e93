ghost use Rattle.std.specs.Prelude.{◌≡◌, IfOk, Some, refl};
ghost use Rattle.std.specs.Ordering.{eq_by_cmp};
ghost use Rattle.std.specs.Cmp.{eq_by_cmp_equiv, partial_equiv_from_equiv, po};

use ident_rules::{Key, NoMemory};
use std::alloc::Global;
use std::cmp::Ordering;

/// Where a cell stands. A cell key is copied by `copy` alone.
#[derive(Drop)]
pub enum CellKey {
    /// The row of a resource.
    Row(Key),
    /// The way back from a resource to one whose relationship of this number leads to it.
    Back {
        /// The resource that the link leads to.
        to: Key,
        /// The resource whose link it is.
        from: Key,
        /// The number of the relationship in the type of `from`.
        rel: u32,
    },
    /// The next id of a type, by its number.
    Counter(u32),
}

impl CellKey {
    /// An equal key. Its one error is want of memory.
    pub fn copy(&self, _alloc: Global) -> Result<CellKey, NoMemory>
        ensures { IfOk result (λ k. k ≡ self.now) }
    {
        match self {
            CellKey::Row(key) => Ok(CellKey::Row(*key)),
            CellKey::Back { to, from, rel } => Ok(CellKey::Back {
                to: *to,
                from: *from,
                rel: *rel,
            }),
            CellKey::Counter(kind) => Ok(CellKey::Counter(*kind)),
        }
    }
}

impl PartialEq for CellKey {
    ghost use Rattle.world_cells.specs.CellOrder.{cell_key_cmp, cell_key_cmp_total};

    ghost eq = { eq_by_cmp cell_key_cmp };

    ghost laws = { partial_equiv_from_equiv (eq_by_cmp_equiv cell_key_cmp_total) };

    fn eq(&self, other: &CellKey) -> bool {
        self.cmp(other) == Ordering::Equal
    }
}

impl Eq for CellKey {
    ghost use Rattle.world_cells.specs.CellOrder.{cell_key_cmp_total};

    ghost laws = { eq_by_cmp_equiv cell_key_cmp_total };
}

/// Cell keys are ordered by variant, and then by their fields as they stand.
impl Ord for CellKey {
    ghost use Rattle.world_cells.specs.CellOrder.{cell_key_cmp, cell_key_cmp_total};

    ghost cmp = { cell_key_cmp };

    ghost total = { cell_key_cmp_total };

    ghost matches_partial_cmp = { λ a b. refl };

    ghost matches_eq = { λ a b. refl };

    fn cmp(&self, other: &CellKey) -> Ordering {
        match (self, other) {
            (CellKey::Row(x), CellKey::Row(y)) => x.cmp(y),
            (CellKey::Row(_), _) => Ordering::Less,
            (_, CellKey::Row(_)) => Ordering::Greater,
            (
                CellKey::Back { to, from, rel },
                CellKey::Back {
                    to: other_to,
                    from: other_from,
                    rel: other_rel,
                },
            ) => match to.cmp(other_to) {
                Ordering::Equal => from.cmp(other_from).then(rel.cmp(other_rel)),
                order => order,
            },
            (CellKey::Back { .. }, CellKey::Counter(_)) => Ordering::Less,
            (CellKey::Counter(_), CellKey::Back { .. }) => Ordering::Greater,
            (CellKey::Counter(x), CellKey::Counter(y)) => x.cmp(y),
        }
    }
}

impl PartialOrd for CellKey {
    ghost use Rattle.world_cells.specs.CellOrder.{cell_key_cmp, cell_key_cmp_total};

    ghost partial_cmp = { λ x y. Some (cell_key_cmp x y) };

    ghost laws = { po cell_key_cmp_total (λ x y. refl) };

    fn partial_cmp(&self, other: &CellKey) -> Option<Ordering> {
        Some(self.cmp(other))
    }
}
