ghost use Rattle.std.specs.Prelude.{◌≡◌, ◌<◌, ◌*◌, IsTrue};
ghost use Rattle.std.specs.Int.{w32, to_be_bytes};
ghost use Rattle.world_cells.specs.declared.keys.CellKey.{CellKey};
ghost use Rattle.world_cells.specs.declared.slots.TheConstants.{SLOTS, KIND_GROUPS};
ghost use Rattle.world_cells.specs.Reads.{in_span};
ghost use Rattle.world_cells.specs.Slots.{with_byte, with_bytes, bytes_of_key, slot_of, first_group, group_of, group_of_span};

use crate::{CellKey, Span};
use ident_rules::Key;

/// How many slots there are.
pub const SLOTS: u32 = 4096;

/// How many types have groups of their own; further ones share theirs.
pub const KIND_GROUPS: u32 = 64;

/// How many groups there are.
pub const GROUPS: u32 = 4 * KIND_GROUPS;

fn with_byte(slot: u32, byte: u8) -> u32
    requires within { slot < SLOTS }
    ensures slot { result ≡ with_byte slot byte }
    ensures within { result < SLOTS }
{
    (slot * 31 + u32::from(byte)) % SLOTS
}

fn with_bytes(slot: u32, bytes: &[u8]) -> u32
    requires within { slot < SLOTS }
    ensures slot { result ≡ with_bytes slot bytes.now }
    ensures within { result < SLOTS }
{
    let mut now = slot;
    for byte in bytes {
        now = with_byte(now, *byte);
    }
    now
}

fn with_number(slot: u32, number: u32) -> u32
    requires within { slot < SLOTS }
    ensures slot { result ≡ with_bytes slot (to_be_bytes w32 number) }
    ensures within { result < SLOTS }
{
    with_bytes(slot, &number.to_be_bytes())
}

fn with_key(slot: u32, key: &Key) -> u32
    requires within { slot < SLOTS }
    ensures slot { result ≡ with_bytes slot (bytes_of_key key.now) }
    ensures within { result < SLOTS }
{
    with_bytes(with_number(slot, key.kind), key.id.bytes())
}

fn first_group(kind: u32) -> u32
    ensures group { result ≡ first_group kind }
    ensures within { result < 4 * KIND_GROUPS }
{
    4 * (kind % KIND_GROUPS)
}

impl CellKey {
    /// One of `SLOTS` numbers, by the bytes of the key: keys of different slots differ. Takes no memory.
    pub fn slot(&self) -> u32
        ensures slot { result ≡ slot_of self.now }
        ensures within { result < SLOTS }
    {
        match self {
            CellKey::Row(key) => with_key(0, key),
            CellKey::Back { to, from, rel } => with_number(with_key(with_key(1, to), from), *rel),
            CellKey::Counter(kind) => with_number(2, *kind),
        }
    }

    /// One of `GROUPS` numbers, by the variant of the key and the type, of a way back the type that it leads to. Takes no
    /// memory.
    pub fn group(&self) -> u32
        ensures group { result ≡ group_of self.now }
        ensures within { result < 4 * KIND_GROUPS }
    {
        match self {
            CellKey::Row(key) => first_group(key.kind),
            CellKey::Back { to, .. } => first_group(to.kind) + 1,
            CellKey::Counter(kind) => first_group(*kind) + 2,
        }
    }
}

impl Span {
    /// The group of the keys in the span. Takes no memory.
    pub fn group(&self) -> u32
        ensures group { result ≡ group_of_span self.now }
        ensures keys { (k : CellKey) → IsTrue (in_span self.now k) → group_of k ≡ result }
        ensures within { result < 4 * KIND_GROUPS }
    {
        match self {
            Span::Rows { kind, .. } => first_group(*kind),
            Span::Backs { to, .. } => first_group(to.kind) + 1,
        }
    }
}
