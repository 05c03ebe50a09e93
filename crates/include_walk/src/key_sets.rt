//! Sets of keys.
ghost use Rattle.std.specs.Prelude.{◌≡◌, ◌∷◌, IfOk, OnOk, []};
ghost use Rattle.std.specs.List.Sorted.{IsStrictlySortedBy};
ghost use Rattle.ident_rules.specs.Key.{key_cmp};
ghost use Rattle.include_walk.specs.Sets.{Adds, Takes};

use ident_rules::{Key, NoMemory};
use std::alloc::Global;
use std::collections::BTreeSet;

/// One key more.
pub fn insert(set: &mut BTreeSet<Key>, key: Key) -> Result<(), NoMemory>
    ensures { OnOk result (Adds set.old.keys (key ∷ []) set.new.keys) }
{
    set.insert(key)?;
    Ok(())
}

/// These keys too.
pub fn insert_all(set: &mut BTreeSet<Key>, keys: &[Key]) -> Result<(), NoMemory>
    ensures { OnOk result (Adds set.old.keys keys.now set.new.keys) }
{
    for key in keys {
        insert(set, *key)?;
    }
    Ok(())
}

/// One key less, if it is there.
fn remove(set: &mut BTreeSet<Key>, key: Key)
    ensures { Takes set.old.keys (key ∷ []) set.new.keys }
{
    set.remove(&key);
}

/// Without these keys.
pub fn remove_all(set: &mut BTreeSet<Key>, keys: &[Key])
    ensures { Takes set.old.keys keys.now set.new.keys }
{
    for key in keys {
        remove(set, *key);
    }
}

/// The keys in ascending order.
pub fn keys_of(alloc: Global, set: &BTreeSet<Key>) -> Result<Vec<Key>, NoMemory>
    ensures same { IfOk result (λ keys. keys.items ≡ set.now.keys) }
    ensures rising { IfOk result (λ keys. IsStrictlySortedBy key_cmp keys.items) }
{
    Ok(set.iter().copied().collect(alloc)?)
}
