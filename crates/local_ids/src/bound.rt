ghost use Rattle.std.specs.Prelude.{◌≡◌, []};
ghost use Rattle.local_ids.specs.Pairs.{id_of};

use ident_rules::{Id, Text};
use indexmap::IndexMap;
use std::alloc::Global;
use std::marker::Model;

/// The local ids that were bound in one request, per type (JSON:API 1.1, "Resource Identifier Objects"; Atomic Operations
/// extension). Contracts see them as the map from a type and a local id to an id that the store's definitions pass on.
#[derive(Drop)]
pub struct LocalIds {
    ids: IndexMap<String, Vec<(u32, Id)>>,
    alloc: Global,
}

impl Model for LocalIds {
    ghost use Rattle.store_model.specs.Change.{Lids};
    ghost use Rattle.local_ids.specs.Pairs.{lids_of};

    ghost Value = { Lids };

    ghost view = { λ l. lids_of l.ids.entries };
}

/// What came of a binding.
#[derive(Clone, Copy, Debug, PartialEq, Eq)]
pub enum Bind {
    /// The local id stands for the id from now on.
    Bound,
    /// The local id stood for an id of this type before, and still does.
    Taken,
    /// Memory was wanting, and nothing changed.
    NoMemory,
}

/// The id of a type among those of one local id.
fn id_of(pairs: &[(u32, Id)], kind: u32) -> Option<Id>
    ensures { result ≡ id_of pairs.now kind }
{
    pairs.iter().find(|pair| pair.0 == kind).map(|pair| pair.1)
}

impl LocalIds {
    ghost use Rattle.store_model.specs.Change.{lid_cmp};
    ghost use Rattle.std.specs.FinMap.Entries.{find};
    ghost use Rattle.local_ids.specs.Bindings.{IsBind};

    /// No local ids. Takes no memory.
    pub fn new(alloc: Global) -> LocalIds
        ensures { result ≡ [] }
    {
        LocalIds {
            ids: IndexMap::new(alloc),
            alloc,
        }
    }

    /// The id that a local id of a type stands for; None exactly where none is bound. Takes no memory.
    pub fn find(&self, kind: u32, lid: &str) -> Option<Id>
        ensures { result ≡ find lid_cmp (kind, lid.now) self.now }
    {
        match self.ids.get(lid) {
            Some(pairs) => id_of(pairs, kind),
            None => None,
        }
    }

    /// Lets a local id of a type stand for an id, where it stands for none. It is `Taken` exactly where it does. Its one
    /// error is `NoMemory`, which changes nothing.
    pub fn bind(&mut self, kind: u32, lid: Text, id: Id) -> Bind
        ensures { IsBind result self.old self.new kind lid id }
    {
        if self.find(kind, lid.as_str()).is_some() {
            return Bind::Taken;
        }
        if let Some(pairs) = self.ids.get_mut(lid.as_str()) {
            if pairs.push((kind, id)).is_err() {
                return Bind::NoMemory;
            }
            return Bind::Bound;
        }
        let mut pairs = Vec::new(self.alloc);
        if pairs.push((kind, id)).is_err() {
            return Bind::NoMemory;
        }
        match self.ids.insert(lid.into_string(), pairs) {
            Ok(_) => Bind::Bound,
            Err(_) => Bind::NoMemory,
        }
    }
}
