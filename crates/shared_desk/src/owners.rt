use std::collections::LinkedList;

/// Which passes are a desk's: the kind of its store, the name of its lock as plain data, and the numbers of its pass. No value of it is made.
pub struct Owner<K> {
    /// What tasks mean in the store.
    pub kind: K,
    /// The lock's name: its words.
    pub words: u64,
    /// Its slots.
    pub slots: u64,
    /// The name of its views.
    pub views_name: u64,
    /// Its atom.
    pub atom: u64,
    /// The block in which it stands.
    pub block: u64,
    /// Its place there.
    pub offset: u64,
    /// The names of its slots.
    pub slot_names: LinkedList<u64>,
    /// The numbers of the pass.
    pub numbers: LinkedList<u32>,
}
