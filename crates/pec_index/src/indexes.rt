ghost use Rattle.std.specs.Prelude.{◌≡◌, None, false, option_map, IfOk, OnErr};
ghost use Rattle.pec_index.specs.Entries.{Entries, Finds, IsAdded, Key, value_at};

use std::alloc::{AllocError, Global};
use std::collections::BTreeMap;
use std::marker::Model;

/// A map from texts to values. Contracts see its keys, each with its value.
#[derive(Drop)]
pub struct Index<V> {
    map: BTreeMap<Vec<u8>, V>,
}

impl<V> Model for Index<V> {
    ghost use Rattle.pec_index.specs.Entries.{Entries, shown};

    ghost Value = { Entries V };

    ghost view = { λ index. shown index.map.entries };
}

impl<V: Drop> Index<V> {
    /// A map with no key. It takes no memory.
    pub fn new(alloc: Global) -> Index<V>
        ensures { (key : Key) → value_at key result ≡ None }
    {
        Index {
            map: BTreeMap::new(alloc),
        }
    }

    /// The value at a key. It takes no memory.
    pub fn get(&self, key: &[u8]) -> Option<&V>
        ensures { option_map (λ v. v.now) result ≡ value_at key.now self.now }
    {
        self.map.get(key)
    }

    /// Puts a value at a key, unless one stands there. The answer says whether it was put; where it wasn't, or memory
    /// ran out, the map is as it was.
    pub fn add(&mut self, alloc: Global, key: &[u8], value: V) -> Result<bool, AllocError>
        // Of the keys, it's as if the entry stood behind all others.
        ensures added { IfOk result (λ added. (entries : Entries V) →
            Finds self.old entries → IsAdded added self.new entries key.now value) }
        ensures kept { IfOk result (λ added. added ≡ false → self.new ≡ self.old) }
        ensures err { OnErr result (self.new ≡ self.old) }
    {
        if self.map.contains_key(key) {
            return Ok(false);
        }
        let key = Vec::from_slice(alloc, key)?;
        self.map.insert(key, value)?;
        Ok(true)
    }
}
