//! A list of different names, with a look-up by name.

ghost use Rattle.std.specs.Prelude.{◌≡◌, ◌+◌, ◌<◌, ◌^◌, [], ◌∷◌, ◌++◌, length, None, IfSome, OnOk, OnErr};
ghost use Rattle.ats_num.specs.Places.{place_of};

use crate::name::Name;
use std::alloc::{AllocError, Global};
use std::collections::BTreeMap;
use std::marker::Model;

/// Different names, numbered from 0 in the order in which they came. Contracts see the list of them.
#[derive(Drop)]
pub struct NameTable {
    names: Vec<Name>,
    places: BTreeMap<Name, u32>,
}

impl Model for NameTable {
    ghost use Rattle.std.specs.Prelude.{List, ℕ};
    ghost use Rattle.ats_num.specs.Places.{AreNumbered};

    ghost Value = { List (List ℕ) };

    ghost view = { λ t. t.names.items };

    ghost invariant = { λ t. AreNumbered t.names.items t.places };
}

impl NameTable {
    /// A table without names.
    pub fn new(alloc: Global) -> Self
        ensures { result ≡ [] }
    {
        NameTable {
            names: Vec::new(alloc),
            places: BTreeMap::new(alloc),
        }
    }

    /// The number of a name; `None` exactly where the table does not have it.
    pub fn place(&self, name: &Name) -> Option<u32>
        ensures place { result ≡ place_of name.now self.now }
        ensures within { IfSome result (λ place. place < length self.now) }
    {
        self.places.get(name).copied()
    }

    /// Adds a name at the end. `AllocError` leaves the table as it was.
    pub fn push(&mut self, name: Name) -> Result<(), AllocError>
        requires absent { place_of name self.old ≡ None }
        requires room { length self.old < 2 ^ 32 }
        ensures ok { OnOk result (self.new ≡ self.old ++ name ∷ []) }
        ensures err { OnErr result (self.new ≡ self.old) }
    {
        self.names.reserve(1)?;
        let place = self.names.len() as u32;
        self.places.insert(name, place)?;
        self.names.push_reserved(name);
        Ok(())
    }
}
