ghost use Rattle.std.specs.Prelude.{◌≡◌, ◌+◌, ◌≤◌, ◌++◌, ◌∷◌, [], length, codes, None, IfOk, OnOk, OnErr};
ghost use Rattle.std.specs.Option.{option_copied};
ghost use Rattle.formula_syntax.specs.Grammar as grammar;
ghost use Rattle.formula_syntax.specs.Variables.{found};

use indexmap::IndexMap;
use sqlite_items::Items;
use std::alloc::Global;
use std::marker::Model;
use std::mem;
use tel_base::{HashKey, Memory, Text};

/// The variables of a statement, in the order of their first occurrence; each `_` is one of its own.
/// Contracts see them as the list of their names. A name is found without a look at the others.
#[derive(Drop)]
pub struct Variables {
    names: Items<Text>,
    /// The first place of each name.
    places: IndexMap<Text, usize, HashKey>,
    key: HashKey,
}

impl Model for Variables {
    ghost use Rattle.std.specs.Prelude.{List, ℕ};
    ghost use Rattle.formula_syntax.specs.Variables.{IsIndex};

    ghost Value = { List (List ℕ) };

    ghost view = { λ variables. variables.names };

    ghost invariant = { λ variables. IsIndex variables.places variables.names };
}

impl Variables {
    /// No variables, of names that nobody chose to collide. It takes no memory.
    pub fn new(alloc: Global) -> Variables
        ensures { result ≡ [] }
    {
        Variables::keyed(alloc, HashKey::of(&[]))
    }

    /// No variables, whose names are hashed by this key. It takes no memory.
    pub fn keyed(alloc: Global, key: HashKey) -> Variables
        ensures { result ≡ [] }
    {
        Variables {
            names: Items::new(alloc),
            places: IndexMap::with_hasher(alloc, key),
            key,
        }
    }

    /// Takes their names, by their places, so that there are none.
    pub fn take(&mut self, alloc: Global) -> Items<Text>
        ensures names { result ≡ self.old }
        ensures none { self.new ≡ [] }
    {
        let none = Variables::keyed(alloc, self.key);
        let Variables { names, .. } = mem::replace(self, none);
        names
    }

    /// The first place of a name.
    fn first_place(&self, name: &Text) -> Option<usize>
        ensures { result ≡ found name.now self.now }
    {
        match self.places.get(name) {
            Some(place) => Some(*place),
            None => None,
        }
    }

    /// Puts a name that isn't there yet behind the others.
    fn add(&mut self, alloc: Global, name: Text) -> Result<(), Memory>
        requires { found name self.old ≡ None }
        ensures ok { OnOk result (self.new ≡ self.old ++ name ∷ []) }
        ensures err { OnErr result (self.new ≡ self.old) }
    {
        let key = Text::from_slice(alloc, name.as_slice())?;
        let place = self.names.len();
        self.names.push(name)?;
        match self.places.insert(key, place) {
            Ok(_) => Ok(()),
            Err(_) => {
                let _name = self.names.pop();
                Err(Memory)
            }
        }
    }

    /// The place of a name. A new one is put behind the others. Want of memory changes nothing.
    pub fn place(&mut self, alloc: Global, name: &[u8]) -> Result<usize, Memory>
        ensures place { IfOk result (λ place. place ≡ grammar.place_in name.now self.old) }
        ensures vars { OnOk result (self.new ≡ grammar.with_var name.now self.old) }
        ensures within { IfOk result (λ place. place ≤ length self.old) }
        ensures room { length self.new ≤ length self.old + 1 }
        ensures err { OnErr result (self.new ≡ self.old) }
    {
        let name = Text::from_slice(alloc, name)?;
        match self.first_place(&name) {
            Some(place) => Ok(place),
            None => {
                let place = self.names.len();
                self.add(alloc, name)?;
                Ok(place)
            }
        }
    }

    /// The place of a `_`, which is put behind the others. Want of memory changes nothing.
    pub fn blank(&mut self, alloc: Global) -> Result<usize, Memory>
        ensures place { IfOk result (λ place. place ≡ length self.old) }
        ensures vars { OnOk result (self.new ≡ self.old ++ codes "_" ∷ []) }
        ensures err { OnErr result (self.new ≡ self.old) }
    {
        let name = Text::from_slice(alloc, b"_".as_slice())?;
        let place = self.names.len();
        match self.first_place(&name) {
            Some(_) => self.names.push(name)?,
            None => self.add(alloc, name)?,
        }
        Ok(place)
    }
}
