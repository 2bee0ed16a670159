ghost use Rattle.std.specs.Prelude.{◌≡◌, ◌<◌, ℕ, [], OnOk, slice_index_or};
ghost use Rattle.unfounded_sets.specs.Waiting.{row, vars_in, Adds, Takes};

use std::alloc::Global;
use std::marker::Model;
use tel_base::Memory;

/// A rule by its number, and at which positive atom of its body it waits.
#[derive(Clone, Copy)]
pub struct Wait {
    pub rule: usize,
    pub place: usize,
}

/// A wait, and the number of the link with the next one for the same variable; 0 where there is none.
#[derive(Clone, Copy)]
pub struct Link {
    pub wait: Wait,
    pub next: usize,
}

/// The rules that wait for each variable. Contracts see the list of each variable, the last one that came first.
///
/// All lists lie in one vector, so that a wait takes no memory where there is room.
#[derive(Drop)]
pub struct Waits {
    /// For each variable the number of its first link, from 1; 0 where nothing waits.
    first: Vec<usize>,
    links: Vec<Link>,
}

impl Model for Waits {
    ghost use Rattle.unfounded_sets.specs.Waiting.{Waiting, waiting_of, IsLinked};

    ghost Value = { Waiting };

    ghost view = { λ waits. waiting_of waits.first.items waits.links.items };

    ghost invariant = { λ waits. IsLinked waits.first.items waits.links.items };
}

/// The number of the first link of a variable; 0 where nothing waits.
fn number_at(first: &[usize], var: u32) -> usize
    ensures { result ≡ slice_index_or first.now var 0 }
{
    match first.get(var as usize) {
        Some(number) => *number,
        None => 0,
    }
}

impl Waits {
    /// No variable and no wait.
    pub fn new(alloc: Global) -> Waits
        ensures { (v : ℕ) → row result v ≡ [] }
    {
        Waits {
            first: Vec::new(alloc),
            links: Vec::new(alloc),
        }
    }

    /// Takes all waits away, and makes room for so many variables.
    pub fn clear(&mut self, vars: usize) -> Result<(), Memory>
        ensures rows { OnOk result ((v : ℕ) → row self.new v ≡ []) }
        ensures vars { OnOk result (vars_in self.new ≡ vars) }
    {
        self.first.clear();
        self.links.clear();
        self.first.resize(vars, 0)?;
        Ok(())
    }

    /// Puts a wait in front of those for a variable.
    pub fn add(&mut self, var: u32, wait: Wait) -> Result<(), Memory>
        requires { var < vars_in self.old }
        ensures rows { OnOk result (Adds var wait (row self.old) (row self.new)) }
        ensures vars { vars_in self.new ≡ vars_in self.old }
    {
        let next = self.first[var as usize];
        self.links.push(Link { wait, next })?;
        self.first[var as usize] = self.links.len();
        Ok(())
    }

    /// Takes the first wait for a variable away.
    pub fn take(&mut self, var: u32) -> Option<Wait>
        ensures rows { Takes result var (row self.old) (row self.new) }
        ensures vars { vars_in self.new ≡ vars_in self.old }
    {
        let number = number_at(&self.first, var);
        if number == 0 {
            return None;
        }
        let link = self.links[number - 1];
        self.first[var as usize] = link.next;
        Some(link.wait)
    }
}
