ghost use Rattle.std.specs.Prelude.{◌≡◌, ◌↔◌, ◌<◌, ◌≤◌, ◌+◌, ◌*◌, ◌^◌, Some, None};
ghost use Rattle.atom_space.specs.declared.space.VarName.{VarName};
ghost use Rattle.atom_space.specs.Numbers.{width, visible, part, body_at, end_at};
ghost use Rattle.atom_space.specs.Names.{var_of};
ghost use Rattle.atom_space.specs.Naming.{name_at};

use std::marker::Model;

/// How many atoms, nodes and bodies each state has, and the greatest state.
///
/// Each state has a variable for each of them and one for the end, so `width` in all. Those of state 0
/// come first. All variables together are fewer than 2147483648.
#[derive(Clone, Copy)]
pub struct AtomSpace {
    pub atoms: u32,
    pub nodes: u32,
    pub bodies: u32,
    pub greatest: u32,
}

impl Model for AtomSpace {
    ghost use Rattle.atom_space.specs.Numbers.{Space, IsSpace, space_of};

    ghost Value = { Space };

    ghost view = { λ space. space_of space.atoms space.nodes space.bodies space.greatest };

    ghost inverse = { λ space. record { atoms = space.counts.atoms; nodes = space.counts.nodes; bodies = space.counts.bodies; greatest = space.greatest } };

    ghost invariant = { λ space. IsSpace (space_of space.atoms space.nodes space.bodies space.greatest) };
}

/// What a variable stands for: a number and then a state, or for the end a state alone.
#[derive(Clone, Copy, PartialEq, Eq)]
pub enum VarName {
    /// An atom is true at the state.
    Visible(u32, u32),
    /// The formula of a node holds there.
    Part(u32, u32),
    /// The body of an instance is true there.
    Body(u32, u32),
    /// The trace ends there.
    End(u32),
}

impl AtomSpace {
    /// How many variables a state has.
    pub fn width(&self) -> u32
        ensures is { result ≡ width self.now.counts }
        ensures small { (self.now.greatest + 1) * result < 2 ^ 31 }
    {
        self.atoms + self.nodes + self.bodies + 1
    }

    /// The variable at a place of a state.
    fn at(&self, place: u32, t: u32) -> u32
        requires place { place < width self.now.counts }
        requires state { t ≤ self.now.greatest }
        ensures { result ≡ t * width self.now.counts + place }
    {
        t * self.width() + place
    }

    /// The variable of an atom at a state.
    pub fn visible(&self, atom: u32, t: u32) -> u32
        requires atom { atom < self.now.counts.atoms }
        requires state { t ≤ self.now.greatest }
        ensures { result ≡ visible self.now.counts atom t }
    {
        self.at(atom, t)
    }

    /// The variable of a node at a state.
    pub fn part(&self, node: u32, t: u32) -> u32
        requires node { node < self.now.counts.nodes }
        requires state { t ≤ self.now.greatest }
        ensures { result ≡ part self.now.counts node t }
    {
        self.at(self.atoms + node, t)
    }

    /// The variable of an instance's body at a state.
    pub fn body(&self, instance: u32, t: u32) -> u32
        requires instance { instance < self.now.counts.bodies }
        requires state { t ≤ self.now.greatest }
        ensures { result ≡ body_at self.now.counts instance t }
    {
        self.at(self.atoms + self.nodes + instance, t)
    }

    /// The variable of the end at a state.
    pub fn end(&self, t: u32) -> u32
        requires state { t ≤ self.now.greatest }
        ensures { result ≡ end_at self.now.counts t }
    {
        self.at(self.atoms + self.nodes + self.bodies, t)
    }

    /// The variable with this name; `None` exactly where its number or its state is out of range.
    pub fn var(&self, name: VarName) -> Option<u32>
        ensures { result ≡ var_of self.now name }
    {
        match name {
            VarName::Visible(atom, t) => {
                if atom < self.atoms && t <= self.greatest {
                    Some(self.visible(atom, t))
                } else {
                    None
                }
            }
            VarName::Part(node, t) => {
                if node < self.nodes && t <= self.greatest {
                    Some(self.part(node, t))
                } else {
                    None
                }
            }
            VarName::Body(instance, t) => {
                if instance < self.bodies && t <= self.greatest {
                    Some(self.body(instance, t))
                } else {
                    None
                }
            }
            VarName::End(t) => {
                if t <= self.greatest {
                    Some(self.end(t))
                } else {
                    None
                }
            }
        }
    }

    /// What stands at a place of a state.
    fn name_at(&self, place: u32, t: u32) -> VarName
        requires place { place < width self.now.counts }
        ensures { result ≡ name_at self.now.counts place t }
    {
        if place < self.atoms {
            VarName::Visible(place, t)
        } else if place < self.atoms + self.nodes {
            VarName::Part(place - self.atoms, t)
        } else if place < self.atoms + self.nodes + self.bodies {
            VarName::Body(place - (self.atoms + self.nodes), t)
        } else {
            VarName::End(t)
        }
    }

    /// The name of a variable; `None` exactly where the space has no such variable.
    pub fn name(&self, var: u32) -> Option<VarName>
        ensures inverse { (name : VarName) → (result ≡ Some name) ↔ (var_of self.now name ≡ Some var) }
        ensures none { (result ≡ None) ↔ ((self.now.greatest + 1) * width self.now.counts ≤ var) }
    {
        let width = self.width();
        let t = var / width;
        if t <= self.greatest {
            Some(self.name_at(var % width, t))
        } else {
            None
        }
    }
}
