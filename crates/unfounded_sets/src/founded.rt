ghost use Rattle.std.specs.Prelude.{IfOk};
ghost use Rattle.unfounded_sets.specs.LoopClauses.{Answers};

use lit_trail::Trail;
use normal_program::Ground;
use tel_base::{Clause, Memory};

/// An unfounded set, a true variable in it, and a loop clause of both that is false. The numbers of the set and the variables of the
/// clause strictly rise.
#[derive(Drop)]
pub struct LoopNogood {
    pub atom: u32,
    pub set: Vec<u32>,
    pub clause: Clause,
}

/// A search for unfounded sets.
pub trait Founded {
    /// `None` exactly where no unfounded set holds a true variable, else one that does, with its loop clause.
    fn find(&mut self, ground: &Ground, trail: &Trail) -> Result<Option<LoopNogood>, Memory>
        ensures { IfOk result (λ answer. Answers ground.now trail.now.entries answer) };
}
