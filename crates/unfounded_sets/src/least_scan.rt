use crate::answering::answer;
use crate::bounds::above_all;
use crate::founded::{Founded, LoopNogood};
use crate::supported::Support;
use lit_trail::Trail;
use normal_program::Ground;
use std::alloc::Global;
use tel_base::Memory;

/// A search for the largest unfounded set: what the least set of supported variables leaves. It keeps nothing between calls but
/// room.
#[derive(Drop)]
pub struct LeastScan {
    alloc: Global,
    support: Support,
    /// For each variable whether the loop clause has it.
    marks: Vec<bool>,
}

impl LeastScan {
    /// A search that has no room yet.
    pub fn new(alloc: Global) -> LeastScan {
        LeastScan {
            alloc,
            support: Support::new(alloc),
            marks: Vec::new(alloc),
        }
    }
}

impl Founded for LeastScan {
    fn find(&mut self, ground: &Ground, trail: &Trail) -> Result<Option<LoopNogood>, Memory> {
        let bound = above_all(ground, trail);
        self.support.find(ground, trail, bound)?;
        answer(
            self.alloc,
            ground,
            trail,
            &self.support.found,
            &mut self.marks,
        )
    }
}
