//! A source that gives few bytes a call.
ghost use Rattle.std.specs.Prelude.{◌≤◌};

use tel_base::{Failed, MemSource, Source};

/// Texts in memory, of which each call gives at most so many bytes.
#[derive(Drop)]
pub struct Portions {
    pub texts: MemSource,
    pub most: usize,
    ghost some: { 1 ≤ most },
}

impl Source for Portions {
    ghost text = { λ source. ⟦<MemSource as Source>⟧.text source.texts };

    ghost faults = { λ source. ⟦<MemSource as Source>⟧.faults source.texts };

    ghost failed = { λ source. ⟦<MemSource as Source>⟧.failed source.texts };

    fn read(&mut self, name: &str, from: u64, into: &mut [u8]) -> Result<usize, Failed> {
        let room = into.len().min(self.most);
        self.texts.read(name, from, &mut into[..room])
    }
}
