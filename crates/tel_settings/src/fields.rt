ghost use Rattle.std.specs.Prelude.{◌≡◌, IfOk};

use sqlite_items::Items;
use std::alloc::Global;
use std::marker::Model;
use tel_base::Memory;
use thiserror::Error;

/// A word of the command line. Contracts see it as the list of its bytes.
#[derive(Drop)]
pub struct Word {
    text: String,
}

impl Model for Word {
    ghost use Rattle.std.specs.Prelude.{List, ℕ, string_bytes};

    ghost Value = { List ℕ };

    ghost view = { λ word. string_bytes word.text };
}

impl Word {
    /// A copy of this text.
    pub fn from_str(alloc: Global, text: &str) -> Result<Word, Memory>
        ensures { IfOk result (λ word. word ≡ text.now) }
    {
        let text = String::from_str(alloc, text)?;
        Ok(Word { text })
    }

    /// Its text.
    pub fn as_str(&self) -> &str
        ensures { result.now ≡ self.now }
    {
        self.text.as_str()
    }
}

/// After which length a run stops, once its least length is reached.
#[derive(Clone, Copy, PartialEq, Eq)]
pub enum Stop {
    /// After a length at which a trace was printed.
    Sat,
    /// After a length that was completed with no trace.
    Unsat,
    /// After a length that was not completed.
    Unknown,
}

/// Where the texts of a run come from.
#[derive(Drop)]
pub enum Input {
    /// These files, in this order. The name `-` is standard input.
    Files(Items<Word>),
    /// The generated text of this number.
    Number(u32),
}

/// What the words of the command line say of a run.
#[derive(Drop)]
pub struct Settings {
    /// The least length after which the run may stop, 0 to 1000.
    pub imin: u32,
    /// The greatest length, 0 to 1000.
    pub imax: u32,
    /// The stop rule.
    pub stop: Stop,
    /// How many traces are printed of each length at the most, where 0 is all.
    pub models: u64,
    /// After how many conflicts a length is given up, where there is such a budget.
    pub conflicts: Option<u64>,
    /// The file that gets the log, where there is one.
    pub log: Option<Word>,
    /// Where the texts come from.
    pub input: Input,
}

/// Why words have no settings.
#[derive(Clone, Copy, Debug, PartialEq, Eq, Error)]
pub enum SettingsFault {
    /// They are no line of the command.
    #[error("usage")]
    Usage,
    /// Want of memory.
    #[error("out of memory")]
    Memory,
}
