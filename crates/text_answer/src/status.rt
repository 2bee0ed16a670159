ghost use Rattle.std.specs.Prelude.{◌≡◌};
ghost use Rattle.text_answer.specs.Delivery.{code_of};

/// How a call of `telingo` ended.
#[derive(Clone, Copy, PartialEq, Eq)]
pub enum Status {
    /// A model was printed.
    Models = 10,
    /// There was none to print.
    NoModel = 20,
    /// None was printed, and some length was given up.
    Unfinished = 30,
    /// The words are no line of the command.
    Usage = 64,
    /// The text is no program.
    Refused = 65,
    /// A read failed.
    Read = 66,
    /// The text, or what it needs, is too large.
    Large = 69,
    /// There was no memory.
    Memory = 71,
    /// A write failed.
    Write = 74,
}

impl Status {
    /// The exit status of the program.
    pub fn code(self) -> u8
        ensures { result ≡ code_of self }
    {
        self as u8
    }
}
