use crate::rules::NRule;
use crate::shapes::NodeRule;
use sqlite_items::Items;
use tel_base::Lit;

/// What the body of a module is for.
#[derive(Clone, Copy, PartialEq, Eq)]
pub enum BodyHead {
    /// This variable follows.
    Normal(u32),
    /// This variable may follow.
    Choice(u32),
    /// The body must be false.
    Nothing,
    /// A variable of the next state follows, so the body must be false at the end.
    NextNormal,
    /// A variable of the next state may follow.
    NextChoice,
}

/// A body of a module: the variable that stands for it, its literals, and what it is for.
#[derive(Drop)]
pub struct BodyDef {
    pub var: u32,
    pub lits: Items<Lit>,
    pub head: BodyHead,
}

/// What is said of one state: the program of a length is made of the modules of its states.
#[derive(Drop)]
pub struct StepModule {
    /// The state, from 0.
    pub t: u32,
    /// The bodies of the state.
    pub bodies: Items<BodyDef>,
    /// The rules with these bodies, and then those with a head of the state and a body of the one before.
    pub rules: Items<NRule>,
    pub nodes: Items<NodeRule>,
    /// Pairs of variables that aren't true together.
    pub pairs: Items<(u32, u32)>,
    /// The variables of the atoms of the state.
    pub atoms: Items<u32>,
    /// The variables of the next state that the module speaks of, rising.
    pub open_vars: Items<u32>,
    /// The variable that says that the trace ends with the state.
    pub end: u32,
    /// That the trace doesn't end with the state before.
    pub close: Option<Lit>,
}

/// What a module has besides its rules and its number.
#[derive(Drop)]
pub struct ModuleParts {
    pub bodies: Items<BodyDef>,
    pub nodes: Items<NodeRule>,
    pub pairs: Items<(u32, u32)>,
    pub atoms: Items<u32>,
    pub open_vars: Items<u32>,
    pub end: u32,
    pub close: Option<Lit>,
}
