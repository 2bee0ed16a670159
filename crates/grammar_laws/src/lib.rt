//! Grammars over any words and the readers that read them: definitions, and the theory that an answer of a reader is the one
//! that the grammar has. There is no code.
#![tactic(auto)]
