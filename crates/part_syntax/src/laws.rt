//! Laws of programs: functions that do nothing, whose contracts are proved facts.

ghost use Rattle.std.specs.Prelude.{◌≡◌, ◌⊎◌, ℕ, List};
ghost use Rattle.tel_rule.specs.declared.statements.Program.{Program};
ghost use Rattle.part_syntax.specs.declared.fault.ReadFault.{ReadFault};
ghost use Rattle.part_syntax.specs.Programs.{IsProgram, IsFirstFault};

/// Texts are a program or have a first fault, and not both; they are one program, and have one first fault.
pub fn one_program()
    ensures some { (texts : List (List ℕ)) → ((program : Program) × IsProgram texts program) ⊎ ((fault : ReadFault) × IsFirstFault texts fault) }
    ensures program { (texts : List (List ℕ)) (a b : Program) → IsProgram texts a → IsProgram texts b → a ≡ b }
    ensures fault { (texts : List (List ℕ)) (a b : ReadFault) → IsFirstFault texts a → IsFirstFault texts b → a ≡ b }
    ensures apart { (texts : List (List ℕ)) (fault : ReadFault) (program : Program) → IsFirstFault texts fault → IsProgram texts program → ⊥ }
{}
