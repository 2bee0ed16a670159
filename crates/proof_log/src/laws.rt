//! What holds of the lines of a log.
ghost use Rattle.std.specs.Prelude.{◌≡◌, ℕ, ◌++◌, List};
ghost use Rattle.proof_log.specs.Lines.{HasForm, line_text};
ghost use Rattle.proof_log.specs.Texts.{StopsAt, IsLineText};
ghost use Rattle.proof_log.specs.declared.line.Line.{Line};

/// Two lines that stand at the front of the same bytes are one line.
pub fn one_line()
    ensures { (line other : Line) (rest behind : List ℕ) → HasForm line → HasForm other → line_text line ++ rest ≡ line_text other ++ behind → line ≡ other }
{}

/// There is one place at which bytes stop being the begin of a line.
pub fn one_place()
    ensures { (bytes : List ℕ) (at place other : ℕ) → StopsAt IsLineText bytes at place → StopsAt IsLineText bytes at other → place ≡ other }
{}
