//! Laws of the definitions: functions that do nothing, whose contracts are proved facts.
ghost use Rattle.std.specs.Prelude.{ℕ, List};
ghost use Rattle.tel_settings.specs.declared.fields.Settings.{Settings};
ghost use Rattle.text_answer.specs.Verdict.{Verdict, IsVerdict};

/// Each list of texts has a verdict: it is accepted with a theory, refused for a fault, for a cause of a statement or
/// for the range of numbers, or too large. So the clauses `answer` and `complete` of `telingo` speak of all texts.
pub fn some_verdict()
    ensures { (settings : Settings) (texts : List (List ℕ)) → (verdict : Verdict) × IsVerdict settings texts verdict }
{}
