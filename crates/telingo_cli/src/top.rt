//! The top call: from the words to the printed bytes.
ghost use Rattle.std.specs.Prelude.{◌≡◌, ℕ, ◌<◌, ◌≤◌, ◌⊎◌, List, [], ◌∷◌, Option, length, map, IsTrue, Some, None};
ghost use Rattle.tel_base.specs.Counts.{Rose, Stands};
ghost use Rattle.theory_lists.specs.Theories.{ProgramTheory};
ghost use Rattle.tel_settings.specs.declared.fields.Settings.{Settings};
ghost use Rattle.tel_settings.specs.Command.{settings_of, IsWithinLimits};
ghost use Rattle.text_answer.specs.Delivery.{code_of, Delivers, TellsFaults};
ghost use Rattle.text_answer.specs.Verdict.{Verdict, Accepted, IsVerdict, HasOutcome, Completes, TellsOfText, ComesOfText, Answers, usage_line, is_among};
ghost use Rattle.walker_text.specs.Walker.{walker_text};
ghost use Rattle.telingo_cli.specs.Texts.{AreTold};
ghost use Rattle.telingo_cli.specs.Top.{words_of, files_of, AreWhole, AreTextsOf, AnswersSome, AnswersWords, FailedFile, FailedRead, KeepsReading, statuses};

use crate::files::{FilesFault, read_files, walker_texts};
use std::alloc::Global;
use tel_base::{Sink, Source};
use tel_settings::{Input, Settings, SettingsFault, Word, settings};
use text_answer::{Status, answer, refuse_large, refuse_read, refuse_usage};

/// Answers the texts of these files.
fn answer_files<S: Source, O: Sink>(
    alloc: Global,
    settings: &Settings,
    files: &[Word],
    texts: &mut S,
    out: &mut O,
) -> Status
    requires { length files.now ≤ 16 }
    ensures delivers { (whole : List (List ℕ)) (verdict : Verdict) → map (S.text texts.old) files.now ≡ map Some whole → Stands (S.faults texts.old) (S.faults texts.new) → IsVerdict settings.now whole verdict
        → HasOutcome (λ status bytes. Delivers (code_of result) status bytes (O.bytes out.old) (O.bytes out.new)) settings.now verdict }
    ensures answers { TellsOfText (code_of result) → (read : List (List ℕ)) × AreTold (S.text texts.old) files.now read × Answers settings.now read (code_of result) (O.bytes out.old) (O.bytes out.new) }
    ensures read { S.faults texts.old < S.faults texts.new → FailedFile files.now (S.text texts.old) (S.failed texts.new) (S.faults texts.old) (S.faults texts.new) (code_of result) (O.bytes out.old) (O.bytes out.new) }
    ensures read_only { code_of result ≡ 66 → FailedFile files.now (S.text texts.old) (S.failed texts.new) (S.faults texts.old) (S.faults texts.new) (code_of result) (O.bytes out.old) (O.bytes out.new) }
    ensures read_stands { TellsOfText (code_of result) → S.faults texts.new ≡ S.faults texts.old }
    ensures texts { (word : List ℕ) → S.text texts.new word ≡ S.text texts.old word }
    ensures faults { TellsFaults (code_of result) (O.faults out.old) (O.faults out.new) }
    ensures never_usage { code_of result ≡ 64 → ⊥ }
{
    match read_files(alloc, texts, files) {
        Ok(read) => answer(alloc, out, settings, read.as_slice()),
        Err(FilesFault::Large) => refuse_large(out),
        Err(FilesFault::Read(place)) => refuse_read(out, place),
        Err(FilesFault::Memory) => Status::Memory,
    }
}

/// Answers the generated text of this number.
fn answer_walker<O: Sink>(alloc: Global, settings: &Settings, number: u32, out: &mut O) -> Status
    ensures delivers { (verdict : Verdict) → IsVerdict settings.now (walker_text number ∷ []) verdict
        → HasOutcome (λ status bytes. Delivers (code_of result) status bytes (O.bytes out.old) (O.bytes out.new)) settings.now verdict }
    ensures answers { TellsOfText (code_of result) → Answers settings.now (walker_text number ∷ []) (code_of result) (O.bytes out.old) (O.bytes out.new) }
    ensures kind { ComesOfText (code_of result) }
    ensures faults { TellsFaults (code_of result) (O.faults out.old) (O.faults out.new) }
{
    match walker_texts(alloc, number) {
        Ok(read) => answer(alloc, out, settings, read.as_slice()),
        Err(_) => Status::Memory,
    }
}

/// Answers the texts of the input.
fn answer_input<S: Source, O: Sink>(
    alloc: Global,
    settings: &Settings,
    texts: &mut S,
    out: &mut O,
) -> Status
    requires { IsWithinLimits settings.now }
    ensures delivers { (whole : List (List ℕ)) (verdict : Verdict) → AreWhole (S.text texts.old) settings.now.input whole → Stands (S.faults texts.old) (S.faults texts.new) → IsVerdict settings.now whole verdict
        → HasOutcome (λ status bytes. Delivers (code_of result) status bytes (O.bytes out.old) (O.bytes out.new)) settings.now verdict }
    ensures answers { TellsOfText (code_of result) → AnswersSome settings.now (S.text texts.old) (code_of result) (O.bytes out.old) (O.bytes out.new) }
    ensures read { S.faults texts.old < S.faults texts.new → FailedFile (files_of settings.now) (S.text texts.old) (S.failed texts.new) (S.faults texts.old) (S.faults texts.new) (code_of result) (O.bytes out.old) (O.bytes out.new) }
    ensures read_only { code_of result ≡ 66 → FailedFile (files_of settings.now) (S.text texts.old) (S.failed texts.new) (S.faults texts.old) (S.faults texts.new) (code_of result) (O.bytes out.old) (O.bytes out.new) }
    ensures read_stands { TellsOfText (code_of result) → S.faults texts.new ≡ S.faults texts.old }
    ensures texts { (word : List ℕ) → S.text texts.new word ≡ S.text texts.old word }
    ensures faults { TellsFaults (code_of result) (O.faults out.old) (O.faults out.new) }
    ensures never_usage { code_of result ≡ 64 → ⊥ }
{
    match &settings.input {
        Input::Files(files) => answer_files(alloc, settings, files.as_slice(), texts, out),
        Input::Number(number) => answer_walker(alloc, settings, *number, out),
    }
}

/// Answers the words, as `telingo` does.
fn answer_words<S: Source, O: Sink>(
    alloc: Global,
    words: &[String],
    texts: &mut S,
    out: &mut O,
) -> Status
    ensures usage { settings_of (words_of words.now) ≡ None → Delivers (code_of result) 64 usage_line (O.bytes out.old) (O.bytes out.new) }
    ensures usage_only { code_of result ≡ 64 → settings_of (words_of words.now) ≡ None }
    ensures delivers { (settings : Settings) (whole : List (List ℕ)) (verdict : Verdict) → AreTextsOf (words_of words.now) (S.text texts.old) settings whole → Stands (S.faults texts.old) (S.faults texts.new) → IsVerdict settings whole verdict
        → HasOutcome (λ status bytes. Delivers (code_of result) status bytes (O.bytes out.old) (O.bytes out.new)) settings verdict }
    ensures answers { TellsOfText (code_of result) → AnswersWords (words_of words.now) (S.text texts.old) (code_of result) (O.bytes out.old) (O.bytes out.new) }
    ensures read { S.faults texts.old < S.faults texts.new → FailedRead (words_of words.now) (S.text texts.old) (S.failed texts.new) (S.faults texts.old) (S.faults texts.new) (code_of result) (O.bytes out.old) (O.bytes out.new) }
    ensures read_only { code_of result ≡ 66 → FailedRead (words_of words.now) (S.text texts.old) (S.failed texts.new) (S.faults texts.old) (S.faults texts.new) (code_of result) (O.bytes out.old) (O.bytes out.new) }
    ensures read_stands { KeepsReading (code_of result) → S.faults texts.new ≡ S.faults texts.old }
    ensures texts { (word : List ℕ) → S.text texts.new word ≡ S.text texts.old word }
    ensures faults { TellsFaults (code_of result) (O.faults out.old) (O.faults out.new) }
{
    match settings(alloc, words) {
        Ok(settings) => answer_input(alloc, &settings, texts, out),
        Err(SettingsFault::Usage) => refuse_usage(out),
        Err(SettingsFault::Memory) => Status::Memory,
    }
}

/// Reads the texts of the file words, or generates one, and prints the temporal equilibrium models of their program,
/// length by length.
///
/// `words` are the words after the program's name, `texts` is where the files are read, `out` gets
/// what is printed, and `log` nothing. The answer is the exit status: 10 where a trace was printed,
/// 20 where none was and every length was completed, 30 where none was and the budget of conflicts cut a length, 64 for words
/// that are no line of the command, 65 for texts that are no program or have a statement that can't be instantiated, 66 for a read that failed, 69 for texts that
/// are too large, 71 for want of memory, and 74 for a write that failed.
pub fn telingo<S: Source, O: Sink, L: Sink>(
    alloc: Global,
    words: &[String],
    texts: &mut S,
    out: &mut O,
    log: &mut L,
) -> u8
    // 64 and its line come exactly where the words are no line of the command.
    ensures usage { settings_of (words_of words.now) ≡ None → Delivers result 64 usage_line (O.bytes out.old) (O.bytes out.new) }
    ensures usage_only { result ≡ 64 → settings_of (words_of words.now) ≡ None }

    // Where the words are a line whose files' texts are told, or whose text is generated, and no read fails, an outcome of the verdict of the whole texts is delivered.
    ensures answer { (settings : Settings) (whole : List (List ℕ)) (verdict : Verdict) → AreTextsOf (words_of words.now) (S.text texts.old) settings whole → Stands (S.faults texts.old) (S.faults texts.new) → IsVerdict settings whole verdict
        → HasOutcome (λ status bytes. Delivers result status bytes (O.bytes out.old) (O.bytes out.new)) settings verdict }
    // 10, 20, 30, 65 and 69 come only with such a verdict, whose whole output was printed.
    ensures answer_only { TellsOfText result → AnswersWords (words_of words.now) (S.text texts.old) result (O.bytes out.old) (O.bytes out.new) }

    // Accepted texts are answered by a run, whose budget cuts no length where it is ample, where no read and no write fails, unless memory runs out.
    ensures complete { (settings : Settings) (whole : List (List ℕ)) (theory : ProgramTheory) (width : ℕ) → AreTextsOf (words_of words.now) (S.text texts.old) settings whole
        → Stands (S.faults texts.old) (S.faults texts.new) → Stands (O.faults out.old) (O.faults out.new) → IsVerdict settings whole (Accepted theory width)
        → (result ≡ 71) ⊎ Completes settings theory width result (O.bytes out.old) (O.bytes out.new) }

    // A read that failed is delivered as such, 66 comes only with one, and with 10, 20, 30, 64, 65 and 69 none failed.
    ensures read { S.faults texts.old < S.faults texts.new → FailedRead (words_of words.now) (S.text texts.old) (S.failed texts.new) (S.faults texts.old) (S.faults texts.new) result (O.bytes out.old) (O.bytes out.new) }
    ensures read_only { result ≡ 66 → FailedRead (words_of words.now) (S.text texts.old) (S.failed texts.new) (S.faults texts.old) (S.faults texts.new) result (O.bytes out.old) (O.bytes out.new) }
    ensures no_read { KeepsReading result → S.faults texts.new ≡ S.faults texts.old }

    // 74 comes only where a write failed, and with every other status none did.
    ensures write { result ≡ 74 → Rose (O.faults out.old) (O.faults out.new) }
    ensures no_write { (result ≡ 74 → ⊥) → O.faults out.new ≡ O.faults out.old }

    ensures status { IsTrue (is_among statuses result) }
    ensures texts { (word : List ℕ) → S.text texts.new word ≡ S.text texts.old word }
    ensures log { log.new ≡ log.old }
{
    let _ = log;
    answer_words(alloc, words, texts, out).code()
}
