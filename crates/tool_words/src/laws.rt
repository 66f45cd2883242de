//! Laws on the words: each function's contract is a law, and its body is empty.

ghost use Rattle.std.specs.Prelude.{List};
ghost use Rattle.tool_words.specs.Words.{Text};
ghost use Rattle.tool_words.specs.Jobs.{job_of};
ghost use Rattle.tool_words.specs.Operands.{AreInPlace, operands_in};

/// Each operand of a job has the text of the word at its place: FILE of a word `--prefs=FILE`, and
/// any other word itself.
pub fn operands_are_words()
    ensures { (words : List Text) → AreInPlace words (operands_in (job_of words)) }
{}
