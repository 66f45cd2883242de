//! The text of an operand, from the words.

ghost use Rattle.std.specs.Prelude.{◌≡◌, true, false, drop, IfSome, IfNone};
ghost use Rattle.tool_words.specs.Words.{texts_of};
ghost use Rattle.tool_words.specs.Logs.{has_prefs_prefix};
ghost use Rattle.tool_words.specs.Operands.{text_at};

/// FILE of a word `--prefs=FILE`.
pub(crate) fn file_in_word(word: &str) -> Option<&str>
    ensures some { IfSome result (λ file.
        (has_prefs_prefix word.now ≡ true) × (file.now ≡ drop 8 word.now)) }
    ensures none { IfNone result (has_prefs_prefix word.now ≡ false) }
{
    word.strip_prefix("--prefs=")
}

/// The text of the operand whose word is at this place, as a message names it: FILE of a word
/// `--prefs=FILE`, and any other word itself. No text past the last word. It takes no memory.
#[tactic(auto, using(crate::proofs::Numbered::word_here, crate::proofs::Numbered::no_word))]
pub fn operand_text(words: &[String], place: usize) -> &str
    ensures { result.now ≡ text_at (texts_of words.now) place }
{
    if place >= words.len() {
        return "";
    }
    let word = words[place].as_str();
    match file_in_word(word) {
        Some(file) => file,
        None => word,
    }
}
