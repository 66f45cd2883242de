//! Laws over the definitions alone: each is the contract of a function with an empty body.

ghost use Rattle.std.specs.Prelude.{◌≡◌, ℕ, List, IsTrue, Ok};
ghost use Rattle.sync_path.specs.Paths.{parts};
ghost use Rattle.sync_command.specs.Changes.{Change};
ghost use Rattle.refluent.specs.Sets.{HaveSameCommands, all_differ};
ghost use Rattle.refluent.specs.Drawn.{drawn_commands};
ghost use Rattle.pref_list.specs.declared.rules.Rule.{Rule};
ghost use Rattle.pref_list.specs.Prefs.{IsPrefs, prefs_of, prefs_text};
ghost use Rattle.pref_list.specs.Ranking.{ranking};

/// The ranking under any rules has each drawn command, and nothing else, once.
pub fn ranking_has_each_drawn_command_once()
    ensures once { (logs : List (List Change)) (rules : List Rule) →
        IsTrue (all_differ (ranking logs rules)) }
    ensures each { (logs : List (List Change)) (rules : List Rule) →
        HaveSameCommands (ranking logs rules) (drawn_commands logs) }
{}

/// A text is read as a list of rules exactly where it is the text of a preference list, which is that list: so two
/// preference lists with one text are equal.
pub fn preference_texts_are_exact()
    ensures text { (text : List ℕ) (rules : List Rule) →
        prefs_of (parts 10 text) ≡ Ok rules → (text ≡ prefs_text rules) × IsPrefs rules }
    ensures read { (rules : List Rule) → IsPrefs rules →
        prefs_of (parts 10 (prefs_text rules)) ≡ Ok rules }
    ensures one { (a b : List Rule) → IsPrefs a → IsPrefs b →
        prefs_text a ≡ prefs_text b → a ≡ b }
{}
