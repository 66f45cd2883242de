//! The text of a preference list.

ghost use Rattle.std.specs.Prelude.{◌≡◌, ◌++◌, length, take, OnOk, OnErr};
ghost use Rattle.std.specs.List.{flat_map};
ghost use Rattle.sync_path.specs.Paths.{parts};
ghost use Rattle.log_text.specs.Frame.{ended};
ghost use Rattle.log_text.specs.Reading.{GivesText};
ghost use Rattle.pref_list.specs.Prefs.{prefs_first, prefs_of, prefs_text, rule_text};

use crate::lines::print_rule;
use crate::rule_list::RuleList;
use crate::rules::Rule;
use log_text::LogFault;
use log_text::frame::print_end;
use log_text::pieces::read_text;
use std::alloc::Global;
use sync_path::NoMemory;

/// Reads the text of a preference list: at most 2^20 rules, at most 256 of them `under` or `all`, each of a log from 1
/// to 64.
///
/// The answer is the list whose text it is. A text of no preference list is refused at its earliest wrong line, lines
/// counted from 1: with Header at the first line; with End, Count or After where the text ends; and with Fields,
/// TooMany, TooWide, Number or Path at a line between them, looked for in this order. Memory may run out at any time.
pub fn read_prefs(alloc: Global, text: &[u8]) -> Result<Vec<Rule>, LogFault>
    ensures { GivesText (λ rules. rules.items) result (prefs_of (parts 10 text.now)) }
{
    let mut form = RuleList::new(alloc);
    read_text(alloc, &mut form, text)?;
    Ok(form.into_rules())
}

/// The first line and its line feed.
fn first_line() -> &'static [u8]
    ensures { result.now ≡ ended prefs_first }
{
    b"treeprefs 1\n"
}

/// Appends the text of the rules: one that `read_prefs` reads back, where they are in the limits of a preference list.
///
/// Where memory runs out, `out` begins with what it held.
#[tactic(auto, using(sync_path::proofs::CallerLemmas::kept_on, sync_path::proofs::CallerLemmas::kept_more), unfolding(crate::specs::Prefs::prefs_text))]
pub fn print_prefs(out: &mut Vec<u8>, rules: &[Rule]) -> Result<(), NoMemory>
    ensures ok { OnOk result (out.new.items ≡ out.old.items ++ prefs_text rules.now) }
    ensures err { OnErr result (take (length out.old.items) out.new.items ≡ out.old.items) }
{
    out.extend_from_slice(first_line())?;
    print_rules(out, rules)?;
    print_end(out, rules.len() as u64)
}

/// Appends the lines of the rules.
#[tactic(auto, using(sync_path::proofs::CallerLemmas::kept_on, sync_path::proofs::CallerLemmas::kept_more))]
fn print_rules(out: &mut Vec<u8>, rules: &[Rule]) -> Result<(), NoMemory>
    ensures ok { OnOk result
        (out.new.items ≡ out.old.items ++ flat_map (λ rule. ended (rule_text rule)) rules.now) }
    ensures err { OnErr result (take (length out.old.items) out.new.items ≡ out.old.items) }
{
    for rule in rules {
        print_rule(out, rule)?;
        out.push(b'\n')?;
    }
    Ok(())
}
