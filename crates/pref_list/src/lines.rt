//! The lines of a preference list: each is a rule.

ghost use Rattle.std.specs.Prelude.{◌≡◌, ◌≤◌, ◌<◌, ◌++◌, ◌∷◌, ℕ, List, None, length, take, decimal, OnOk, OnErr};
ghost use Rattle.sync_path.specs.Paths.{path_text};
ghost use Rattle.sync_path.specs.Reading.{path_of};
ghost use Rattle.log_text.specs.Frame.{end_number};
ghost use Rattle.log_text.specs.Reading.{AreFields, GivesLine};
ghost use Rattle.log_text.specs.declared.frame.TheConstants.{MAX_ITEMS};
ghost use Rattle.pref_list.specs.Prefs.{rule_text, is_wide, wide_rules, two_digits, log_number, rule_at, rule_of_all, of_log, of_place, rule_of};
ghost use Rattle.pref_list.specs.declared.rules.Rule.{Rule};
ghost use Rattle.pref_list.specs.declared.rules.Rule.TheVariants.{At, Under};

use crate::rules::{MAX_WIDE, Rule};
use itoa::Buffer;
use log_text::frame::{Fields, MAX_ITEMS, is_decimal, read_path};
use log_text::{LineFault, TextKind};
use refluent::MAX_LOGS;
use std::alloc::Global;
use sync_path::{NoMemory, Path};

/// Whether a rule is wide: it may name many nodes.
pub(crate) fn is_wide(rule: &Rule) -> bool
    ensures { result ≡ is_wide rule.now }
{
    match rule {
        Rule::At { .. } => false,
        Rule::Under { .. } | Rule::All { .. } => true,
    }
}

/// The value of one digit or two, and 0 of any other number of bytes.
fn two_digits(field: &[u8]) -> u32
    ensures { result ≡ two_digits field.now }
{
    match field {
        [ones] => ones.saturating_sub(b'0') as u32,
        [tens, ones] => 10 * tens.saturating_sub(b'0') as u32 + ones.saturating_sub(b'0') as u32,
        _ => 0,
    }
}

/// The number of a log, 1 to 64, of which the field is the decimal spelling.
fn log_number(field: &[u8]) -> Option<u32>
    ensures { result ≡ log_number field.now }
{
    let number = two_digits(field);
    if number > 0 && number <= MAX_LOGS as u32 && is_decimal(field, number as u64) {
        Some(number)
    } else {
        None
    }
}

/// The rule `at LOG PATH`.
fn read_at(alloc: Global, log: &[u8], path: &[u8]) -> Result<Rule, LineFault>
    ensures { GivesLine result (rule_at At (log_number log.now) (path_of path.now)) }
{
    let Some(log) = log_number(log) else {
        return Err(LineFault::Kind(TextKind::Number));
    };
    let path = read_path(alloc, path)?;
    Ok(Rule::At { log, path })
}

/// The rule `under LOG PATH`.
fn read_under(alloc: Global, log: &[u8], path: &[u8]) -> Result<Rule, LineFault>
    ensures { GivesLine result (rule_at Under (log_number log.now) (path_of path.now)) }
{
    let Some(log) = log_number(log) else {
        return Err(LineFault::Kind(TextKind::Number));
    };
    let path = read_path(alloc, path)?;
    Ok(Rule::Under { log, path })
}

/// The rule `all LOG`.
fn read_all(log: &[u8]) -> Result<Rule, LineFault>
    ensures { GivesLine result (rule_of_all (log_number log.now)) }
{
    match log_number(log) {
        Some(log) => Ok(Rule::All { log }),
        None => Err(LineFault::Kind(TextKind::Number)),
    }
}

/// The rule of a word and a log.
fn read_of_log(count: usize, wide: usize, word: &[u8], log: &[u8]) -> Result<Rule, LineFault>
    ensures gives { (before : List Rule) → count ≡ length before → wide ≡ wide_rules before →
        GivesLine result (of_log before word.now (log_number log.now)) }
    ensures few { OnOk result (count < MAX_ITEMS) }
{
    if word != b"all".as_slice() {
        return Err(LineFault::Kind(TextKind::Fields));
    }
    if count >= MAX_ITEMS {
        return Err(LineFault::Kind(TextKind::TooMany));
    }
    if wide >= MAX_WIDE {
        return Err(LineFault::Kind(TextKind::TooWide));
    }
    read_all(log)
}

/// The rule of a word, a log and a path.
fn read_of_place(
    alloc: Global,
    count: usize,
    wide: usize,
    word: &[u8],
    log: &[u8],
    path: &[u8],
) -> Result<Rule, LineFault>
    ensures gives { (before : List Rule) → count ≡ length before → wide ≡ wide_rules before →
        GivesLine result (of_place before word.now (log_number log.now) (path_of path.now)) }
    ensures few { OnOk result (count < MAX_ITEMS) }
{
    let narrow = word == b"at".as_slice();
    if !narrow && word != b"under".as_slice() {
        return Err(LineFault::Kind(TextKind::Fields));
    }
    if count >= MAX_ITEMS {
        return Err(LineFault::Kind(TextKind::TooMany));
    }
    if narrow {
        return read_at(alloc, log, path);
    }
    if wide >= MAX_WIDE {
        return Err(LineFault::Kind(TextKind::TooWide));
    }
    read_under(alloc, log, path)
}

/// The rule of a line's fields after `count` rules, so many of them `wide`.
pub(crate) fn read_rule(
    alloc: Global,
    count: usize,
    wide: usize,
    fields: Fields<'_>,
) -> Result<Rule, LineFault>
    ensures gives { (before : List Rule) (ps : List (List ℕ)) →
        count ≡ length before → wide ≡ wide_rules before →
        AreFields fields.entry ps → end_number ps ≡ None →
        GivesLine result (rule_of before ps) }
    ensures few { OnOk result (count < MAX_ITEMS) }
{
    match fields {
        Fields::Two(word, log) => read_of_log(count, wide, word, log),
        Fields::Three(word, log, path) => read_of_place(alloc, count, wide, word, log, path),
        _ => Err(LineFault::Kind(TextKind::Fields)),
    }
}

/// Appends a word and its space, and a log's number.
#[tactic(auto, using(sync_path::proofs::CallerLemmas::kept_on, sync_path::proofs::CallerLemmas::kept_more))]
fn print_log(out: &mut Vec<u8>, word: &[u8], log: u32) -> Result<(), NoMemory>
    ensures ok { OnOk result (out.new.items ≡ out.old.items ++ (word.now ++ decimal log)) }
    ensures err { OnErr result (take (length out.old.items) out.new.items ≡ out.old.items) }
{
    let mut buffer = Buffer::new();
    out.extend_from_slice(word)?;
    out.extend_from_slice(buffer.format(log).as_bytes())?;
    Ok(())
}

/// Appends a word and its space, a log's number, and a path.
#[tactic(auto, using(sync_path::proofs::CallerLemmas::kept_on, sync_path::proofs::CallerLemmas::kept_more))]
fn print_place(out: &mut Vec<u8>, word: &[u8], log: u32, path: &Path) -> Result<(), NoMemory>
    ensures ok { OnOk result (out.new.items ≡ out.old.items ++
        ((word.now ++ decimal log) ++ 32 ∷ path_text path.now)) }
    ensures err { OnErr result (take (length out.old.items) out.new.items ≡ out.old.items) }
{
    print_log(out, word, log)?;
    out.push(b' ')?;
    path.print_to(out)
}

/// Appends the line of a rule without its line feed.
#[tactic(auto, using(sync_path::proofs::CallerLemmas::kept_on, sync_path::proofs::CallerLemmas::kept_more))]
pub(crate) fn print_rule(out: &mut Vec<u8>, rule: &Rule) -> Result<(), NoMemory>
    ensures ok { OnOk result (out.new.items ≡ out.old.items ++ rule_text rule.now) }
    ensures err { OnErr result (take (length out.old.items) out.new.items ≡ out.old.items) }
{
    match rule {
        Rule::At { log, path } => print_place(out, b"at ".as_slice(), *log, path),
        Rule::Under { log, path } => print_place(out, b"under ".as_slice(), *log, path),
        Rule::All { log } => print_log(out, b"all ".as_slice(), *log),
    }
}
