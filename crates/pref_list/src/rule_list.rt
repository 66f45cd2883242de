//! The rules of a preference list that is read.

ghost use Rattle.std.specs.Prelude.{◌≡◌, ◌≤◌, [], length};
ghost use Rattle.log_text.specs.declared.frame.TheConstants.{MAX_ITEMS};
ghost use Rattle.pref_list.specs.Prefs.{wide_rules};

use crate::lines::{is_wide, read_rule};
use crate::rules::Rule;
use log_text::LineFault;
use log_text::frame::{Fields, MAX_ITEMS};
use log_text::pieces::Form;
use std::alloc::Global;

/// All rules so far, and how many of them are wide.
#[derive(Drop)]
pub(crate) struct RuleList {
    rules: Vec<Rule>,
    wide: usize,
    ghost few: { length rules.items ≤ MAX_ITEMS },
    ghost counted: { wide ≡ wide_rules rules.items },
}

impl RuleList {
    pub(crate) fn new(alloc: Global) -> RuleList
        ensures { result.rules.items ≡ [] }
    {
        RuleList {
            rules: Vec::new(alloc),
            wide: 0,
        }
    }

    pub(crate) fn into_rules(self) -> Vec<Rule>
        ensures { result ≡ self.rules }
    {
        let RuleList { rules, wide: _wide } = self;
        rules
    }
}

impl Form for RuleList {
    ghost use Rattle.pref_list.specs.declared.rules.Rule.{Rule as RuleValue};
    ghost use Rattle.pref_list.specs.Prefs.{prefs_head, judge_rule};
    ghost use Rattle.pref_list.specs.RuleLists.{IsRuleList};

    ghost Item = { RuleValue };

    ghost Past = { Unit {0} };

    ghost Head = { Unit {0} };

    ghost first = { prefs_head };

    ghost judge = { judge_rule };

    ghost holds = { IsRuleList };

    fn opens(&mut self, line: &[u8]) -> bool {
        line == b"treeprefs 1".as_slice()
    }

    fn count(&self) -> usize {
        self.rules.len()
    }

    fn add(&mut self, alloc: Global, fields: Fields<'_>) -> Result<(), LineFault> {
        let rule = read_rule(alloc, self.rules.len(), self.wide, fields)?;
        let wide = is_wide(&rule);
        match self.rules.push(rule) {
            Ok(()) => {
                if wide {
                    self.wide += 1;
                }
                Ok(())
            }
            Err(_) => Err(LineFault::Memory),
        }
    }
}
