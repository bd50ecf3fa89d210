//! Which rules are asked for.

use x509_findings::Rule;

/// How many rules there are.
const COUNT: usize = Rule::ALL.len();

/// A set of rules.
#[derive(Clone, Copy, Debug, PartialEq, Eq)]
pub struct RuleSet {
    has: [bool; COUNT],
}

impl RuleSet {
    /// All rules.
    pub const ALL: RuleSet = RuleSet { has: [true; COUNT] };

    /// No rule.
    pub const NONE: RuleSet = RuleSet {
        has: [false; COUNT],
    };

    /// The set with a rule, or without it.
    pub fn set(&mut self, rule: Rule, is_there: bool) {
        for (has, other) in self.has.iter_mut().zip(Rule::ALL.iter()) {
            if *other == rule {
                *has = is_there;
            }
        }
    }

    /// Whether a rule is in the set.
    pub fn contains(&self, rule: Rule) -> bool {
        self.has
            .iter()
            .zip(Rule::ALL.iter())
            .any(|(has, other)| *has && *other == rule)
    }
}
