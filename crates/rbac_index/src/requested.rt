//! What is requested, and which rules allow it.

ghost use Rattle.std.specs.Prelude.{◌≡◌, ◌↔◌, IsTrue};
ghost use Rattle.rbac_index.specs.HolderViews.{requested_of};
ghost use Rattle.rbac_index.specs.Requested.{AllowsRequested, AnyName, StemOk, target_given};

use rbac_terms::{Rule, Target, Word, group_matches, resource_matches, rule_allows, verb_matches};

/// What holders are asked for (own).
#[derive(Clone, Copy)]
pub enum Requested<'a> {
    /// This target as it is.
    ThisTarget(&'a Target),
    /// This target, whatever its object name: the names of the target and of rules are ignored. A
    /// URL has no name.
    AnyName(&'a Target),
}

impl<'a> Requested<'a> {
    // The given target.
    pub(crate) fn target(self) -> &'a Target
        ensures { result.now ≡ target_given (requested_of self.entry) }
    {
        match self {
            Requested::ThisTarget(target) | Requested::AnyName(target) => target,
        }
    }
}

// Whether the rule allows the verb on what is requested.
pub(crate) fn allows_requested(rule: &Rule, verb: &Word, requested: Requested<'_>) -> bool
    ensures { IsTrue result ↔ AllowsRequested rule.now verb.now (requested_of requested.entry) }
{
    match requested {
        Requested::ThisTarget(target) => rule_allows(rule, verb, target),
        Requested::AnyName(target) => allows_any_name(rule, verb, target),
    }
}

// Whether the rule allows the verb on the target with some object name. A rule with names allows
// each of them, and a rule without names allows every name.
fn allows_any_name(rule: &Rule, verb: &Word, target: &Target) -> bool
    ensures { IsTrue result ↔ AllowsRequested rule.now verb.now (AnyName target.now) }
{
    if target.is_url() {
        return rule_allows(rule, verb, target);
    }
    verb_matches(rule, verb) && matches_stem(rule, target)
}

/// Whether words of the rule match the target's API group and resource text (rbac/v1 evaluation
/// helpers). Doesn't allocate.
pub fn matches_stem(rule: &Rule, target: &Target) -> bool
    ensures { IsTrue result ↔ StemOk rule.now target.now }
{
    group_matches(rule, target.group()) && resource_matches(rule, target.text())
}
