//! The rules of a role.

ghost use Rattle.std.specs.Prelude.{◌≡◌, map, option_map, None, Some, if◌then◌else◌};
ghost use Rattle.serde_json.specs.View.{view};
ghost use Rattle.json_fields.specs.Reads.{Reads};
ghost use Rattle.rbac_manifest.specs.Reads.{Loads};
ghost use Rattle.json_fields.specs.Lists.{bad_place, given_by};
ghost use Rattle.rbac_manifest.specs.Role.{rules_in};
ghost use Rattle.rbac_manifest.specs.Document.{bad_rules};
ghost use Rattle.rbac_manifest.specs.declared.fault.Cause.TheVariants.{BadRule};
ghost use Rattle.rbac_manifest.specs.Rule.{rule_at, rule_in, has_bad_field, is_bad_target};

use crate::fault::Cause;
use json_fields::{ItemFault, Trouble, all_read, list_field, object_in, words_field};
use rbac_terms::{Rule, Rules};
use serde_json::Value;
use std::alloc::Global;

// Whether a rule has a bad target: it must have a verb, and be for either resources or URLs; names
// are for resources alone, and a Role's rule isn't for URLs.
#[tactic(auto, unfolding(crate::specs::Rule::is_bad_target))]
fn is_bad_target(rule: &Rule, in_role: bool) -> bool
    ensures { result ≡ is_bad_target in_role rule.now }
{
    if rule.verbs.is_empty() {
        return true;
    }
    if rule.urls.is_empty() {
        rule.groups.is_empty() || rule.resources.is_empty()
    } else {
        in_role
            || !rule.groups.is_empty()
            || !rule.resources.is_empty()
            || !rule.resource_names.is_empty()
    }
}

// The rule that the fields of an object give, whatever its target.
fn rule_in(alloc: Global, value: &Value) -> Result<Rule, Trouble>
    ensures { Reads result
        (if has_bad_field (view value.now) then None else Some (rule_in (view value.now))) }
{
    Ok(Rule {
        verbs: words_field(alloc, value, "verbs")?,
        groups: words_field(alloc, value, "apiGroups")?,
        resources: words_field(alloc, value, "resources")?,
        resource_names: words_field(alloc, value, "resourceNames")?,
        urls: words_field(alloc, value, "nonResourceURLs")?,
    })
}

// The rule that an object gives.
#[tactic(auto, unfolding(crate::specs::Rule::rule_at))]
fn rule_of(alloc: Global, value: &Value, in_role: bool) -> Result<Rule, Trouble>
    ensures { Reads result (rule_at in_role (view value.now)) }
{
    let rule = rule_in(alloc, object_in(value)?)?;
    if is_bad_target(&rule, in_role) {
        return Err(Trouble::Shape);
    }
    Ok(rule)
}

// The rules that all items give. Fails at the first bad one.
fn rules_from(alloc: Global, values: &[Value], in_role: bool) -> Result<Rules, Cause>
    ensures { Loads result
        (option_map BadRule (bad_place (rule_at in_role) 0 (map view values.now)))
        (given_by (rule_at in_role) (map view values.now)) }
{
    match all_read(alloc, values, |alloc, value| rule_of(alloc, value, in_role)) {
        Ok(rules) => Ok(Rules::from_vec(rules)),
        Err(ItemFault::Bad(place)) => Err(Cause::BadRule(place)),
        Err(ItemFault::WithoutMemory) => Err(Cause::NoMemory),
    }
}

// The rules of a role.
#[tactic(auto, using(crate::proofs::Conditions::rules_are), unfolding(crate::specs::Document::bad_rules, crate::specs::Role::rules_in))]
pub(crate) fn read_rules(alloc: Global, document: &Value, in_role: bool) -> Result<Rules, Cause>
    ensures { Loads result (bad_rules in_role (view document.now))
        (rules_in in_role (view document.now)) }
{
    match list_field(document, "rules") {
        Some(values) => rules_from(alloc, values, in_role),
        None => Err(Cause::BadRule(0)),
    }
}
