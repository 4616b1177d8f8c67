//! Which rules can be used: some request can match them through their bindings.

ghost use Rattle.std.specs.Prelude.{◌↔◌, Any, IsTrue, option_copied};
ghost use Rattle.rbac_terms.specs.Targets.{IsResourceText};
ghost use Rattle.rbac_use.specs.Usable.{HasResource, HasSomebody, HasTarget, HasUrl};
ghost use Rattle.rbac_use.specs.Used.{CanBeUsed, NamesSomebody};

use rbac_model::gives_path;
use rbac_terms::{Binding, Rule, Subject, Word, is_resource_text};

// Whether some request can match the rule through the binding.
pub(crate) fn can_be_used(binding: &Binding, rule: &Rule) -> bool
    ensures { IsTrue result ↔ CanBeUsed binding.now rule.now }
{
    if rule.verbs.is_empty() || !names_somebody(binding) {
        return false;
    }
    has_target(binding.namespace.as_ref(), rule)
}

// Whether some request can be for a target of the rule where a binding in this namespace, or a
// ClusterRoleBinding if there is none, counts.
fn has_target(namespace: Option<&Word>, rule: &Rule) -> bool
    ensures { IsTrue result ↔ HasTarget (option_copied namespace.entry) rule.now }
{
    match namespace {
        Some(namespace) => !namespace.is_empty() && has_resource(rule),
        None => has_resource(rule) || has_url(rule),
    }
}

fn has_resource(rule: &Rule) -> bool
    ensures { IsTrue result ↔ HasResource rule.now }
{
    !rule.groups.is_empty() && has_resource_text(rule)
}

fn has_resource_text(rule: &Rule) -> bool
    ensures { IsTrue result ↔ Any IsResourceText rule.now.resources }
{
    rule.resources
        .as_slice()
        .iter()
        .any(|word| is_resource_text(word.as_bytes()))
}

fn has_url(rule: &Rule) -> bool
    ensures { IsTrue result ↔ HasUrl rule.now }
{
    rule.urls.as_slice().iter().any(|word| gives_path(word))
}

// Whether some subject of the binding names somebody.
fn names_somebody(binding: &Binding) -> bool
    ensures { IsTrue result ↔ HasSomebody binding.now }
{
    let namespace = binding.namespace.as_ref();
    binding
        .subjects
        .as_slice()
        .iter()
        .any(|subject| is_for_somebody(subject, namespace))
}

// Whether a subject of a binding in this namespace, or of a ClusterRoleBinding if there is none,
// names somebody: an account of no namespace is nobody.
pub(crate) fn is_for_somebody(subject: &Subject, namespace: Option<&Word>) -> bool
    ensures { IsTrue result ↔ NamesSomebody (option_copied namespace.entry) subject.now }
{
    match subject {
        Subject::Account { namespace: own, .. } => own.is_some() || namespace.is_some(),
        _ => true,
    }
}
