//! The permissions that one policy has and another one doesn't allow.

ghost use Rattle.std.specs.Prelude.{◌≡◌, ◌<◌, ◌↔◌, [], IfOk, IsTrue, OnOk, Some, Any, length};
ghost use Rattle.std.specs.Prelude.{map, slice_get};
ghost use Rattle.rbac_terms.specs.Principals.{given_of};
ghost use Rattle.std.specs.Option.{option_copied};
ghost use Rattle.rbac_diff.specs.Covering.{CoversWords};
ghost use Rattle.rbac_diff.specs.Finding.{Finds, FindsGained, IsByGrants, IsOfRule, IsGainedAt};
ghost use Rattle.rbac_diff.specs.Finding.{IsOnResource, IsOnTarget, IsOnUrl, IsUncovered};
ghost use Rattle.rbac_diff.specs.Finding.{IsOrdered, SearchFinds};
ghost use Rattle.rbac_diff.specs.Shown.{permitted_of};
ghost use Rattle.rbac_diff.specs.Unchanged.{AreFlags};

use crate::change::{ChangeKind, FoundChanges};
use crate::covering::{is_asked_for, is_covered};
use crate::origin::Origin;
use crate::permission::{Permission, Permitted, permission_text};
use crate::sharing::sharing;
use crate::stand_ins::AskedPolicy;
use crate::standing::covering_place;
use rbac_covering::OrderedRule;
use rbac_model::Policy;
use rbac_terms::{Binding, Principal, Rule, Word, subject_principal};
use std::alloc::{AllocError, Global};

// Adds each permission that `after` has and `before` doesn't allow, with the first binding that has
// it, unless it was found already. Only the bindings that are flagged have such permissions.
pub(crate) fn add_gained<'p>(
    alloc: Global,
    kind: ChangeKind,
    before: &Policy,
    after: &'p Policy,
    flags: &[bool],
    findings: &mut FoundChanges<'p>,
) -> Result<(), AllocError>
    requires { AreFlags after.now flags.now before.now }
    ensures { OnOk result
        (FindsGained kind before.now after.now (length after.now.held.bindings) findings.old
        findings.new) }
{
    if !flags.contains(&true) {
        return Ok(());
    }
    let asked = AskedPolicy::of(alloc, before)?;
    add_of_flagged(alloc, kind, &asked, after, flags, findings)
}

// Adds the permissions of the flagged bindings that the policy `asked` doesn't allow.
fn add_of_flagged<'p>(
    alloc: Global,
    kind: ChangeKind,
    asked: &AskedPolicy<'_>,
    after: &'p Policy,
    flags: &[bool],
    findings: &mut FoundChanges<'p>,
) -> Result<(), AllocError>
    requires { AreFlags after.now flags.now asked.now }
    ensures { OnOk result
        (FindsGained kind asked.now after.now (length after.now.held.bindings) findings.old
        findings.new) }
{
    let bindings: &'p [Binding] = after.bindings();
    for (place, binding) in bindings.iter().enumerate() {
        if flags[place] {
            let origin = Origin::new(alloc, kind, binding)?;
            add_of_binding(alloc, asked, after, place, &origin, findings)?;
        }
    }
    Ok(())
}

// Adds the permissions of the binding at this place that the policy `asked` doesn't allow.
fn add_of_binding<'p>(
    alloc: Global,
    asked: &AskedPolicy<'_>,
    after: &'p Policy,
    place: usize,
    origin: &Origin<'p>,
    findings: &mut FoundChanges<'p>,
) -> Result<(), AllocError>
    requires { slice_get after.now.held.bindings place ≡ Some origin.now.binding }
    ensures gained { OnOk result
        (Finds (IsGainedAt asked.now after.now place) origin.now findings.old findings.new) }
{
    let binding: &'p Binding = origin.binding();
    let namespace = binding.namespace.as_ref();
    if namespace.is_some_and(|namespace| namespace.is_empty()) {
        return Ok(());
    }
    for subject in binding.subjects.as_slice() {
        if let Some(principal) = subject_principal(alloc, subject, namespace)? {
            add_of_principal(alloc, asked, after, place, origin, &principal, findings)?;
        }
    }
    Ok(())
}

// Adds the permissions that the principal has by the binding at this place and that the policy
// `asked` doesn't allow.
fn add_of_principal<'p>(
    alloc: Global,
    asked: &AskedPolicy<'_>,
    after: &'p Policy,
    place: usize,
    origin: &Origin<'p>,
    principal: &Principal,
    findings: &mut FoundChanges<'p>,
) -> Result<(), AllocError>
    requires somewhere { ¬ (origin.now.binding.namespace ≡ Some []) }
    requires alone { given_of principal.now ≡ [] }
    ensures { OnOk result
        (Finds (λ p. (p.principal ≡ principal.now)
        × IsByGrants after.now place origin.now.binding.namespace p
        × IsUncovered asked.now p)
        origin.now findings.old findings.new) }
{
    let namespace = origin.binding().namespace.as_ref();
    let others = asked.rules_of(alloc, principal, namespace)?;
    let search = Search {
        origin,
        namespace,
        principal,
        others: others.as_slice(),
        ordered: &[],
    };
    add_of_grants(alloc, &search, after, place, findings)
}

// A search for the permissions that a principal has by a binding, and that the rules `others` of
// the other policy don't allow.
#[derive(Clone, Copy)]
struct Search<'a, 'p> {
    origin: &'a Origin<'p>,
    // The binding's namespace.
    namespace: Option<&'a Word>,
    principal: &'a Principal,
    others: &'a [&'a Rule],
    // The rules of `others` with their words in order; empty until single permissions are tested.
    ordered: &'a [OrderedRule<'a>],
}

// How many rules of the other policy are looked at behind the last one that was found.
const NEAR: usize = 64;

// Adds the permissions by the grants of the binding at this place. A rule that a rule of the other
// policy covers gives none. Most rules have the same order on both sides. So only the first is
// searched among all rules of the other policy, and each later one near the last one found: the
// other policy can have many more rules than the binding.
fn add_of_grants<'a, 'p>(
    alloc: Global,
    search: &'a Search<'a, 'p>,
    after: &'a Policy,
    place: usize,
    findings: &mut FoundChanges<'p>,
) -> Result<(), AllocError>
    ensures { OnOk result
        (SearchFinds search.now (IsByGrants after.now place (option_copied search.now.namespace))
        findings.old findings.new) }
{
    let (from, end) = after.grants_of(place);
    let mut first = 0;
    let mut count = search.others.len();
    for no in from..end {
        let rule = after.grant(no).rule;
        match covering_place(search.others, first, count, rule)? {
            Some(at) => first = at + 1,
            None => add_of_rule(alloc, search, rule, findings)?,
        }
        count = NEAR;
    }
    Ok(())
}

// Adds the permissions by one rule. Only rules that share words with it are asked.
fn add_of_rule<'a, 'p>(
    alloc: Global,
    search: &'a Search<'a, 'p>,
    rule: &'a Rule,
    findings: &mut FoundChanges<'p>,
) -> Result<(), AllocError>
    ensures { OnOk result
        (SearchFinds search.now (IsOfRule search.now rule.now) findings.old findings.new) }
{
    let near = sharing(alloc, search.others, rule)?;
    let ordered = in_order(alloc, near.as_slice())?;
    let narrow = Search {
        origin: search.origin,
        namespace: search.namespace,
        principal: search.principal,
        others: near.as_slice(),
        ordered: ordered.as_slice(),
    };
    add_of_verbs(alloc, &narrow, rule, findings)
}

// These rules with their words in order.
fn in_order<'a>(alloc: Global, rules: &[&'a Rule]) -> Result<Vec<OrderedRule<'a>>, AllocError>
    ensures { IfOk result (λ ordered. ordered.items ≡ map (λ r. r.now) rules.now) }
{
    let mut ordered = Vec::new(alloc);
    for rule in rules {
        ordered.push(OrderedRule::new(*rule)?)?;
    }
    Ok(ordered)
}

// Adds the permissions of each verb word of a rule.
fn add_of_verbs<'a, 'p>(
    alloc: Global,
    search: &'a Search<'a, 'p>,
    rule: &'a Rule,
    findings: &mut FoundChanges<'p>,
) -> Result<(), AllocError>
    requires { IsOrdered search.now }
    ensures { OnOk result
        (SearchFinds search.now (IsOfRule search.now rule.now) findings.old findings.new) }
{
    for verb in rule.verbs.as_slice() {
        add_of_verb(alloc, search, rule, verb, findings)?;
    }
    Ok(())
}

// Adds the permissions of one verb word: for resources, and through a ClusterRoleBinding for URLs.
fn add_of_verb<'a, 'p>(
    alloc: Global,
    search: &'a Search<'a, 'p>,
    rule: &'a Rule,
    verb: &Word,
    findings: &mut FoundChanges<'p>,
) -> Result<(), AllocError>
    requires { IsOrdered search.now }
    ensures { OnOk result
        (SearchFinds search.now (IsOnTarget search.now rule.now verb.now) findings.old
        findings.new) }
{
    for group in rule.groups.as_slice() {
        add_of_group(alloc, search, rule, verb, group, findings)?;
    }
    if search.namespace.is_none() {
        add_urls(alloc, search, rule, verb, findings)?;
    }
    Ok(())
}

// Adds the permissions of one verb word for resources of one API group word.
fn add_of_group<'a, 'p>(
    alloc: Global,
    search: &'a Search<'a, 'p>,
    rule: &'a Rule,
    verb: &Word,
    group: &'a Word,
    findings: &mut FoundChanges<'p>,
) -> Result<(), AllocError>
    requires { IsOrdered search.now }
    ensures { OnOk result
        (SearchFinds search.now
        (λ p. Any (λ resource. IsOnResource search.now rule.now verb.now group.now resource p)
        rule.now.resources) findings.old findings.new) }
{
    for resource in rule.resources.as_slice() {
        add_of_resource(alloc, search, rule, verb, group, resource, findings)?;
    }
    Ok(())
}

// Adds the permissions of one verb word for one resource word: for each name of the rule, or for
// any.
fn add_of_resource<'a, 'p>(
    alloc: Global,
    search: &'a Search<'a, 'p>,
    rule: &'a Rule,
    verb: &Word,
    group: &'a Word,
    resource: &'a Word,
    findings: &mut FoundChanges<'p>,
) -> Result<(), AllocError>
    requires { IsOrdered search.now }
    ensures { OnOk result
        (SearchFinds search.now
        (IsOnResource search.now rule.now verb.now group.now resource.now) findings.old
        findings.new) }
{
    let namespace: Option<&'a Word> = search.namespace;
    if rule.resource_names.is_empty() {
        let target = Permitted::Resource {
            namespace,
            group,
            resource,
            name: None,
        };
        return add(alloc, search, verb, target, findings);
    }
    for name in rule.resource_names.as_slice() {
        let target = Permitted::Resource {
            namespace,
            group,
            resource,
            name: Some(name),
        };
        add(alloc, search, verb, target, findings)?;
    }
    Ok(())
}

// Adds the permissions of one verb word for URLs.
fn add_urls<'a, 'p>(
    alloc: Global,
    search: &'a Search<'a, 'p>,
    rule: &'a Rule,
    verb: &Word,
    findings: &mut FoundChanges<'p>,
) -> Result<(), AllocError>
    requires { IsOrdered search.now }
    ensures { OnOk result
        (SearchFinds search.now (λ p. Any (λ w. IsOnUrl verb.now w p) rule.now.urls) findings.old
        findings.new) }
{
    for url in rule.urls.as_slice() {
        add(alloc, search, verb, Permitted::Url(url), findings)?;
    }
    Ok(())
}

// Adds one permission, unless it stands for no request, one of the other rules covers it, or it was
// found already.
fn add<'p>(
    alloc: Global,
    search: &Search<'_, 'p>,
    verb: &Word,
    target: Permitted<'_>,
    findings: &mut FoundChanges<'p>,
) -> Result<(), AllocError>
    requires { IsOrdered search.now }
    ensures { OnOk result
        (SearchFinds search.now
        (λ p. (p.verb ≡ verb.now) × (p.target ≡ permitted_of target.entry)) findings.old
        findings.new) }
{
    if !is_asked_for(target) || has_covered(search, verb, target) {
        return Ok(());
    }
    let permission = Permission {
        principal: search.principal,
        verb,
        target,
    };
    let text = permission_text(alloc, permission)?;
    let origin = search.origin.clone()?;
    findings.entry(text)?.or_insert(origin);
    Ok(())
}

// Whether one of the other rules allows the verb word on what is permitted.
fn has_covered(search: &Search<'_, '_>, verb: &Word, target: Permitted<'_>) -> bool
    requires { IsOrdered search.now }
    ensures { IsTrue result
        ↔ Any (λ r. CoversWords verb.now (permitted_of target.entry) r.now) search.now.others.now }
{
    is_covered(search.ordered, verb, target)
}
