//! The names of roles that rules let one bind. If a node can bind a role, and doesn't take over
//! everything in the scope by `bind` or `escalate`, it has a rule that is limited to names and lists
//! this role's name, or one that lets it bind each Role, but neither bind each cluster role nor
//! escalate Roles. So without such a rule, roles with other names needn't be nodes.

ghost use Rattle.std.specs.Prelude.{◌≡◌, ◌⊎◌, ◌↔◌, [], Any, Contains, IfOk, IsTrue, OnOk};
ghost use Rattle.rbac_terms.specs.Matching.{RuleAllows};
ghost use Rattle.rbac_terms.specs.Targets.{Resource};
ghost use Rattle.std.specs.List.Sorted.{IsStrictlySortedBy};
ghost use Rattle.rbac_terms.specs.Text.{Text, text_cmp};
ghost use Rattle.rbac_model.specs.Policies.{IsPolicy};
ghost use Rattle.rbac_paths.specs.BoundNames.{AreBoundNames, BindsEach, BindsEachRole};
ghost use Rattle.rbac_paths.specs.BoundNames.{BindsNamed, IsBoundName, SomeRule, TakesMore};
ghost use Rattle.rbac_paths.specs.Rows.{AreOfStep, MatchesRow};
ghost use Rattle.rbac_paths.specs.SharedWords.{AddsWhere};
ghost use Rattle.rbac_paths.specs.Steps.{table};
ghost use Rattle.rbac_steps.specs.declared.steps.Step.TheVariants.{Bind, Escalate};

use crate::rows::{WordRow, has_name, rows_of};
use crate::table::RBAC;
use rbac_model::Policy;
use rbac_steps::Step;
use rbac_terms::{ClusterRole, Role, Rule, Word, group_matches, resource_matches, verb_matches};
use std::alloc::{AllocError, Global};

/// Names of roles, in byte order, each once.
#[derive(Drop)]
pub(crate) struct BoundNames {
    /// The object names of all rules of the policy that let one bind roles. A cluster role with
    /// another name is taken over only with everything in its scope.
    pub(crate) listed: Vec<Word>,
    /// The same; and the names of all Roles, if a rule lets one bind each Role and doesn't take
    /// over everything too.
    pub(crate) all: Vec<Word>,
}

/// The names of the roles that rules of this policy let one bind, where `bind` and `escalate` count
/// if they are among these steps.
pub(crate) fn bound_names(
    alloc: Global,
    policy: &Policy,
    steps: &[Step],
) -> Result<BoundNames, AllocError>
    ensures names { IfOk result
        (λ names. AreBoundNames steps.now policy.now.held names.listed.items names.all.items) }
    ensures policy { OnOk result (IsPolicy policy.now) }
{
    let listed = names_in_rules(alloc, policy)?;
    let listed = in_order(listed);
    let all = all_bound(alloc, policy, steps, listed.as_slice())?;
    let all = in_order(all);
    Ok(BoundNames { listed, all })
}

// These names in byte order, each once.
fn in_order(names: Vec<Word>) -> Vec<Word>
    ensures ordered { IsStrictlySortedBy text_cmp result.items }
    ensures same { (name : Text) → Contains result.items name ↔ Contains names.items name }
{
    let mut sorted = names;
    sorted.sort_unstable();
    sorted.dedup();
    sorted
}

// The listed names, which are the object names of all rules of this policy that let one bind roles;
// and the names of all Roles, if a rule lets one bind each Role and doesn't take over everything by
// these steps. In any order and with repeats.
fn all_bound(
    alloc: Global,
    policy: &Policy,
    steps: &[Step],
    listed: &[Word],
) -> Result<Vec<Word>, AllocError>
    requires { (name : Text)
        → Contains listed.now name ↔ SomeRule (λ rule. BindsNamed rule name) policy.now.held }
    ensures { IfOk result (λ names. (name : Text)
        → Contains names.items name ↔ IsBoundName steps.now policy.now.held name) }
{
    let mut names = Vec::new(alloc);
    names.extend_with_clones(listed)?;
    if some_binds_each_role(alloc, policy, steps)? {
        add_role_names(alloc, policy.objects().roles(), &mut names)?;
    }
    Ok(names)
}

// The object names of all rules of this policy that let one bind roles, in any order.
fn names_in_rules(alloc: Global, policy: &Policy) -> Result<Vec<Word>, AllocError>
    ensures names { IfOk result (λ names. (name : Text)
        → Contains names.items name ↔ SomeRule (λ rule. BindsNamed rule name) policy.now.held) }
    ensures policy { OnOk result (IsPolicy policy.now) }
{
    let rows = rows_of(alloc, Step::Bind)?;
    let mut names = Vec::new(alloc);
    for role in policy.objects().roles() {
        add_names(rows.as_slice(), role.rules.as_slice(), &mut names)?;
    }
    for role in policy.objects().cluster_roles() {
        add_names(rows.as_slice(), role.rules.as_slice(), &mut names)?;
    }
    Ok(names)
}

// Adds the names of these Roles.
fn add_role_names(alloc: Global, roles: &[Role], names: &mut Vec<Word>) -> Result<(), AllocError>
    ensures { OnOk result (AddsWhere (λ name. Any (λ role. role.name ≡ name) roles.now)
        names.old.items names.new.items) }
{
    for role in roles {
        add_role_name(alloc, role, names)?;
    }
    Ok(())
}

// Adds the name of this Role.
fn add_role_name(alloc: Global, role: &Role, names: &mut Vec<Word>) -> Result<(), AllocError>
    ensures { OnOk result (AddsWhere (λ name. role.now.name ≡ name)
        names.old.items names.new.items) }
{
    names.push(Word::from_slice(alloc, role.name.as_bytes())?)?;
    Ok(())
}

// Whether some rule of this policy lets one bind each Role, and doesn't take over everything by
// these steps.
fn some_binds_each_role(alloc: Global, policy: &Policy, steps: &[Step]) -> Result<bool, AllocError>
    ensures { IfOk result
        (λ some. IsTrue some ↔ SomeRule (BindsEachRole steps.now) policy.now.held) }
{
    let verb = Word::from_slice(alloc, BIND)?;
    let escalate = Word::from_slice(alloc, ESCALATE)?;
    let group = Word::from_slice(alloc, RBAC.as_bytes())?;
    let roles = Word::from_slice(alloc, ROLES)?;
    let cluster_roles = Word::from_slice(alloc, CLUSTER_ROLES)?;
    let bind = BindWords {
        verb: &verb,
        escalate: &escalate,
        escalates: some_is_escalate(steps),
        group: &group,
        roles: &roles,
        cluster_roles: &cluster_roles,
    };
    Ok(some_rule_binds(policy, bind))
}

// Whether `escalate` is among these steps.
fn some_is_escalate(steps: &[Step]) -> bool
    ensures { IsTrue result ↔ Any (λ step. step ≡ Escalate) steps.now }
{
    steps.iter().any(|step| is_escalate(*step))
}

// Whether this step is `escalate`.
fn is_escalate(step: Step) -> bool
    ensures { IsTrue result ↔ (step ≡ Escalate) }
{
    step == Step::Escalate
}

// Whether some rule of this policy lets one bind each Role, and doesn't take over everything too.
fn some_rule_binds(policy: &Policy, bind: BindWords<'_>) -> bool
    ensures { IsTrue result ↔ SomeRule (BindsEach bind.entry) policy.now.held }
{
    some_role_binds(policy.objects().roles(), bind)
        || some_cluster_role_binds(policy.objects().cluster_roles(), bind)
}

// Whether some rule of these Roles lets one bind each Role, and doesn't take over everything too.
fn some_role_binds(roles: &[Role], bind: BindWords<'_>) -> bool
    ensures { IsTrue result ↔ Any (λ role. Any (BindsEach bind.entry) role.rules) roles.now }
{
    roles
        .iter()
        .any(|role| some_binds(bind, role.rules.as_slice()))
}

// Whether some rule of these cluster roles lets one bind each Role, and doesn't take over everything
// too.
fn some_cluster_role_binds(roles: &[ClusterRole], bind: BindWords<'_>) -> bool
    ensures { IsTrue result ↔ Any (λ role. Any (BindsEach bind.entry) role.rules) roles.now }
{
    roles
        .iter()
        .any(|role| some_binds(bind, role.rules.as_slice()))
}

// The words of requests to bind: the verb, the API group, and the resources Roles and cluster
// roles. Also the verb to escalate, and whether that counts.
#[derive(Clone, Copy)]
struct BindWords<'a> {
    verb: &'a Word,
    escalate: &'a Word,
    escalates: bool,
    group: &'a Word,
    roles: &'a Word,
    cluster_roles: &'a Word,
}

// Whether one of these rules lets one bind each Role, and doesn't take over everything too.
fn some_binds(bind: BindWords<'_>, rules: &[Rule]) -> bool
    ensures { IsTrue result ↔ Any (BindsEach bind.entry) rules.now }
{
    rules.iter().any(|rule| binds_each_role(bind, rule))
}

// Whether the rule lets one bind each Role, and doesn't take over everything too.
#[tactic(auto, unfolding(crate::specs::BoundNames::BindsEach))]
fn binds_each_role(bind: BindWords<'_>, rule: &Rule) -> bool
    ensures { IsTrue result ↔ BindsEach bind.entry rule.now }
{
    allows_any(bind, bind.verb, bind.roles, rule) && !takes_more(bind, rule)
}

// Whether the rule takes over everything where it counts, if it lets one bind Roles.
fn takes_more(bind: BindWords<'_>, rule: &Rule) -> bool
    ensures { IsTrue result ↔ TakesMore bind.entry rule.now }
{
    allows_any(bind, bind.verb, bind.cluster_roles, rule) || escalates_roles(bind, rule)
}

// Whether `escalate` counts, and the rule lets one write any rule into Roles.
fn escalates_roles(bind: BindWords<'_>, rule: &Rule) -> bool
    ensures { IsTrue result ↔ (IsTrue bind.entry.escalates × RuleAllows rule.now
        bind.entry.escalate.now (Resource bind.entry.group.now bind.entry.roles.now [])) }
{
    bind.escalates && allows_any(bind, bind.escalate, bind.roles, rule)
}

// Whether the rule allows this verb on roles of this kind, whatever their names.
fn allows_any(bind: BindWords<'_>, verb: &Word, kind: &Word, rule: &Rule) -> bool
    ensures { IsTrue result
        ↔ RuleAllows rule.now verb.now (Resource bind.entry.group.now kind.now []) }
{
    verb_matches(rule, verb)
        && group_matches(rule, bind.group)
        && resource_matches(rule, kind)
        && has_name(rule, b"")
}

// The verbs of requests to bind and to escalate, and the resources Roles and cluster roles.
const BIND: &[u8] = b"bind";

const ESCALATE: &[u8] = b"escalate";

const ROLES: &[u8] = b"roles";

const CLUSTER_ROLES: &[u8] = b"clusterroles";

// Adds the object names of the rules that let one bind roles.
fn add_names(rows: &[WordRow], rules: &[Rule], names: &mut Vec<Word>) -> Result<(), AllocError>
    requires { AreOfStep Bind table rows.now }
    ensures { OnOk result (AddsWhere (λ name. Any (λ rule. BindsNamed rule name) rules.now)
        names.old.items names.new.items) }
{
    for rule in rules {
        add_of_rule(rows, rule, names)?;
    }
    Ok(())
}

// Adds the object names of the rule, if it lets one bind roles.
fn add_of_rule(rows: &[WordRow], rule: &Rule, names: &mut Vec<Word>) -> Result<(), AllocError>
    requires { AreOfStep Bind table rows.now }
    ensures { OnOk result (AddsWhere (BindsNamed rule.now) names.old.items names.new.items) }
{
    // Most rules aren't limited to names, which is told sooner than what they match.
    if rule.resource_names.is_empty() {
        return Ok(());
    }
    if matches_some(rows, rule) {
        names.extend_with_clones(rule.resource_names.as_slice())?;
    }
    Ok(())
}

// Whether the rule matches one of these rows.
pub(crate) fn matches_some(rows: &[WordRow], rule: &Rule) -> bool
    ensures { IsTrue result ↔ Any (λ row. MatchesRow row rule.now) rows.now }
{
    rows.iter().any(|row| row.matches(rule))
}
