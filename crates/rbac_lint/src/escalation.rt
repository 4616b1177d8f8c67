//! Rules that let a subject grant more than it has.

ghost use Rattle.std.specs.Prelude.{◌≡◌, OnOk, IfOk, IsTrue, ◌↔◌, ◌⊎◌, codes};
ghost use Rattle.rbac_model.specs.Sources.{source_of};
ghost use Rattle.rbac_lint.specs.Lines.{AddsLines, OfEach};
ghost use Rattle.rbac_lint.specs.Findings.{Escalates, IsEscalationBy, IsEscalationAt};
ghost use Rattle.rbac_lint.specs.Findings.{IsEscalationOf, IsEscalation, MatchesResource};
ghost use Rattle.rbac_lint.specs.Escalation.{escalation_words};
ghost use Rattle.rbac_lint.specs.Wanted.{OfKept, OfWanted};

use crate::finding::{Finding, Findings, role_word};
use crate::roles::{role_at, role_count, wanted_rules};
use crate::wanted::Wanted;
use rbac_model::{Objects, SourceRole};
use rbac_terms::{Rule, Word, group_matches, resource_matches, verb_matches};
use std::alloc::{AllocError, Global};

const RBAC_GROUP: &[u8] = b"rbac.authorization.k8s.io";

const ROLES: &[u8] = b"roles";

const CLUSTER_ROLES: &[u8] = b"clusterroles";

const BIND: &[u8] = b"bind";

const ESCALATE: &[u8] = b"escalate";

// The verbs that let a subject grant more than it has, and the API group and resources they are
// for.
struct EscalationWords {
    bind: Word,
    escalate: Word,
    group: Word,
    roles: Word,
    cluster_roles: Word,
}

impl Drop for EscalationWords {
    fn drop(self) {
        let Self {
            bind,
            escalate,
            group,
            roles,
            cluster_roles,
        } = self;
    }
}

fn escalation_words(alloc: Global) -> Result<EscalationWords, AllocError>
    ensures { IfOk result (λ p. p ≡ escalation_words) }
{
    Ok(EscalationWords {
        bind: Word::from_slice(alloc, BIND)?,
        escalate: Word::from_slice(alloc, ESCALATE)?,
        group: Word::from_slice(alloc, RBAC_GROUP)?,
        roles: Word::from_slice(alloc, ROLES)?,
        cluster_roles: Word::from_slice(alloc, CLUSTER_ROLES)?,
    })
}

// Adds the findings that are asked for, for all plain roles.
pub(crate) fn find_escalations(
    alloc: Global,
    found: &mut Findings,
    objects: &Objects,
    wanted: &Wanted<'_>,
) -> Result<(), AllocError>
    ensures { OnOk result
        (AddsLines (OfWanted wanted.now (IsEscalation objects.now)) found.old found.new) }
{
    if !wanted.has_code(4) {
        return Ok(());
    }
    let words = escalation_words(alloc)?;
    for place in 0..role_count(objects) {
        find_in_role(alloc, found, wanted, &words, role_at(objects, place))?;
    }
    Ok(())
}

fn find_in_role(
    alloc: Global,
    found: &mut Findings,
    wanted: &Wanted<'_>,
    words: &EscalationWords,
    role: SourceRole<'_>,
) -> Result<(), AllocError>
    requires { words.now ≡ escalation_words }
    ensures { OnOk result
        (AddsLines (OfKept wanted.now (IsEscalationOf (source_of role.entry)))
        found.old found.new) }
{
    match wanted_rules(wanted, role) {
        Some(rules) => find_in_rules(alloc, found, words, role, rules),
        None => Ok(()),
    }
}

// Adds the findings for these rules of a role.
fn find_in_rules(
    alloc: Global,
    found: &mut Findings,
    words: &EscalationWords,
    role: SourceRole<'_>,
    rules: &[Rule],
) -> Result<(), AllocError>
    requires { words.now ≡ escalation_words }
    ensures { OnOk result
        (AddsLines (OfEach (IsEscalationAt (source_of role.entry)) rules.now) found.old found.new) }
{
    for (place, rule) in rules.iter().enumerate() {
        find_in_rule(alloc, found, words, role, place, rule)?;
    }
    Ok(())
}

fn find_in_rule(
    alloc: Global,
    found: &mut Findings,
    words: &EscalationWords,
    role: SourceRole<'_>,
    place: usize,
    rule: &Rule,
) -> Result<(), AllocError>
    requires { words.now ≡ escalation_words }
    ensures { OnOk result
        (AddsLines (IsEscalationAt (source_of role.entry) place rule.now) found.old found.new) }
{
    find_by_verb(alloc, found, words, role, place, rule, &words.bind)?;
    find_by_verb(alloc, found, words, role, place, rule, &words.escalate)
}

// Adds the finding for this verb, if there is one.
fn find_by_verb(
    alloc: Global,
    found: &mut Findings,
    words: &EscalationWords,
    role: SourceRole<'_>,
    place: usize,
    rule: &Rule,
    verb: &Word,
) -> Result<(), AllocError>
    requires { words.now ≡ escalation_words }
    ensures { OnOk result
        (AddsLines (IsEscalationBy verb.now (source_of role.entry) place rule.now)
        found.old found.new) }
{
    if !escalates(words, rule, verb) {
        return Ok(());
    }
    let object = role_word(alloc, role)?;
    let other = Word::from_slice(alloc, verb.as_bytes())?;
    found.push(Finding {
        code: 4,
        object,
        place: Some(place),
        other,
    })
}

// Whether the rule allows the verb on roles or cluster roles, whatever their names.
#[tactic(auto, unfolding(crate::specs::Findings::Escalates))]
fn escalates(words: &EscalationWords, rule: &Rule, verb: &Word) -> bool
    requires { words.now ≡ escalation_words }
    ensures { IsTrue result ↔ Escalates rule.now verb.now }
{
    verb_matches(rule, verb) && group_matches(rule, &words.group) && has_roles(words, rule)
}

fn has_roles(words: &EscalationWords, rule: &Rule) -> bool
    requires { words.now ≡ escalation_words }
    ensures { IsTrue result
        ↔ (MatchesResource rule.now (codes "roles")
        ⊎ MatchesResource rule.now (codes "clusterroles")) }
{
    resource_matches(rule, &words.roles) || resource_matches(rule, &words.cluster_roles)
}
