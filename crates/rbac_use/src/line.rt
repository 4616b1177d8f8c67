//! How an unused part is printed.

ghost use Rattle.std.specs.Prelude.{◌≡◌, ◌++◌, [], OnOk, option_copied};
ghost use Rattle.rbac_model.specs.Sources.{grant_of, source_of};
ghost use Rattle.rbac_text.specs.Choice.{choice_text};
ghost use Rattle.rbac_text.specs.Row.{field_and_tab};
ghost use Rattle.rbac_text.specs.Why.{cluster_role_text, named_text, source_text};
ghost use Rattle.rbac_use.specs.UnusedTexts.{key_at, name_at, no_pair, no_target, of_grant};
ghost use Rattle.rbac_use.specs.UnusedTexts.{part_text, part_word, unused_text};
ghost use Rattle.rbac_use.specs.UnusedTexts.{role_text, rule_text, subject_text, target_text};
ghost use Rattle.rbac_use.specs.UnusedTexts.{unused_line, word_at, words_text};

use crate::permission::TargetPlaces;
use crate::unused::{Part, Unused};
use rbac_model::{Grant, Policy, SourceRole};
use rbac_terms::{Binding, RoleRef, Rule, Word, subject_principal};
use rbac_text::{put_binding, put_field, put_field_and_tab, put_place, put_role};
use std::alloc::{AllocError, Global};

// Two empty fields, with a tab after each.
const NO_PAIR: &[u8] = b"-\t-\t";

// Three empty fields.
const NO_TARGET: &[u8] = b"-\t-\t-";

// What comes before the name of a role of the whole cluster.
const CLUSTER_ROLE: &[u8] = b"ClusterRole/";

impl Part {
    /// The word for a line about this part, as it is printed (own).
    pub fn word(self) -> &'static [u8]
        ensures { result.now ≡ part_word self }
    {
        match self {
            Part::Whole => b"binding",
            Part::Subject(_) => b"subject",
            Part::Rule(_) => b"rule",
            Part::Permission { .. } => b"permission",
        }
    }
}

/// Adds the line of an unused part (own): ten fields, joined by tabs, with a newline at the end.
/// The fields are the part's word; its binding and the role that this names; the role where the
/// rule is written and the rule's place there; the subject's place and the key of whom it stands
/// for, or nothing and the verb; and the API group, the resource or URL, and the object name, `*`
/// for any. Places are printed as counted from 1; what a part doesn't have is empty. Of a binding or
/// a grant that the policy doesn't have, nothing is printed. If it runs out of memory, a prefix of
/// the line may have been added.
pub fn put_unused(
    alloc: Global,
    line: &mut Vec<u8>,
    policy: &Policy,
    unused: Unused,
) -> Result<(), AllocError>
    ensures { OnOk result (line.new.items ≡ line.old.items ++ unused_line policy.now unused) }
{
    let Some(binding) = policy.bindings().get(unused.binding) else {
        return Ok(());
    };
    put_line(alloc, line, policy, binding, unused.part)
}

// Adds the line of this part of a binding.
fn put_line(
    alloc: Global,
    line: &mut Vec<u8>,
    policy: &Policy,
    binding: &Binding,
    part: Part,
) -> Result<(), AllocError>
    ensures { OnOk result (line.new.items
        ≡ line.old.items ++ unused_text policy.now part binding.now) }
{
    put_field_and_tab(line, part.word())?;
    put_named_binding(alloc, line, binding)?;
    put_part(alloc, line, policy, binding, part)?;
    line.push(b'\n')?;
    Ok(())
}

// Adds a binding and the role that it names, each with a tab after it.
fn put_named_binding(alloc: Global, line: &mut Vec<u8>, binding: &Binding) -> Result<(), AllocError>
    ensures { OnOk result (line.new.items ≡ line.old.items ++ role_text binding.now) }
{
    put_binding(line, binding)?;
    line.push(b'\t')?;
    put_named_role(alloc, line, binding)?;
    line.push(b'\t')?;
    Ok(())
}

// Adds the role that a binding names.
fn put_named_role(alloc: Global, line: &mut Vec<u8>, binding: &Binding) -> Result<(), AllocError>
    ensures { OnOk result (line.new.items
        ≡ line.old.items ++ named_text binding.now.namespace binding.now.role) }
{
    match (&binding.namespace, &binding.role) {
        (Some(namespace), RoleRef::Role(name)) => put_role(line, namespace, name),
        // A ClusterRoleBinding can name a Role, but grants nothing then.
        (None, RoleRef::Role(name)) => put_role(line, &Word::new(alloc), name),
        (_, RoleRef::ClusterRole(name)) => put_cluster_role(alloc, line, name),
    }
}

// Adds a role of the whole cluster.
fn put_cluster_role(alloc: Global, line: &mut Vec<u8>, name: &Word) -> Result<(), AllocError>
    ensures { OnOk result (line.new.items ≡ line.old.items ++ cluster_role_text name.now) }
{
    let mut role = Word::from_slice(alloc, CLUSTER_ROLE)?;
    role.push_slice(name.as_bytes())?;
    put_field(line, role.as_bytes())
}

// Adds the fields of the part.
fn put_part(
    alloc: Global,
    line: &mut Vec<u8>,
    policy: &Policy,
    binding: &Binding,
    part: Part,
) -> Result<(), AllocError>
    ensures { OnOk result (line.new.items
        ≡ line.old.items ++ part_text policy.now binding.now part) }
{
    match part {
        Part::Whole => {
            line.extend_from_slice(NO_PAIR)?;
            line.extend_from_slice(NO_PAIR)?;
            line.extend_from_slice(NO_TARGET)
        }
        Part::Subject(place) => {
            line.extend_from_slice(NO_PAIR)?;
            put_subject(alloc, line, binding, place)?;
            line.extend_from_slice(NO_TARGET)
        }
        Part::Rule(number) => put_rule(alloc, line, policy, number),
        Part::Permission {
            number,
            verb,
            target,
        } => put_words(alloc, line, policy, number, verb, target),
    }
}

// Adds the fields of a rule, if the policy has the grant with this number.
fn put_rule(
    alloc: Global,
    line: &mut Vec<u8>,
    policy: &Policy,
    number: u32,
) -> Result<(), AllocError>
    ensures { OnOk result (line.new.items ≡ line.old.items
        ++ of_grant policy.now number (λ g. rule_text g ++ no_pair ++ no_target)) }
{
    if policy.len() <= number {
        return Ok(());
    }
    put_rule_place(alloc, line, policy.grant(number))?;
    line.extend_from_slice(NO_PAIR)?;
    line.extend_from_slice(NO_TARGET)
}

// Adds the fields of a permission, if the policy has the grant with this number.
fn put_words(
    alloc: Global,
    line: &mut Vec<u8>,
    policy: &Policy,
    number: u32,
    verb: usize,
    target: TargetPlaces,
) -> Result<(), AllocError>
    ensures { OnOk result (line.new.items ≡ line.old.items ++ of_grant policy.now number
        (λ g. rule_text g ++ field_and_tab [] ++ words_text g.rule.rule verb target)) }
{
    if policy.len() <= number {
        return Ok(());
    }
    put_permission(alloc, line, policy.grant(number), verb, target)
}

// Adds the place of a subject, and the key of whom it stands for.
fn put_subject(
    alloc: Global,
    line: &mut Vec<u8>,
    binding: &Binding,
    place: usize,
) -> Result<(), AllocError>
    ensures { OnOk result (line.new.items ≡ line.old.items ++ subject_text binding.now place) }
{
    put_place(line, place)?;
    line.push(b'\t')?;
    put_key(alloc, line, binding, place)
}

// Adds the key of whom the subject at this place stands for, with a tab after it.
fn put_key(
    alloc: Global,
    line: &mut Vec<u8>,
    binding: &Binding,
    place: usize,
) -> Result<(), AllocError>
    ensures { OnOk result (line.new.items
        ≡ line.old.items ++ field_and_tab (key_at binding.now place)) }
{
    let Some(subject) = binding.subjects.as_slice().get(place) else {
        return put_field_and_tab(line, b"".as_slice());
    };
    match subject_principal(alloc, subject, binding.namespace.as_ref())? {
        Some(principal) => put_field_and_tab(line, principal.key().as_bytes()),
        None => put_field_and_tab(line, b"".as_slice()),
    }
}

// Adds the role where the rule of a grant is written, and the rule's place there.
fn put_rule_place(alloc: Global, line: &mut Vec<u8>, grant: Grant<'_>) -> Result<(), AllocError>
    ensures { OnOk result (line.new.items
        ≡ line.old.items ++ rule_text (grant_of grant.entry)) }
{
    put_source(alloc, line, grant.source)?;
    line.push(b'\t')?;
    put_place(line, grant.place)?;
    line.push(b'\t')?;
    Ok(())
}

// Adds the role where a rule is written.
fn put_source(alloc: Global, line: &mut Vec<u8>, source: SourceRole<'_>) -> Result<(), AllocError>
    ensures { OnOk result
        (line.new.items ≡ line.old.items ++ source_text (source_of source.entry)) }
{
    match source {
        SourceRole::Role(role) => put_role(line, &role.namespace, &role.name),
        SourceRole::ClusterRole(role) => put_cluster_role(alloc, line, &role.name),
    }
}

// Adds the fields of a permission: of its rule, no subject, and its words.
fn put_permission(
    alloc: Global,
    line: &mut Vec<u8>,
    grant: Grant<'_>,
    verb: usize,
    target: TargetPlaces,
) -> Result<(), AllocError>
    ensures { OnOk result (line.new.items ≡ line.old.items ++ rule_text (grant_of grant.entry)
        ++ field_and_tab [] ++ words_text grant.entry.rule.now verb target) }
{
    put_rule_place(alloc, line, grant)?;
    put_field_and_tab(line, b"".as_slice())?;
    put_field_and_tab(line, word_at(grant.rule.verbs.as_slice(), verb))?;
    put_target(line, grant.rule, target)
}

// Adds the words of a target.
fn put_target(line: &mut Vec<u8>, rule: &Rule, target: TargetPlaces) -> Result<(), AllocError>
    ensures { OnOk result (line.new.items ≡ line.old.items ++ target_text rule.now target) }
{
    match target {
        TargetPlaces::Url(url) => {
            put_field_and_tab(line, b"".as_slice())?;
            put_field_and_tab(line, word_at(rule.urls.as_slice(), url))?;
            put_field(line, b"".as_slice())
        }
        TargetPlaces::Resource {
            group,
            resource,
            name,
        } => {
            put_field_and_tab(line, word_at(rule.groups.as_slice(), group))?;
            put_field_and_tab(line, word_at(rule.resources.as_slice(), resource))?;
            put_choice(line, name_at(rule.resource_names.as_slice(), name))
        }
    }
}

// The word at this place; empty if there is none.
fn word_at(words: &[Word], place: usize) -> &[u8]
    ensures { result.now ≡ word_at words.now place }
{
    match words.get(place) {
        Some(word) => word.as_bytes(),
        None => b"".as_slice(),
    }
}

// The object name at this place; none for any name.
fn name_at(names: &[Word], place: Option<usize>) -> Option<&Word>
    ensures { option_copied result ≡ name_at names.now place }
{
    match place {
        Some(place) => names.get(place),
        None => None,
    }
}

// Adds an object name as the last field, or `*` for any if there is none.
fn put_choice(line: &mut Vec<u8>, name: Option<&Word>) -> Result<(), AllocError>
    ensures { OnOk result
        (line.new.items ≡ line.old.items ++ choice_text (option_copied name.entry)) }
{
    match name {
        None => line.extend_from_slice(b"*"),
        Some(name) if name.as_bytes() == b"*".as_slice() => line.extend_from_slice(b"\\x2a"),
        Some(name) => put_field(line, name.as_bytes()),
    }
}
