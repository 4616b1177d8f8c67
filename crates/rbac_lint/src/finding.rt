//! What lint finds, line by line.

ghost use Rattle.std.specs.Prelude.{◌≡◌, ◌++◌, ◌∷◌, [], decimal, IfOk, OnOk, option_map};
ghost use Rattle.rbac_terms.specs.Text.{slash};
ghost use Rattle.rbac_model.specs.Sources.{source_of};
ghost use Rattle.rbac_lint.specs.Lines.{object_text, scope_text};
ghost use Rattle.rbac_lint.specs.Roles.{source_object, binding_object, named_object, role_object};
ghost use Rattle.rbac_lint.specs.Roles.{cluster_role_object};

use rbac_model::SourceRole;
use rbac_terms::{Binding, CLUSTER_ROLE, CLUSTER_ROLE_BINDING, ROLE, ROLE_BINDING, RoleRef, Word};
use std::alloc::{AllocError, Global};
use std::marker::Model;

/// A finding (own). Its texts aren't escaped.
#[derive(Debug)]
pub struct Finding {
    /// What was found, as a number from 1: a dangling reference, an unused role, a redundant rule,
    /// a rule that escalates, an account without a namespace, a stale aggregate, or a replaced
    /// object.
    pub code: u8,
    /// The object: its kind, its namespace if it has one, and its name, with a slash between them.
    pub object: Word,
    /// The place of a rule or a subject in the object, from 0.
    pub place: Option<usize>,
    /// More about the finding: the role that the binding names, the number of the covering rule
    /// from 1, the verb, the account's name, or how many documents were replaced; otherwise empty.
    pub other: Word,
}

impl Drop for Finding {
    fn drop(self) {
        let Self {
            code,
            object,
            place,
            other,
        } = self;
    }
}

/// Findings, in order: as many as fit in memory.
#[derive(Debug, Drop)]
pub struct Findings {
    findings: Vec<Finding>,
}

impl Model for Findings {
    ghost use Rattle.std.specs.Prelude.{List};
    ghost use Rattle.rbac_lint.specs.declared.finding.Finding.{Finding};

    ghost Value = { List Finding };

    ghost view = { λ fs. fs.findings.items };
}

impl Findings {
    // No findings. Doesn't allocate.
    pub(crate) fn new(alloc: Global) -> Self
        ensures { result ≡ [] }
    {
        Findings {
            findings: Vec::new(alloc),
        }
    }

    /// The findings, in order.
    pub fn as_slice(&self) -> &[Finding]
        ensures { result.now ≡ self.now }
    {
        self.findings.as_slice()
    }

    // Adds a finding at the end.
    pub(crate) fn push(&mut self, finding: Finding) -> Result<(), AllocError>
        ensures { OnOk result (self.new ≡ self.old ++ finding ∷ []) }
    {
        self.findings.push(finding)?;
        Ok(())
    }
}

// The text of an object: its kind, its namespace if it has one, and its name.
pub(crate) fn object_word(
    alloc: Global,
    kind: &[u8],
    namespace: Option<&[u8]>,
    name: &Word,
) -> Result<Word, AllocError>
    ensures { IfOk result (λ w. w
        ≡ kind.now ++ slash ∷ scope_text (option_map (λ n. n.now) namespace.entry) ++ name.now) }
{
    let mut text = Word::from_slice(alloc, kind)?;
    add_name(&mut text, namespace, name)?;
    Ok(text)
}

// Adds the namespace, if there is one, and the name, each behind a slash.
fn add_name(text: &mut Word, namespace: Option<&[u8]>, name: &Word) -> Result<(), AllocError>
    ensures { OnOk result (text.new
        ≡ text.old ++ slash ∷ scope_text (option_map (λ n. n.now) namespace.entry) ++ name.now) }
{
    text.push(b'/')?;
    if let Some(namespace) = namespace {
        text.push_slice(namespace)?;
        text.push(b'/')?;
    }
    text.push_slice(name.as_bytes())
}

fn role_name_word(alloc: Global, namespace: &[u8], name: &Word) -> Result<Word, AllocError>
    ensures { IfOk result (λ w. w ≡ object_text (role_object namespace.now name.now)) }
{
    object_word(alloc, ROLE.as_bytes(), Some(namespace), name)
}

fn cluster_role_name_word(alloc: Global, name: &Word) -> Result<Word, AllocError>
    ensures { IfOk result (λ w. w ≡ object_text (cluster_role_object name.now)) }
{
    object_word(alloc, CLUSTER_ROLE.as_bytes(), None, name)
}

// A role as findings name it.
pub(crate) fn role_word(alloc: Global, role: SourceRole<'_>) -> Result<Word, AllocError>
    ensures { IfOk result (λ w. w ≡ object_text (source_object (source_of role.entry))) }
{
    match role {
        SourceRole::Role(role) => role_name_word(alloc, role.namespace.as_bytes(), &role.name),
        SourceRole::ClusterRole(role) => cluster_role_name_word(alloc, &role.name),
    }
}

// A binding as findings name it.
pub(crate) fn binding_word(alloc: Global, binding: &Binding) -> Result<Word, AllocError>
    ensures { IfOk result (λ w. w ≡ object_text (binding_object binding.now)) }
{
    let name = &binding.name;
    match &binding.namespace {
        Some(own) => object_word(alloc, ROLE_BINDING.as_bytes(), Some(own.as_bytes()), name),
        None => object_word(alloc, CLUSTER_ROLE_BINDING.as_bytes(), None, name),
    }
}

// The role that a binding names, as findings name it.
pub(crate) fn named_word(alloc: Global, binding: &Binding) -> Result<Word, AllocError>
    ensures { IfOk result
        (λ w. w ≡ object_text (named_object binding.now.namespace binding.now.role)) }
{
    match (&binding.namespace, &binding.role) {
        (Some(namespace), RoleRef::Role(name)) => role_name_word(alloc, namespace.as_bytes(), name),
        // A ClusterRoleBinding can name a Role, which is never held.
        (None, RoleRef::Role(name)) => role_name_word(alloc, &[], name),
        (_, RoleRef::ClusterRole(name)) => cluster_role_name_word(alloc, name),
    }
}

// A number as findings write it.
pub(crate) fn number_word(alloc: Global, number: usize) -> Result<Word, AllocError>
    ensures { IfOk result (λ w. w ≡ decimal number) }
{
    let text = format!(in alloc; "{number}")?;
    Word::from_slice(alloc, text.as_bytes())
}
