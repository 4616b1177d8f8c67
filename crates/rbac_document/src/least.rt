//! The document of a least policy.

ghost use Rattle.std.specs.Prelude.{◌≡◌, ◌++◌, IfOk, OnOk, codes, map, option_map};
ghost use Rattle.json.specs.Print.{quoted};
ghost use Rattle.rbac_log.specs.Acting.{account_parts};
ghost use Rattle.rbac_document.specs.LeastDocument.{binding_kind, binding_text, bounds_of};
ghost use Rattle.rbac_document.specs.LeastDocument.{everywhere_bound, head_text, home_text};
ghost use Rattle.rbac_document.specs.LeastDocument.{least_text, namespace_bound, role_kind};
ghost use Rattle.rbac_document.specs.LeastDocument.{role_ref_text, role_text, rule_text};
ghost use Rattle.rbac_document.specs.LeastDocument.{subject_for, texts_text, words_text};

use crate::document::put_member;
use crate::entry::{Entry, put_after, put_joined};
use crate::quoted::put_quoted;
use rbac_log::account_parts;
use rbac_terms::{
    CLUSTER_ROLE, CLUSTER_ROLE_BINDING, ROLE, ROLE_BINDING, Rule, Rules, Word, Words,
};
use rbac_use::{Least, NamespaceRules};
use std::alloc::{AllocError, Global};
use std::marker::Model;

// Rules that are bound to a user.
#[derive(Drop)]
struct Bound<'a> {
    // The name of the role and of its binding.
    name: &'a Word,
    user: &'a Word,
    // The namespace; `None` is the whole cluster.
    home: Option<&'a Word>,
    rules: &'a Rules,
}

impl<'a> Model for Bound<'a> {
    ghost use Rattle.std.specs.Prelude.{option_map};
    ghost use Rattle.rbac_document.specs.LeastDocument.{BoundView};

    ghost Value = { BoundView };

    ghost view = { λ b. record {
      name = b.name.now;
      user = b.user.now;
      home = option_map (λ namespace. namespace.now) b.home;
      rules = b.rules.now;
    } };
}

/// Adds the document of a least policy (own): a List with a ClusterRole and its ClusterRoleBinding,
/// if there are rules for the whole cluster, and then with a Role and its RoleBinding for each
/// namespace, in order, each object on a line of its own. All of them have this name, and the
/// bindings are for this user: a service account is a subject by its namespace and name, any other
/// user by its user name. If it runs out of memory, a prefix of the document may have been added.
pub fn put_least(
    document: &mut Vec<u8>,
    name: &Word,
    user: &Word,
    least: &Least,
) -> Result<(), AllocError>
    ensures { OnOk result
        (document.new.items ≡ document.old.items ++ least_text name.now user.now least.now) }
{
    let alloc = *document.allocator();
    let bounds = bounds_of(alloc, name, user, least)?;
    document.extend_from_slice(b"{\n  \"apiVersion\": \"v1\",\n  \"kind\": \"List\"")?;
    put_member(document, b"items", bounds.as_slice())?;
    document.extend_from_slice(b"\n}\n")
}

// The rules of a least policy and where they are bound: those for the whole cluster, if there are
// any, and then those of each namespace.
fn bounds_of<'a>(
    alloc: Global,
    name: &'a Word,
    user: &'a Word,
    least: &'a Least,
) -> Result<Vec<Bound<'a>>, AllocError>
    ensures { IfOk result (λ bounds. bounds.items ≡ bounds_of name.now user.now least.now) }
{
    let mut bounds = everywhere_bounds(alloc, name, user, &least.everywhere)?;
    add_namespaces(name, user, least.namespaces.as_slice(), &mut bounds)?;
    Ok(bounds)
}

// The rules for the whole cluster, if there are any.
fn everywhere_bounds<'a>(
    alloc: Global,
    name: &'a Word,
    user: &'a Word,
    rules: &'a Rules,
) -> Result<Vec<Bound<'a>>, AllocError>
    ensures { IfOk result
        (λ bounds. bounds.items ≡ everywhere_bound name.now user.now rules.now) }
{
    let mut bounds = Vec::new(alloc);
    if rules.is_empty() {
        return Ok(bounds);
    }
    bounds.push(Bound {
        name,
        user,
        home: None,
        rules,
    })?;
    Ok(bounds)
}

// Adds the rules of each namespace.
fn add_namespaces<'a>(
    name: &'a Word,
    user: &'a Word,
    parts: &'a [NamespaceRules],
    bounds: &mut Vec<Bound<'a>>,
) -> Result<(), AllocError>
    ensures { OnOk result (bounds.new.items
        ≡ bounds.old.items ++ map (namespace_bound name.now user.now) parts.now) }
{
    for part in parts {
        bounds.push(Bound {
            name,
            user,
            home: Some(&part.namespace),
            rules: &part.rules,
        })?;
    }
    Ok(())
}

impl<'a> Entry for Bound<'a> {
    ghost use Rattle.rbac_document.specs.LeastDocument.{bound_text};

    ghost text = { bound_text };

    fn put(&self, document: &mut Vec<u8>) -> Result<(), AllocError> {
        put_role(document, self)?;
        document.extend_from_slice(b",\n    ")?;
        put_binding(document, self)
    }
}

// Adds the role with these rules.
#[tactic(auto, unfolding(crate::specs::LeastDocument::role_text))]
fn put_role(document: &mut Vec<u8>, bound: &Bound<'_>) -> Result<(), AllocError>
    ensures { OnOk result (document.new.items ≡ document.old.items ++ role_text bound.now) }
{
    put_head(document, role_kind(bound.home), bound.name, bound.home)?;
    document.extend_from_slice(b", \"rules\": [")?;
    put_joined(document, b", ", bound.rules.as_slice())?;
    document.extend_from_slice(b"]}")
}

// Adds the binding of the role to its user.
#[tactic(auto, unfolding(crate::specs::LeastDocument::binding_text))]
fn put_binding(document: &mut Vec<u8>, bound: &Bound<'_>) -> Result<(), AllocError>
    ensures { OnOk result (document.new.items ≡ document.old.items ++ binding_text bound.now) }
{
    put_head(document, binding_kind(bound.home), bound.name, bound.home)?;
    put_role_ref(document, role_kind(bound.home), bound.name)?;
    document.extend_from_slice(b", \"subjects\": [")?;
    put_subject(document, bound.user)?;
    document.extend_from_slice(b"]}")
}

// The kind of a role.
fn role_kind(home: Option<&Word>) -> &'static [u8]
    ensures { result.now ≡ role_kind (option_map (λ namespace. namespace.now) home.entry) }
{
    match home {
        Some(_) => ROLE.as_bytes(),
        None => CLUSTER_ROLE.as_bytes(),
    }
}

// The kind of its binding.
fn binding_kind(home: Option<&Word>) -> &'static [u8]
    ensures { result.now ≡ binding_kind (option_map (λ namespace. namespace.now) home.entry) }
{
    match home {
        Some(_) => ROLE_BINDING.as_bytes(),
        None => CLUSTER_ROLE_BINDING.as_bytes(),
    }
}

// Adds what an object begins with: its kind, its name and its namespace.
#[tactic(auto, unfolding(crate::specs::LeastDocument::head_text))]
fn put_head(
    document: &mut Vec<u8>,
    kind: &[u8],
    name: &Word,
    home: Option<&Word>,
) -> Result<(), AllocError>
    ensures { OnOk result (document.new.items ≡ document.old.items
        ++ head_text kind.now name.now (option_map (λ namespace. namespace.now) home.entry)) }
{
    put_after(
        document,
        b"{\"apiVersion\": \"rbac.authorization.k8s.io/v1\", \"kind\": ",
        kind,
    )?;
    put_after(document, b", \"metadata\": {\"name\": ", name.as_bytes())?;
    put_home(document, home)?;
    document.extend_from_slice(b"}")
}

// Adds the namespace of an object, if it is in one.
fn put_home(document: &mut Vec<u8>, home: Option<&Word>) -> Result<(), AllocError>
    ensures { OnOk result (document.new.items ≡ document.old.items
        ++ home_text (option_map (λ namespace. namespace.now) home.entry)) }
{
    match home {
        Some(namespace) => put_after(document, b", \"namespace\": ", namespace.as_bytes()),
        None => Ok(()),
    }
}

// Adds the role that a binding refers to.
fn put_role_ref(document: &mut Vec<u8>, kind: &[u8], name: &Word) -> Result<(), AllocError>
    ensures { OnOk result
        (document.new.items ≡ document.old.items ++ role_ref_text kind.now name.now) }
{
    put_after(
        document,
        b", \"roleRef\": {\"apiGroup\": \"rbac.authorization.k8s.io\", \"kind\": ",
        kind,
    )?;
    put_after(document, b", \"name\": ", name.as_bytes())?;
    document.extend_from_slice(b"}")
}

// Adds the subject for a user.
fn put_subject(document: &mut Vec<u8>, user: &Word) -> Result<(), AllocError>
    ensures { OnOk result (document.new.items ≡ document.old.items
        ++ subject_for user.now (account_parts user.now)) }
{
    match account_parts(user.as_bytes()) {
        Some((namespace, name)) => put_account(document, namespace, name),
        None => put_user(document, user),
    }
}

// Adds the subject for a service account.
fn put_account(document: &mut Vec<u8>, namespace: &[u8], name: &[u8]) -> Result<(), AllocError>
    ensures { OnOk result (document.new.items ≡ document.old.items
        ++ codes "{\"kind\": \"ServiceAccount\", \"name\": " ++ quoted name.now
        ++ codes ", \"namespace\": " ++ quoted namespace.now ++ codes "}") }
{
    put_after(document, b"{\"kind\": \"ServiceAccount\", \"name\": ", name)?;
    put_after(document, b", \"namespace\": ", namespace)?;
    document.extend_from_slice(b"}")
}

// Adds the subject for a user that is no service account.
fn put_user(document: &mut Vec<u8>, user: &Word) -> Result<(), AllocError>
    ensures { OnOk result (document.new.items ≡ document.old.items
        ++ codes "{\"apiGroup\": \"rbac.authorization.k8s.io\", \"kind\": \"User\", \"name\": "
        ++ quoted user.now ++ codes "}") }
{
    put_after(
        document,
        b"{\"apiGroup\": \"rbac.authorization.k8s.io\", \"kind\": \"User\", \"name\": ",
        user.as_bytes(),
    )?;
    document.extend_from_slice(b"}")
}

impl Entry for Rule {
    ghost use Rattle.rbac_document.specs.LeastDocument.{rule_text};

    ghost text = { rule_text };

    fn put(&self, document: &mut Vec<u8>) -> Result<(), AllocError> {
        put_rule(document, self)
    }
}

// Adds a rule, without its empty lists.
#[tactic(auto, unfolding(crate::specs::LeastDocument::rule_text))]
fn put_rule(document: &mut Vec<u8>, rule: &Rule) -> Result<(), AllocError>
    ensures { OnOk result (document.new.items ≡ document.old.items ++ rule_text rule.now) }
{
    document.extend_from_slice(b"{")?;
    put_words(document, b"apiGroups", &rule.groups)?;
    put_words(document, b"resources", &rule.resources)?;
    put_words(document, b"resourceNames", &rule.resource_names)?;
    put_words(document, b"nonResourceURLs", &rule.urls)?;
    document.extend_from_slice(b"\"verbs\": ")?;
    put_texts(document, &rule.verbs)?;
    document.extend_from_slice(b"}")
}

// Adds a list of a rule with its name, unless it is empty.
fn put_words(document: &mut Vec<u8>, name: &[u8], words: &Words) -> Result<(), AllocError>
    ensures { OnOk result
        (document.new.items ≡ document.old.items ++ words_text name.now words.now) }
{
    if words.is_empty() {
        return Ok(());
    }
    put_quoted(document, name)?;
    document.extend_from_slice(b": ")?;
    put_texts(document, words)?;
    document.extend_from_slice(b", ")
}

// Adds texts as a list on one line.
fn put_texts(document: &mut Vec<u8>, texts: &Words) -> Result<(), AllocError>
    ensures { OnOk result (document.new.items ≡ document.old.items ++ texts_text texts.now) }
{
    document.extend_from_slice(b"[")?;
    put_joined(document, b", ", texts.as_slice())?;
    document.extend_from_slice(b"]")
}
