//! The terms of role-based access control (texts, rules, subjects, principals, targets, selectors,
//! keys), and what each of them matches. `rbac_model` builds policies from these terms, and
//! re-exports those that a user of policies needs. Where a comment says "(own)", the rule is this
//! project's and not one of Kubernetes.
#![tactic(auto)]

mod fault;
mod given_groups;
mod granting;
mod items;
mod keys;
mod kinds;
mod matching;
mod request;
mod scope;
mod selecting;
mod sorted;
mod text;

pub use fault::ModelFault;
pub use granting::{
    Binding, ClusterRole, Role, RoleRef, Subject, Subjects, names, put_principals, subject_key,
    subject_principal,
};
pub use items::Items;
pub use keys::Key;
pub use kinds::{
    CLUSTER_ROLE, CLUSTER_ROLE_BINDING, NAMESPACE, ROLE, ROLE_BINDING, SERVICE_ACCOUNT,
};
pub use matching::{
    Rule, Rules, before_stars, group_matches, name_matches, resource_matches, rule_allows,
    target_matches, url_matches, verb_matches,
};
pub use request::{
    ANONYMOUS, AUTHENTICATED, MEMBER_PREFIX, Principal, Target, UNAUTHENTICATED, USER_PREFIX,
    account_user, is_path, is_resource_text,
};
pub use scope::Scope;
pub use selecting::{Labels, Requirement, Requirements, SelectOp, Selector, Selectors, selects};
pub use sorted::{is_among, sorted_copy};
pub use text::{Word, Words, cut_at_first};
