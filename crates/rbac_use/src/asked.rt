//! What the requests that a binding allows use.

ghost use Rattle.std.specs.Prelude.{◌↔◌, IsTrue, option_copied};
ghost use Rattle.rbac_use.specs.Asked.{HasAskedBy, IsAskedBy};

use crate::request::Request;
use rbac_terms::{Rule, Subject, Word, names, rule_allows};

// Whether the rule allows what one of the requests asks for.
pub(crate) fn is_asked(asked: &[Request<'_>], rule: &Rule) -> bool
    ensures { IsTrue result ↔ IsAskedBy asked.now rule.now }
{
    asked
        .iter()
        .any(|request| rule_allows(rule, request.verb, request.target))
}

// Whether a subject of a binding in this namespace, or of a ClusterRoleBinding if there is none,
// names who makes one of the requests.
pub(crate) fn has_asked(asked: &[Request<'_>], subject: &Subject, namespace: Option<&Word>) -> bool
    ensures { IsTrue result ↔ HasAskedBy asked.now (option_copied namespace.entry) subject.now }
{
    asked
        .iter()
        .any(|request| names(subject, namespace, request.who))
}
