//! Where a binding is live.

ghost use Rattle.std.specs.Prelude.{IsTrue, ◌↔◌};
ghost use Rattle.std.specs.Option.{option_copied};
ghost use Rattle.rbac_model.specs.Policies.{Live};
ghost use Rattle.rbac_model.specs.Scopes.{LiveIn, MayBeLiveIn};

use rbac_terms::{Binding, Scope, Target, Word};

/// Whether a binding in the namespace `home`, or a ClusterRoleBinding if `home` is `None`, is live
/// for this target in this namespace (Using RBAC Authorization). A ClusterRoleBinding is live
/// everywhere, a RoleBinding only for resources in its own namespace, and never in the empty one.
/// Doesn't allocate.
pub fn is_live_at(home: Option<&Word>, namespace: &Word, target: &Target) -> bool
    ensures { IsTrue result ↔ Live (option_copied home.entry) namespace.now target.now }
{
    match home {
        None => true,
        Some(own) => !target.is_url() && !namespace.is_empty() && own == namespace,
    }
}

/// Whether the binding is live for this target in this namespace, by the rule of [`is_live_at`].
/// Doesn't allocate.
pub fn is_live(binding: &Binding, namespace: &Word, target: &Target) -> bool
    ensures { IsTrue result ↔ Live binding.now.namespace namespace.now target.now }
{
    is_live_at(binding.namespace.as_ref(), namespace, target)
}

/// Whether the binding is live for this target in this scope (own). Doesn't allocate.
pub fn is_live_in(scope: &Scope, binding: &Binding, target: &Target) -> bool
    ensures { IsTrue result ↔ LiveIn scope.now binding.now.namespace target.now }
{
    match (scope, &binding.namespace) {
        (Scope::Namespace(namespace), _) => is_live(binding, namespace, target),
        (Scope::Anywhere, Some(own)) => is_live(binding, own, target),
        (Scope::Anywhere, None) => true,
        (Scope::ClusterWide, own) => own.is_none(),
    }
}

/// Whether the binding may be live in this scope, for some target (own). Doesn't allocate.
pub fn may_be_live_in(scope: &Scope, binding: &Binding) -> bool
    ensures { IsTrue result ↔ MayBeLiveIn scope.now binding.now.namespace }
{
    match (scope, &binding.namespace) {
        (Scope::Anywhere, _) | (_, None) => true,
        (Scope::Namespace(asked), Some(own)) => !asked.is_empty() && own == asked,
        (Scope::ClusterWide, Some(_)) => false,
    }
}
