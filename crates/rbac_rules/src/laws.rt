//! Laws of effective rules, each stated by the contract of a function that does nothing.

ghost use Rattle.std.specs.Prelude.{◌≡◌, [], List};
ghost use Rattle.rbac_terms.specs.Principals.{Who};
ghost use Rattle.rbac_terms.specs.Text.{Text};
ghost use Rattle.rbac_terms.specs.declared.scope.Scope.{Scope};
ghost use Rattle.rbac_terms.specs.declared.scope.Scope.TheVariants.{Anywhere, Namespace};
ghost use Rattle.rbac_terms.specs.declared.scope.Scope.TheVariants.{ClusterWide};
ghost use Rattle.rbac_model.specs.Policies.{PolicyView, IsPolicy};
ghost use Rattle.rbac_rules.specs.Effective.{RuleView, AreEffective, Decide, Explain};

/// A policy determines the list of rules that somebody has in a scope: any two such lists are the
/// same, in the same order (own).
pub fn effective_rules_are_one()
    ensures { (p : PolicyView) (who : Who) (scope : Scope) (xs others : List RuleView)
        → AreEffective p who scope xs → AreEffective p who scope others → xs ≡ others }
{}

/// Everybody has a list of rules in each scope; the list may be empty (own). So what was printed,
/// when printing stopped, is a part of such a list.
pub fn effective_rules_are_there()
    ensures { (p : PolicyView) (who : Who) (scope : Scope)
        → (xs : List RuleView) × AreEffective p who scope xs }
{}

/// Somebody may use a verb on a target in a namespace exactly if one of their rules allows it and
/// the rule's binding is live there for the target. This holds for the rules that they have in the
/// namespace, and for those that they have anywhere. In the empty namespace, as for a URL, the
/// rules of their ClusterRoleBindings decide (Using RBAC Authorization).
pub fn effective_rules_decide()
    ensures there { (p : PolicyView) (who : Who) (namespace : Text) (xs : List RuleView)
        → IsPolicy p → AreEffective p who (Namespace namespace) xs
        → Decide p who namespace xs }
    ensures anywhere { (p : PolicyView) (who : Who) (namespace : Text) (xs : List RuleView)
        → IsPolicy p → AreEffective p who Anywhere xs → Decide p who namespace xs }
    ensures cluster_wide { (p : PolicyView) (who : Who) (xs : List RuleView) → IsPolicy p
        → AreEffective p who ClusterWide xs → Decide p who [] xs }
{}

/// The first grant that lets somebody use a verb on a target in a namespace is the grant of the
/// first of their rules that does so there: of the rules that they have in the namespace, and of
/// those that they have anywhere. In the empty namespace, as for a URL, it is the grant of the
/// first such rule of their ClusterRoleBindings (own).
pub fn effective_rules_explain()
    ensures there { (p : PolicyView) (who : Who) (namespace : Text) (xs : List RuleView)
        → AreEffective p who (Namespace namespace) xs → Explain p who namespace xs }
    ensures anywhere { (p : PolicyView) (who : Who) (namespace : Text) (xs : List RuleView)
        → AreEffective p who Anywhere xs → Explain p who namespace xs }
    ensures cluster_wide { (p : PolicyView) (who : Who) (xs : List RuleView)
        → AreEffective p who ClusterWide xs → Explain p who [] xs }
{}
