//! Laws of use, each stated by the contract of a function that does nothing.

ghost use Rattle.std.specs.Prelude.{◌≡◌, ◌↔◌, Bool, Contains, List};
ghost use Rattle.rbac_terms.specs.Text.{Text};
ghost use Rattle.rbac_terms.specs.declared.granting.Binding.{Binding};
ghost use Rattle.rbac_terms.specs.declared.matching.Rule.{Rule};
ghost use Rattle.rbac_model.specs.Policies.{IsPolicy, PolicyView};
ghost use Rattle.rbac_diff.specs.Requests.{AllowsRequest, RequestView};
ghost use Rattle.rbac_use.specs.Least.{AllowsNeeded};
ghost use Rattle.rbac_use.specs.LeastRules.{HaveSameRules, IsLeastOf};
ghost use Rattle.rbac_use.specs.Rest.{HasUsedPermission, IsAllowedByRest};
ghost use Rattle.rbac_use.specs.Unused.{AreUnused};
ghost use Rattle.rbac_use.specs.Used.{IsUsed};
ghost use Rattle.rbac_use.specs.declared.least.Least.{Least};
ghost use Rattle.rbac_use.specs.declared.unused.Unused.{Unused};

/// A rule is used through a binding exactly if one of its permissions is (own). So a line about a
/// rule says that none of its permissions is used.
pub fn rules_are_used_by_permissions()
    ensures { (log : List RequestView) (b : Binding) (rule : Rule)
        → IsUsed log b rule ↔ HasUsedPermission log b rule }
{}

/// Nothing that is listed was needed (own): if all bindings, subjects, rules and permissions that
/// have a line were taken away, each logged request that the policy allows would still be allowed.
pub fn what_is_unused_isnt_needed()
    ensures { (p : PolicyView) (log : List RequestView) (skip_system : Bool) (xs : List Unused)
        (r : RequestView) → IsPolicy p → AreUnused p log skip_system xs → Contains log r
        → AllowsRequest p r → IsAllowedByRest p xs r }
{}

/// A policy and the set of logged requests determine the lines (own): logs with the same requests,
/// in whatever order and however often, have the same lines, in the same order.
pub fn unused_lines_are_one()
    ensures { (p : PolicyView) (log other : List RequestView) (skip_system : Bool)
        (xs others : List Unused) → ((r : RequestView) → Contains log r ↔ Contains other r)
        → AreUnused p log skip_system xs → AreUnused p other skip_system others → xs ≡ others }
{}

/// A policy, a user and the set of logged requests determine the least policy (own): logs with the
/// same requests, in whatever order and however often, have the same rules, in the same order.
pub fn least_is_one()
    ensures { (p : PolicyView) (log other : List RequestView) (user : Text) (names : Bool)
        (a b : Least) → ((r : RequestView) → Contains log r ↔ Contains other r)
        → IsLeastOf p log user names a → IsLeastOf p other user names b → HaveSameRules a b }
{}

/// The least policy allows exactly what the user needs (own).
pub fn least_allows_what_is_needed()
    ensures { (p : PolicyView) (log : List RequestView) (user : Text) (names : Bool) (l : Least)
        → IsLeastOf p log user names l → AllowsNeeded p log user names l }
{}
