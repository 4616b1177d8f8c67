//! Laws of holders, each stated by the contract of a function that does nothing.

ghost use Rattle.std.specs.Prelude.{◌≡◌, ◌≤◌, ◌↔◌, ℕ, Bool, true, false, List};
ghost use Rattle.rbac_terms.specs.Principals.{Who, AsMember, who_key};
ghost use Rattle.rbac_terms.specs.Targets.{What};
ghost use Rattle.rbac_terms.specs.Text.{Text};
ghost use Rattle.rbac_terms.specs.declared.scope.Scope.{Scope};
ghost use Rattle.rbac_terms.specs.declared.scope.Scope.TheVariants.{Namespace};
ghost use Rattle.rbac_model.specs.Policies.{GrantView, Held, IsWhy, PolicyView};
ghost use Rattle.rbac_model.specs.Holders.{HolderView, AreHolders, IsKeyFor};
ghost use Rattle.rbac_index.specs.Holding.{AllowsByHolders, GrantsByHolders};
ghost use Rattle.rbac_index.specs.Requested.{AnyName, RequestedView, ThisTarget, with_name};
ghost use Rattle.rbac_index.specs.WhoCan.{AreListedHolders, HoldsAt};
ghost use Rattle.rbac_index.specs.WhyHeld.{IsWhyHeld};

/// The held objects determine the list of who may use a verb on a target in a namespace: any two
/// such lists are the same, in the same order (own).
pub fn holders_are_one()
    ensures { (held : Held) (namespace verb : Text) (t : What) (xs others : List HolderView)
        → AreHolders held namespace verb t xs
        → AreHolders held namespace verb t others → xs ≡ others }
{}

/// A principal may use a verb on a target in a namespace exactly if some holder has the principal's
/// key, or the key of one of its groups (own).
pub fn holders_decide()
    ensures { (held : Held) (namespace verb : Text) (t : What) (xs : List HolderView)
        → AreHolders held namespace verb t xs
        → AllowsByHolders held namespace verb t xs }
{}

/// The reason why a principal may use a verb on a target is the reason why one of its keys holds
/// the permission: its own key, or the key of one of its groups. No key of the principal holds the
/// permission by an earlier grant. The reason of a group's key is also the reason of a member of
/// this group alone (own).
pub fn keys_explain()
    ensures by_a_key { (p : PolicyView) (who : Who) (namespace verb : Text) (t : What)
        (g : GrantView) (at : ℕ) → IsWhy p who namespace verb t g at
        → (key : Text) × IsKeyFor who key × IsWhyHeld p key namespace verb t g at }
    ensures no_later { (p : PolicyView) (who : Who) (namespace verb : Text) (t : What)
        (f g : GrantView) (k at : ℕ) (key : Text) → IsKeyFor who key
        → (why : IsWhy p who namespace verb t f k)
        → (held : IsWhyHeld p key namespace verb t g at) → why.grant.0 ≤ held.grant.0 }
    ensures member { (p : PolicyView) (group namespace verb : Text) (t : What) (g : GrantView)
        (at : ℕ) → IsWhyHeld p (who_key (AsMember group)) namespace verb t g at
        → IsWhy p (AsMember group) namespace verb t g at }
{}

/// The held objects determine the list of who may use a verb on what is requested, in a scope, with
/// the first binding of each holder or with each binding. In one namespace, the list with first
/// bindings is the list of the holders there (own).
pub fn listed_holders_are_one()
    ensures one { (held : Held) (scope : Scope) (every : Bool) (verb : Text) (t : RequestedView)
        (xs others : List HolderView) → AreListedHolders held scope every verb t xs
        → AreListedHolders held scope every verb t others → xs ≡ others }
    ensures holders { (held : Held) (namespace verb : Text) (t : What) (xs : List HolderView)
        → AreListedHolders held (Namespace namespace) false verb (ThisTarget t) xs
        ↔ AreHolders held namespace verb t xs }
{}

/// A list with every binding decides which binding lets whom use a verb on a target: the binding at
/// a place grants the request to a principal exactly if the list has this binding with the
/// principal's key, or with the key of one of its groups (own).
pub fn listed_holders_decide()
    ensures { (held : Held) (scope : Scope) (verb : Text) (t : RequestedView)
        (xs : List HolderView) → AreListedHolders held scope true verb t xs
        → GrantsByHolders held scope verb t xs }
{}

/// With any object name, a key holds a permission by exactly the subjects of bindings by which it
/// holds the permission with some object name (own).
pub fn any_name_is_some_name()
    ensures { (held : Held) (scope : Scope) (verb : Text) (t : What) (key : Text) (i j : ℕ)
        → HoldsAt held scope verb (AnyName t) key i j
        ↔ ((name : Text) × HoldsAt held scope verb (ThisTarget (with_name name t)) key i j) }
{}
