//! Laws of near grants, each stated by the contract of a function that does nothing.

ghost use Rattle.std.specs.Prelude.{◌≡◌, ◌∷◌, Contains, List, Some, slice_get};
ghost use Rattle.rbac_terms.specs.Principals.{AsUser};
ghost use Rattle.rbac_terms.specs.Targets.{Resource};
ghost use Rattle.rbac_terms.specs.Text.{Text};
ghost use Rattle.rbac_terms.specs.declared.granting.Subject.TheVariants.{Group as ForGroup};
ghost use Rattle.rbac_model.specs.Policies.{GrantAllows, GrantView, PolicyView};
ghost use Rattle.rbac_near.specs.Near.{AreNear, IsNear, RequestView};
ghost use Rattle.rbac_near.specs.declared.near.Missing.TheVariants.{Namespace, Verb, Group};
ghost use Rattle.rbac_near.specs.declared.near.Missing.TheVariants.{Name, Member};
ghost use Rattle.rbac_near.specs.declared.near.Near.{Near};

/// A policy determines the list of near grants for a request: any two such lists are the same, in
/// the same order (own).
pub fn near_grants_are_one()
    ensures { (p : PolicyView) (q : RequestView) (xs others : List Near)
        → AreNear p q xs → AreNear p q others → xs ≡ others }
{}

/// With what is missing in its place, a near grant allows the request (own): in the namespace of
/// its binding; with one of the rule's verbs, API groups or object names; or for the user as a
/// member of the group.
pub fn near_grants_would_allow()
    ensures namespace { (p : PolicyView) (q : RequestView) (x : Near) (g : GrantView) (home : Text)
        → IsNear p q x → slice_get p.grants x.number ≡ Some g → x.missing ≡ Namespace
        → g.binding.namespace ≡ Some home → GrantAllows q.who home q.verb q.target g }
    ensures verb { (p : PolicyView) (q : RequestView) (x : Near) (g : GrantView) (verb : Text)
        → IsNear p q x → slice_get p.grants x.number ≡ Some g → x.missing ≡ Verb
        → Contains g.rule.rule.verbs verb → GrantAllows q.who q.namespace verb q.target g }
    ensures group { (p : PolicyView) (q : RequestView) (x : Near) (g : GrantView)
        (group text name other : Text) → IsNear p q x → slice_get p.grants x.number ≡ Some g
        → x.missing ≡ Group → q.target ≡ Resource group text name
        → Contains g.rule.rule.groups other
        → GrantAllows q.who q.namespace q.verb (Resource other text name) g }
    ensures name { (p : PolicyView) (q : RequestView) (x : Near) (g : GrantView)
        (group text name other : Text) → IsNear p q x → slice_get p.grants x.number ≡ Some g
        → x.missing ≡ Name → q.target ≡ Resource group text name
        → Contains g.rule.rule.resource_names other
        → GrantAllows q.who q.namespace q.verb (Resource group text other) g }
    ensures member { (p : PolicyView) (q : RequestView) (x : Near) (g : GrantView)
        (user group : Text) (given : List Text) → IsNear p q x
        → slice_get p.grants x.number ≡ Some g → x.missing ≡ Member → q.who ≡ AsUser user given
        → slice_get g.binding.subjects x.subject_place ≡ Some (ForGroup group)
        → GrantAllows (AsUser user (group ∷ given)) q.namespace q.verb q.target g }
{}
