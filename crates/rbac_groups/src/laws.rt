//! What follows from the definitions alone. The functions do nothing; their contracts are the laws.

ghost use Rattle.std.specs.Prelude.{◌↔◌, List, Contains};
ghost use Rattle.rbac_groups.specs.Memberships.{groups_listing, IsGivenBy};
ghost use Rattle.rbac_groups.specs.declared.membership.Membership.{Membership};
ghost use Rattle.rbac_terms.specs.Text.{Text};

/// A user is given exactly the groups that documents give the user: those of which some document
/// lists the user's name (own).
pub fn listed_groups_are_given()
    ensures { (memberships : List Membership) (user group : Text)
        → Contains (groups_listing memberships user) group ↔ IsGivenBy memberships user group }
{}
