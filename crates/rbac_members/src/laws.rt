//! What follows from the definitions alone. The functions do nothing; their contracts are the laws.

ghost use Rattle.std.specs.Prelude.{◌≡◌, Bool, List};
ghost use Rattle.rbac_groups.specs.declared.membership.Membership.{Membership};
ghost use Rattle.rbac_model.specs.Holders.{HolderView};
ghost use Rattle.rbac_members.specs.Members.{AreMembers};

/// Documents and holders determine the list of the members of the groups among these holders (own).
pub fn members_are_one()
    ensures { (ms : List Membership) (every : Bool) (xs ys others : List HolderView)
        → AreMembers ms every xs ys → AreMembers ms every xs others → ys ≡ others }
{}
