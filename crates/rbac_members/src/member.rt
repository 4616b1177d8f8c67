//! Members of groups that hold a permission.

ghost use Rattle.std.specs.Prelude.{◌≡◌, IfOk};
ghost use Rattle.rbac_index.specs.HolderViews.{holder_shown};
ghost use Rattle.rbac_members.specs.Members.{member_by};

use rbac_index::Holder;
use rbac_terms::{USER_PREFIX, Word};
use std::alloc::{AllocError, Global};
use std::marker::Model;

/// A user whom a document lists in a group that is a holder, as a holder with the user's key and
/// with the binding and the subject of the group.
#[derive(Drop)]
pub struct Member<'h> {
    key: Word,
    group: Holder<'h>,
}

impl<'h> Model for Member<'h> {
    ghost use Rattle.rbac_model.specs.Holders.{HolderView};

    ghost Value = { HolderView };

    ghost view = { λ m. record {
      key = m.key;
      binding = m.group.binding.now;
      binding_place = m.group.binding_place;
      subject_place = m.group.subject_place;
    } };
}

impl<'h> Member<'h> {
    // The user of this name, as a member of the group.
    pub(crate) fn of(alloc: Global, group: Holder<'h>, user: &Word) -> Result<Self, AllocError>
        ensures { IfOk result (λ m. m ≡ member_by (holder_shown group.entry) user.now) }
    {
        let mut key = Word::from_slice(alloc, USER_PREFIX)?;
        key.push_slice(user.as_bytes())?;
        Ok(Member { key, group })
    }

    /// The member, as a holder.
    pub fn as_holder(&self) -> Holder<'_>
        ensures { holder_shown result ≡ self.now }
    {
        Holder {
            principal: &self.key,
            ..self.group
        }
    }
}
