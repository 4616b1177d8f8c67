//! Changes, one after another.

ghost use Rattle.std.specs.Prelude.{◌≡◌, ◌↔◌, [], IsTrue, map};
ghost use Rattle.std.specs.BTreeMap.{IsOrdered};
ghost use Rattle.rbac_terms.specs.Text.{text_cmp};
ghost use Rattle.rbac_diff.specs.Listed.{entry_change};

use crate::change::{Change, FoundChanges};
use crate::origin::Origin;
use rbac_terms::Word;
use std::alloc::Global;
use std::collections::btree_map::IntoIter;
use std::marker::Model;

/// The changes that are left, in order of the printed permissions (own). The memory of a change is
/// freed together with the change. Contracts see the list of these changes.
#[derive(Drop)]
pub struct Changes<'p> {
    left: IntoIter<Word, Origin<'p>, Global>,
}

impl<'p> Model for Changes<'p> {
    ghost use Rattle.std.specs.Prelude.{List, map};
    ghost use Rattle.rbac_diff.specs.Changes.{ChangeView};
    ghost use Rattle.rbac_diff.specs.Listed.{entry_change};

    ghost Value = { List ChangeView };

    ghost view = { λ changes. map entry_change changes.left };
}

impl<'p> Changes<'p> {
    // The changes that were found.
    pub(crate) fn of(findings: FoundChanges<'p>) -> Self
        ensures changes { result ≡ map entry_change findings.entry.entries }
        ensures ordered { IsOrdered text_cmp findings.entry }
    {
        Changes {
            left: findings.into_iter(),
        }
    }

    /// Whether no change is left.
    pub fn is_empty(&self) -> bool
        ensures { IsTrue result ↔ (self.now ≡ []) }
    {
        self.left.len() == 0
    }
}

impl<'p> Iterator for Changes<'p> {
    type Item = Change<'p>;

    ghost use Rattle.std.specs.Iterator.{YieldsFirstBy, item_count};
    ghost use Rattle.rbac_diff.specs.Listed.{change_of};

    ghost next_gives = { YieldsFirstBy change_of (λ changes. changes) };

    ghost remaining = { item_count (λ changes. changes) };

    fn next(&mut self) -> Option<Change<'p>> {
        let (permission, origin) = self.left.next()?;
        Some(Change {
            kind: origin.kind(),
            permission,
            binding: origin.binding(),
        })
    }
}
