//! One element for each name, with the texts of all elements of that name.

ghost use Rattle.std.specs.Prelude.{◌≡◌, ◌≢◌, ◌↔◌, ◌⊎◌, List, All, IfOk, OnOk};
ghost use Rattle.std.specs.declared.cmp.Ordering.TheVariants.{Less, Equal};
ghost use Rattle.rbac_terms.specs.Text.{Text};
ghost use Rattle.rbac_model.specs.Lists.{by_name, IsAscendingBy};
ghost use Rattle.rbac_universe.specs.Uniting.{AreUnitedBy, IsOneMore};

use std::alloc::{AllocError, Global};
use std::cmp::Ordering;

/// An element that has a name and texts, and can take over the texts of an element with the same
/// name.
pub(crate) trait Unites {
    ghost name: { Self → List Text };

    ghost has: { Self → Text → Type 0 };

    fn cmp_name(&self, other: &Self) -> Ordering
        ensures { result ≡ by_name name self.now other.now };

    /// Takes over the texts of another element of the same name.
    fn unite(&mut self, more: Self) -> Result<(), AllocError>
        requires { name more ≡ name self.old }
        ensures name { OnOk result (name self.new ≡ name self.old) }
        ensures texts { OnOk result ((t : Text) → has self.new t ↔ (has self.old t ⊎ has more t)) };
}

// One element for each name, in order of names. The elements are sorted first, so that elements
// with the same name are next to each other.
pub(crate) fn united<T: Unites + Drop>(
    alloc: Global,
    mut listed: Vec<T>,
) -> Result<Vec<T>, AllocError>
    ensures { IfOk result (λ united. AreUnitedBy T.name T.has listed.items united.items) }
{
    listed.sort_by(|a, b| a.cmp_name(b))?;
    let mut united = Vec::new(alloc);
    for item in listed {
        put(&mut united, item)?;
    }
    Ok(united)
}

// Adds an element, or unites it with the last one. No name in the list is greater than its own.
fn put<T: Unites + Drop>(united: &mut Vec<T>, item: T) -> Result<(), AllocError>
    requires ascending { IsAscendingBy T.name united.old.items }
    requires not_below { All (λ y. by_name T.name item y ≢ Less) united.old.items }
    ensures { OnOk result (IsOneMore T.name T.has united.old.items item united.new.items) }
{
    if let Some(last) = united.last_mut() {
        if last.cmp_name(&item) == Ordering::Equal {
            return last.unite(item);
        }
    }
    united.push(item)?;
    Ok(())
}
