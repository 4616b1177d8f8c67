//! Powers, and an iterator over them.

ghost use Rattle.std.specs.Prelude.{◌≡◌};

use rbac_model::Grant;
use rbac_steps::Step;
use rbac_terms::Word;
use std::alloc::Global;
use std::marker::Model;
use std::vec::IntoIter;

/// A step that a user or a group can take, where, and by which grant (own). Contracts see the parts
/// that the grant refers to.
pub struct Power<'p> {
    /// The step.
    pub step: Step,
    /// Who can take the step, as a key: `u:` and a user's name, or `g:` and a group's name (own).
    pub who: Word,
    /// The first grant that gives the step to this key there: in the namespace of the grant's
    /// binding, or in the whole cluster if the binding has none.
    pub grant: Grant<'p>,
    /// The place, from 0, of the first subject with this key in the grant's binding.
    pub subject_place: usize,
}

impl Drop for Power<'_> {
    fn drop(self) {
        let Self {
            step,
            who,
            grant,
            subject_place,
        } = self;
    }
}

impl<'p> Model for Power<'p> {
    ghost use Rattle.rbac_model.specs.Sources.{grant_of};
    ghost use Rattle.rbac_paths.specs.Powers.{PowerView};

    ghost Value = { PowerView };

    ghost view = { λ x. record {
      step = x.step;
      who = x.who;
      grant = grant_of x.grant;
      subject_place = x.subject_place;
    } };
}

/// An iterator over powers, in order of the table of steps, and then of who and where, byte by byte
/// as printed (own). Contracts see the list of the powers that it hasn't yielded yet.
#[derive(Drop)]
pub struct Powers<'p> {
    left: IntoIter<Power<'p>, Global>,
}

impl<'p> Model for Powers<'p> {
    ghost use Rattle.std.specs.Prelude.{List};
    ghost use Rattle.rbac_paths.specs.Powers.{PowerView};

    ghost Value = { List PowerView };

    ghost view = { λ powers. powers.left.rest.items };
}

impl<'p> Powers<'p> {
    // An iterator over these powers.
    pub(crate) fn of(powers: Vec<Power<'p>>) -> Self
        ensures { result ≡ powers.entry.items }
    {
        Powers {
            left: powers.into_iter(),
        }
    }
}

impl<'p> Iterator for Powers<'p> {
    type Item = Power<'p>;

    ghost use Rattle.std.specs.Iterator.{YieldsFirst, item_count};

    ghost next_gives = { YieldsFirst (λ powers. powers) };

    ghost remaining = { item_count (λ powers. powers) };

    fn next(&mut self) -> Option<Power<'p>> {
        self.left.next()
    }
}
