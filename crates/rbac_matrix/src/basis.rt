//! What the rows of a matrix are computed from.

use rbac_index::Index;
use rbac_reaches::Reach;
use rbac_universe::Universe;

/// An index, a universe, and the reach of each grant's rule over this universe.
#[derive(Clone, Copy)]
pub(crate) struct Basis<'m> {
    pub(crate) index: &'m Index<'m>,
    pub(crate) universe: &'m Universe,
    pub(crate) reaches: &'m [Reach],
}
