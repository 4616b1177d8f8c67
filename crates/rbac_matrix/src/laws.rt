//! Laws of matrices. Each law is the contract of a function that does nothing.

ghost use Rattle.std.specs.Prelude.{◌≡◌, ◌↔◌, List, Some, true};
ghost use Rattle.rbac_terms.specs.Keys.{KeyTexts};
ghost use Rattle.rbac_model.specs.Policies.{Held, PolicyView, IsPolicy};
ghost use Rattle.rbac_model.specs.Universes.{UniverseView, RowView, IsUniverse, IsMatrix};
ghost use Rattle.rbac_token.specs.declared.mark.BindingName.{BindingName};
ghost use Rattle.rbac_matrix.specs.Every.{EveryPagesJoin, IsEvery, StandsPast, comes_after};
ghost use Rattle.rbac_matrix.specs.Once.{RepeatsStandElsewhere};
ghost use Rattle.rbac_matrix.specs.Paging.{PagesJoin};

/// The held objects and the universe determine the matrix: two matrices of them have the same rows,
/// in the same order (own).
pub fn the_matrix_is_one()
    ensures { (held : Held) (u : UniverseView) (rows others : List RowView) → IsMatrix held u rows
        → IsMatrix held u others → rows ≡ others }
{}

/// Each policy has a matrix over each universe. So what a listing had written when it stopped early
/// is a prefix of a printed matrix (own).
pub fn a_matrix_is_there()
    ensures { (p : PolicyView) (u : UniverseView) → IsPolicy p → IsUniverse u
        → (rows : List RowView) × IsMatrix p.held u rows }
{}

/// After a nonempty page of a matrix, at any limit, come exactly the rows after the key of the
/// page's last row. The page states that more rows follow exactly if some do. So pages that are
/// each taken with the token of the page before join to all rows after the first token (own).
pub fn pages_join()
    ensures { PagesJoin }
{}

/// The held objects and the universe determine the rows of every granting binding: two lists of
/// them are the same, in the same order (own).
pub fn every_rows_are_one()
    ensures { (held : Held) (u : UniverseView) (rows others : List RowView) → IsEvery held u rows
        → IsEvery held u others → rows ≡ others }
{}

/// Each policy has a list of the rows of every granting binding over each universe (own).
pub fn every_rows_are_there()
    ensures { (p : PolicyView) (u : UniverseView) → IsPolicy p → IsUniverse u
        → (rows : List RowView) × IsEvery p.held u rows }
{}

/// After a nonempty page of the rows of every granting binding, at any limit, come exactly the rows
/// after the mark of the page's last row. The page states that more rows follow exactly if some do.
/// So pages that are each taken with the token of the page before join to all rows after the first
/// token (own).
pub fn every_pages_join()
    ensures { EveryPagesJoin }
{}

/// A row comes after a mark with a binding in two cases: its key is greater, or its key is the
/// mark's and its binding comes after the mark's in order of bindings. The mark's binding needn't
/// exist (own).
pub fn rows_after_a_binding()
    ensures { (k : KeyTexts) (b : BindingName) (row : RowView) → (comes_after k (Some b) row ≡ true)
        ↔ StandsPast k b row }
{}

/// If the universe has the empty namespace, each row that is left out as a repeat has a counterpart
/// among the other rows: the same request in the whole cluster, with the same binding. This holds
/// in the matrix, and among the rows of every granting binding (own).
pub fn repeats_hold_in_the_whole_cluster()
    ensures matrix { (held : Held) (u : UniverseView) (rows : List RowView) → IsMatrix held u rows
        → RepeatsStandElsewhere u rows }
    ensures every { (held : Held) (u : UniverseView) (rows : List RowView) → IsEvery held u rows
        → RepeatsStandElsewhere u rows }
{}
