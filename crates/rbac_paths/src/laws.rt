//! Laws of powers, paths and ways. Each law is the contract of a function that does nothing.

ghost use Rattle.std.specs.Prelude.{◌≡◌, [], Any, Contains, List, Option};
ghost use Rattle.rbac_model.specs.Holders.{IsKeyFor};
ghost use Rattle.rbac_model.specs.Policies.{IsPolicy, PolicyView};
ghost use Rattle.rbac_paths.specs.Access.{AccessView};
ghost use Rattle.rbac_paths.specs.Agreement.{AgreeOn};
ghost use Rattle.rbac_paths.specs.Following.{LeadBack, LeadOn};
ghost use Rattle.rbac_paths.specs.Nodes.{Somebody};
ghost use Rattle.rbac_paths.specs.OnePath.{IsPathTo};
ghost use Rattle.rbac_paths.specs.Paths.{ArePathsOf, PathView};
ghost use Rattle.rbac_paths.specs.Powers.{ArePowers, PowerView};
ghost use Rattle.rbac_paths.specs.Principals.{AreToldByKeys};
ghost use Rattle.rbac_paths.specs.WaysTo.{AreWaysTo, WayView};
ghost use Rattle.rbac_steps.specs.declared.steps.Step.{Step};
ghost use Rattle.rbac_terms.specs.Principals.{Who};
ghost use Rattle.rbac_terms.specs.Text.{Text};

/// A policy determines the list of its powers: two lists of all its powers are the same, in the
/// same order (own).
pub fn powers_are_one()
    ensures { (p : PolicyView) (xs others : List PowerView) → ArePowers p xs → ArePowers p others
        → xs ≡ others }
{}

/// The policy, the principals, the steps and the start determine the list of paths: two lists of
/// all paths from a principal are the same, in the same order (own).
pub fn paths_are_one()
    ensures { (p : PolicyView) (principals : List Who) (steps : List Step) (who : Who)
        (xs others : List PathView) → ArePathsOf p principals steps who xs
        → ArePathsOf p principals steps who others → xs ≡ others }
{}

/// The paths of a principal determine the one path to whom or what is asked for: two lists of its
/// lines are the same, in the same order (own).
pub fn one_path_is_one()
    ensures { (p : PolicyView) (principals : List Who) (steps : List Step) (who : Who) (to : Text)
        (scope : Option Text) (paths chain other : List PathView)
        → ArePathsOf p principals steps who paths
        → IsPathTo (Somebody who) to scope paths chain
        → IsPathTo (Somebody who) to scope paths other → chain ≡ other }
{}

/// The policy, the principals, the steps and the request determine the list of ways: two lists of
/// all ways to a request are the same, in the same order (own).
pub fn ways_are_one()
    ensures { (p : PolicyView) (principals : List Who) (steps : List Step) (asked : AccessView)
        (xs others : List WayView) → AreWaysTo p principals steps asked xs
        → AreWaysTo p principals steps asked others → xs ≡ others }
{}

/// If no two principals have the same key, paths and ways agree about each of them (own). The ways
/// to a request list a principal exactly if the request is allowed to it, or its paths list a node
/// that allows the request. The way's number of steps is 0 if the request is allowed to the
/// principal itself; otherwise it is the least number of steps of such a path.
pub fn ways_agree_with_paths()
    ensures { (p : PolicyView) (principals : List Who) (steps : List Step) (who : Who)
        (asked : AccessView) (paths : List PathView) (ways : List WayView)
        → AreToldByKeys principals → Contains principals who
        → ArePathsOf p principals steps who paths → AreWaysTo p principals steps asked ways
        → AgreeOn p who asked paths ways }
{}

/// A principal comes to no node if no power has its key or that of one of its groups (own).
pub fn paths_begin_with_powers()
    ensures { (p : PolicyView) (powers : List PowerView) (principals : List Who) (steps : List Step)
        (who : Who) (paths : List PathView) → IsPolicy p → ArePowers p powers
        → ¬ Any (λ x. IsKeyFor who x.who) powers
        → ArePathsOf p principals steps who paths → paths ≡ [] }
{}

/// The node before each path is the one asked about, or has a path with one step less. So whoever
/// follows the paths from node to node gets to the one asked about (own).
pub fn paths_lead_back()
    ensures { (p : PolicyView) (principals : List Who) (steps : List Step) (who : Who)
        (paths : List PathView) → ArePathsOf p principals steps who paths
        → LeadBack (Somebody who) paths }
{}

/// The node after each way that has a step has a way with one step less. So whoever follows the
/// ways from node to node gets to one that allows the request (own).
pub fn ways_lead_on()
    ensures { (p : PolicyView) (principals : List Who) (steps : List Step) (asked : AccessView)
        (ways : List WayView) → AreWaysTo p principals steps asked ways → LeadOn ways }
{}
