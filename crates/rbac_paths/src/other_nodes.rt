//! Which of the other nodes a node takes over. The other nodes are those that are neither users nor
//! groups: roles, and everything in a scope.

ghost use Rattle.std.specs.Prelude.{◌≡◌, ◌<◌, ◌↔◌, ◌∷◌, [], All, Any, Contains, IfOk, IsTrue, List};
ghost use Rattle.std.specs.Prelude.{None, OnOk, Some, length, map, ℕ};
ghost use Rattle.std.specs.Option.{option_copied};
ghost use Rattle.rbac_model.specs.Policies.{PolicyView};
ghost use Rattle.rbac_ways.specs.Joining.{HasUnder};
ghost use Rattle.rbac_paths.specs.Joints.{AreAmongOthers, AreAskedPlaces};
ghost use Rattle.rbac_paths.specs.Joints.{AreOtherWords, AreOthers, AreOthersAt, AreOverOthers};
ghost use Rattle.rbac_paths.specs.Joints.{AreScoped, AsksAll, CountsAt, DecideOn, IsAskedBy, IsNobody};
ghost use Rattle.rbac_paths.specs.Joints.{IsOverOthersAt, IsRole, OthersView, SeesAll, SomeMayTake};
ghost use Rattle.rbac_paths.specs.Joints.{asked_word, named_in, other_words, scope_at, words_at};
ghost use Rattle.rbac_paths.specs.Nodes.{NodeView, node_of};
ghost use Rattle.rbac_paths.specs.SharedWords.{AddsWhere};
ghost use Rattle.rbac_paths.specs.Takeovers.{HaveTakeovers};
ghost use Rattle.rbac_paths.specs.Taking.{scope_namespace};
ghost use Rattle.rbac_paths.specs.TakingOver.{TakesOver};
ghost use Rattle.rbac_paths.specs.Tracing.{IsAt};
ghost use Rattle.rbac_steps.specs.declared.steps.Step.{Step};
ghost use Rattle.rbac_steps.specs.declared.steps.Step.TheVariants.{Bind, Escalate};

use crate::holding::Holding;
use crate::node::Node;
use crate::rule_takeovers::RuleTakeovers;
use crate::seeking::{Sought, places_of};
use crate::takeover::some_is_over_nobody;
use crate::taking::scope_namespace;
use crate::told::{StepRows, first_told, has_all};
use crate::words::word;
use rbac_model::Policy;
use rbac_terms::{Items, Word, Words};
use rbac_ways::NodesByWord;
use std::alloc::{AllocError, Global};
use std::marker::Model;

/// The places of the other nodes in a list of nodes: all of them, and those that can be had by each
/// word (`words_at`). Most nodes of a list are users and groups.
pub(crate) struct Others {
    places: Vec<usize>,
    by_word: NodesByWord,
}

impl Drop for Others {
    fn drop(self) {
        let Self { places, by_word } = self;
    }
}

impl Model for Others {
    ghost use Rattle.rbac_paths.specs.Joints.{OthersView};

    ghost Value = { OthersView };

    ghost view = { λ o. record { places = o.places.items; by_word = o.by_word } };
}

impl Others {
    /// The places of the other nodes in this list.
    pub(crate) fn of(alloc: Global, nodes: &[Node<'_>]) -> Result<Self, AllocError>
        ensures { IfOk result (AreAmongOthers (map node_of nodes.now)) }
    {
        let places = places_of(alloc, nodes, Sought::Nobody)?;
        let words = words_of_others(alloc, nodes)?;
        let by_word = NodesByWord::of(alloc, words.as_slice())?;
        Ok(Others { places, by_word })
    }
}

// For each of these nodes, the words by which it is found; none for a user or a group.
fn words_of_others(alloc: Global, nodes: &[Node<'_>]) -> Result<Vec<Words>, AllocError>
    ensures { IfOk result
        (λ all. AreOtherWords (map node_of nodes.now) (length nodes.now) all.items) }
{
    let mut all = Vec::with_capacity(alloc, nodes.len())?;
    for node in nodes {
        all.push(words_of_other(alloc, *node)?)?;
    }
    Ok(all)
}

// The words by which a role, or everything in a scope, is found; none for a user or a group.
fn words_of_other(alloc: Global, node: Node<'_>) -> Result<Words, AllocError>
    ensures { IfOk result (λ ws. ws ≡ other_words (node_of node.entry)) }
{
    match node {
        Node::Somebody(_) => Ok(Words::new(alloc)),
        Node::ClusterRole(role, scope) => {
            words_at(alloc, role.name.as_bytes(), scope_namespace(scope))
        }
        Node::Role(role) => words_at(alloc, role.name.as_bytes(), role.namespace.as_bytes()),
        Node::Everything(scope) => words_at(alloc, NO_NAME, scope_namespace(scope)),
    }
}

// The words for a scope, for a name in any scope, and for that name in that scope.
fn words_at(alloc: Global, name: &[u8], namespace: &[u8]) -> Result<Words, AllocError>
    ensures { IfOk result (λ ws. ws ≡ words_at name.now namespace.now) }
{
    let mut words = Words::new(alloc);
    words.push(word(alloc, IN_SCOPE, namespace)?)?;
    words.push(word(alloc, NAMED, name)?)?;
    words.push(named_in(alloc, name, namespace)?)?;
    Ok(words)
}

// The word for a name in a scope.
fn named_in(alloc: Global, name: &[u8], namespace: &[u8]) -> Result<Word, AllocError>
    ensures { IfOk result (λ w. w ≡ named_in name.now namespace.now) }
{
    let mut both = word(alloc, NAMED_IN, name)?;
    both.push(b'/')?;
    both.push_slice(namespace)?;
    Ok(both)
}

// The word for what a rule that counts in `home`, a namespace or the whole cluster, may take over:
// what has this name, or whatever is in the namespace if there is none.
fn asked_word(alloc: Global, home: Option<&Word>, name: Option<&Word>) -> Result<Word, AllocError>
    ensures { IfOk result
        (λ w. w ≡ asked_word (option_copied home.entry) (option_copied name.entry)) }
{
    match (home, name) {
        (None, Some(name)) => word(alloc, NAMED, name.as_bytes()),
        (Some(home), Some(name)) => named_in(alloc, name.as_bytes(), home.as_bytes()),
        (home, None) => word(alloc, IN_SCOPE, scope_namespace(home)),
    }
}

// The marks of the words by which other nodes are found: those for all nodes of a scope, for those
// with a name, and for those with a name in a scope.
const IN_SCOPE: u8 = b'S';

const NAMED: u8 = b'N';

const NAMED_IN: u8 = b'M';

// The name of everything in a scope.
const NO_NAME: &[u8] = b"";

// The scope of a role, or of everything. `None` means the whole cluster; a user or a group also has
// `None`.
fn scope_at<'p>(node: Node<'p>) -> Option<&'p Word>
    ensures { option_copied result ≡ scope_at (node_of node.entry) }
{
    match node {
        Node::Somebody(_) => None,
        Node::ClusterRole(_, scope) | Node::Everything(scope) => scope,
        Node::Role(role) => Some(&role.namespace),
    }
}

/// The holdings that may take over other nodes by these steps: those whose rules match a row that
/// takes over roles or everything.
pub(crate) fn over_others<'p>(
    alloc: Global,
    steps: &[StepRows],
    holdings: &[Holding<'p>],
) -> Result<Vec<Holding<'p>>, AllocError>
    ensures { IfOk result (λ few. AreOverOthers steps.now holdings.now few.items) }
{
    let mut few = Vec::new(alloc);
    for held in holdings {
        if some_may_take(steps, held) {
            let Holding { home, rule } = *held;
            few.push(Holding { home, rule })?;
        }
    }
    Ok(few)
}

// Whether the holding may take over other nodes by these steps.
fn some_may_take(steps: &[StepRows], held: &Holding<'_>) -> bool
    ensures { IsTrue result ↔ SomeMayTake steps.now held.now }
{
    steps.iter().any(|rows| rows.may_take(held.rule))
}

/// The numbers, among these, of the grants that may take over other nodes by some steps.
/// `takeovers` lists what each rule of each role takes over by these steps.
pub(crate) fn over_others_among(
    alloc: Global,
    policy: &Policy,
    takeovers: &RuleTakeovers,
    numbers: &[u32],
) -> Result<Items<u32>, AllocError>
    requires { All (λ n. n < length policy.now.grants) numbers.now }
    ensures { (steps : List Step) → HaveTakeovers policy.now.held steps takeovers.now
        → IfOk result (λ few. (n : ℕ) → Contains few n
        ↔ (Contains numbers.now n × IsOverOthersAt policy.now steps n)) }
{
    let mut few = Items::new(alloc);
    for no in numbers {
        if some_is_over_nobody(takeovers.of_grant(policy.place(*no))) {
            few.push(*no)?;
        }
    }
    Ok(few)
}

/// The places of the other nodes that the node `from` takes over by these steps. The holdings `few`
/// are enough to decide that. `writing` are the steps `bind` and `escalate`, and `others` has the
/// places of all other nodes.
pub(crate) fn others_taken(
    alloc: Global,
    steps: &[StepRows],
    writing: &[StepRows],
    few: &[Holding<'_>],
    from: Node<'_>,
    nodes: &[Node<'_>],
    others: &Others,
) -> Result<Items<usize>, AllocError>
    requires writing { writing.now ≡ Bind ∷ Escalate ∷ [] }
    requires others { AreAmongOthers (map node_of nodes.now) others.now }
    ensures { (p : PolicyView)
        → DecideOn p steps.now (node_of from.entry) few.now IsNobody
        → IfOk result
        (λ js. AreOthers p steps.now (node_of from.entry) (map node_of nodes.now) js) }
{
    if few.is_empty() {
        return Ok(Items::new(alloc));
    }
    let scoped = scoped(alloc, steps, writing, few)?;
    let places = places_to_ask(alloc, few, scoped.as_slice(), others)?;
    others_among(alloc, steps, few, from, nodes, places.as_slice())
}

// The holdings that decide in which scopes a node may take over roles, or everything in a
// namespace. A node takes these over only by `bind` and `escalate`, and takes over none of them if
// it takes over everything in the whole cluster by these steps. By `certificates` and `webhooks` a
// node takes over only everything in the whole cluster, so holdings for these steps alone are left
// out.
fn scoped<'p>(
    alloc: Global,
    steps: &[StepRows],
    writing: &[StepRows],
    holdings: &[Holding<'p>],
) -> Result<Vec<Holding<'p>>, AllocError>
    requires { writing.now ≡ Bind ∷ Escalate ∷ [] }
    ensures { (p : PolicyView) (x : NodeView) → DecideOn p steps.now x holdings.now IsNobody
        → IfOk result (λ few. AreScoped p steps.now x few.items) }
{
    if count_in_cluster(holdings) && has_all(steps, holdings, None) {
        return Ok(Vec::new(alloc));
    }
    over_others(alloc, writing, holdings)
}

// Whether one of these holdings counts in the whole cluster.
fn count_in_cluster(holdings: &[Holding<'_>]) -> bool
    ensures { IsTrue result ↔ Any (CountsAt None) holdings.now }
{
    holdings.iter().any(counts_in_cluster)
}

// Whether the holding counts in the whole cluster.
fn counts_in_cluster(held: &Holding<'_>) -> bool
    ensures { IsTrue result ↔ CountsAt None held.now }
{
    held.home.is_none()
}

// The places of the other nodes that are to be checked, each once: all of them, if one of the
// `scoped` holdings may take over nodes of any scope and name; otherwise those in scopes where one
// of these counts, with a name that it lists, and, if one of the `few` counts in the whole cluster,
// everything there.
fn places_to_ask(
    alloc: Global,
    few: &[Holding<'_>],
    scoped: &[Holding<'_>],
    others: &Others,
) -> Result<Vec<usize>, AllocError>
    ensures { (ys : List NodeView) → AreAmongOthers ys others.now
        → IfOk result (λ places. AreAskedPlaces ys few.now scoped.now places.items) }
{
    let mut places = Vec::new(alloc);
    if some_asks_all(scoped) {
        places.extend_from_slice(others.places.as_slice())?;
        return Ok(places);
    }
    let none = Word::new(alloc);
    add_in_cluster(alloc, others, few, &none, &mut places)?;
    add_of_holdings(alloc, others, scoped, &none, &mut places)?;
    places.sort_unstable();
    places.dedup();
    Ok(places)
}

// Whether one of these holdings counts in the whole cluster, and isn't limited to names.
fn some_asks_all(holdings: &[Holding<'_>]) -> bool
    ensures { IsTrue result ↔ Any AsksAll holdings.now }
{
    holdings.iter().any(asks_all)
}

// Whether the holding counts in the whole cluster, and isn't limited to names.
fn asks_all(held: &Holding<'_>) -> bool
    ensures { IsTrue result ↔ AsksAll held.now }
{
    held.home.is_none() && held.rule.resource_names.is_empty()
}

// Adds the place of everything in the whole cluster, if one of these holdings counts there. `none`
// is the empty name.
fn add_in_cluster(
    alloc: Global,
    others: &Others,
    holdings: &[Holding<'_>],
    none: &Word,
    places: &mut Vec<usize>,
) -> Result<(), AllocError>
    requires { none.now ≡ [] }
    ensures { OnOk result (AddsWhere
        (λ j. Any (CountsAt None) holdings.now × HasUnder others.now.by_word (named_in [] []) j)
        places.old.items places.new.items) }
{
    if count_in_cluster(holdings) {
        return add_under(alloc, others, Some(none), Some(none), places);
    }
    Ok(())
}

// Adds the places of the other nodes that these holdings may take over, by their scopes and names.
// `none` is the empty name.
fn add_of_holdings(
    alloc: Global,
    others: &Others,
    holdings: &[Holding<'_>],
    none: &Word,
    places: &mut Vec<usize>,
) -> Result<(), AllocError>
    requires { none.now ≡ [] }
    ensures { OnOk result (AddsWhere
        (λ j. Any (λ h. IsAskedBy others.now.by_word h j) holdings.now)
        places.old.items places.new.items) }
{
    for held in holdings {
        add_of_holding(alloc, others, held, none, places)?;
    }
    Ok(())
}

// Adds the places of the other nodes that a holding may take over, by their scopes and names.
// `none` is the empty name.
fn add_of_holding(
    alloc: Global,
    others: &Others,
    held: &Holding<'_>,
    none: &Word,
    places: &mut Vec<usize>,
) -> Result<(), AllocError>
    requires { none.now ≡ [] }
    ensures { OnOk result (AddsWhere (IsAskedBy others.now.by_word held.now)
        places.old.items places.new.items) }
{
    let names = held.rule.resource_names.as_slice();
    add_named(alloc, others, held.home, names, places)?;
    add_under(alloc, others, held.home, Some(none), places)?;
    if names.is_empty() {
        return add_under(alloc, others, held.home, None, places);
    }
    Ok(())
}

// Adds the places of the other nodes with one of these names, where a rule counts in `home`.
fn add_named(
    alloc: Global,
    others: &Others,
    home: Option<&Word>,
    names: &[Word],
    places: &mut Vec<usize>,
) -> Result<(), AllocError>
    ensures { OnOk result (AddsWhere
        (λ j. Any (λ name. HasUnder others.now.by_word
        (asked_word (option_copied home.entry) (Some name)) j) names.now)
        places.old.items places.new.items) }
{
    for name in names {
        add_under(alloc, others, home, Some(name), places)?;
    }
    Ok(())
}

// Adds the places of the other nodes that are found by a word (`asked_word`).
fn add_under(
    alloc: Global,
    others: &Others,
    home: Option<&Word>,
    name: Option<&Word>,
    places: &mut Vec<usize>,
) -> Result<(), AllocError>
    ensures { OnOk result (AddsWhere
        (HasUnder others.now.by_word
        (asked_word (option_copied home.entry) (option_copied name.entry)))
        places.old.items places.new.items) }
{
    let asked = asked_word(alloc, home, name)?;
    places.extend_from_slice(others.by_word.under(&asked))?;
    Ok(())
}

// The places among these whose node the node `from` takes over. These holdings are enough to decide
// that.
fn others_among(
    alloc: Global,
    steps: &[StepRows],
    holdings: &[Holding<'_>],
    from: Node<'_>,
    nodes: &[Node<'_>],
    places: &[usize],
) -> Result<Items<usize>, AllocError>
    requires { All (IsAt IsNobody (map node_of nodes.now)) places.now }
    ensures { (p : PolicyView)
        → DecideOn p steps.now (node_of from.entry) holdings.now IsNobody
        → IfOk result
        (λ js. AreOthersAt p steps.now (node_of from.entry) (map node_of nodes.now) places.now js) }
{
    let mut taken = Vec::new(alloc);
    let mut seen = Seen {
        scope: None,
        has_all: false,
    };
    for place in places {
        let to = nodes[*place];
        seen = seen_for(steps, holdings, seen, to);
        if takes_other(steps, holdings, seen, from, to) {
            taken.push(*place)?;
        }
    }
    Ok(Items::from_vec(taken))
}

// A scope; and if `has_all`, some holdings can take over everything there by `bind` or `escalate`,
// which then leave out each role there.
#[derive(Clone, Copy)]
struct Seen<'n> {
    scope: Option<&'n Word>,
    has_all: bool,
}

// What was seen of the scope of the node `to`. Most Roles of a list are in the same namespace as
// the one before, so these holdings are asked once about each namespace, and not about each Role.
fn seen_for<'n>(
    steps: &[StepRows],
    holdings: &[Holding<'_>],
    seen: Seen<'n>,
    to: Node<'n>,
) -> Seen<'n>
    requires { SeesAll steps.now holdings.now seen }
    ensures scope { option_copied result.scope ≡ scope_at (node_of to.entry) }
    ensures seen { SeesAll steps.now holdings.now result }
{
    let scope = scope_at(to);
    if scope == seen.scope {
        return seen;
    }
    Seen {
        scope,
        has_all: has_all(steps, holdings, scope),
    }
}

// Whether the node `from` takes over the other node `to`, whose scope was seen. These holdings are
// enough to decide that.
fn takes_other(
    steps: &[StepRows],
    holdings: &[Holding<'_>],
    seen: Seen<'_>,
    from: Node<'_>,
    to: Node<'_>,
) -> bool
    requires scope { option_copied seen.scope ≡ scope_at (node_of to) }
    requires seen { SeesAll steps.now holdings.now seen }
    ensures { (p : PolicyView)
        → DecideOn p steps.now (node_of from.entry) holdings.now IsNobody
        → IsNobody (node_of to.entry)
        → IsTrue result ↔ TakesOver p steps.now (node_of from.entry) (node_of to.entry) }
{
    if seen.has_all && is_role(to) {
        return false;
    }
    takes_nobody(steps, holdings, from, to)
}

// Whether a node is a role.
fn is_role(node: Node<'_>) -> bool
    ensures { IsTrue result ↔ IsRole (node_of node.entry) }
{
    matches!(node, Node::ClusterRole(_, _) | Node::Role(_))
}

// Whether the node `from` takes over the other node `to`. These holdings are enough to decide that.
fn takes_nobody(steps: &[StepRows], holdings: &[Holding<'_>], from: Node<'_>, to: Node<'_>) -> bool
    ensures { (p : PolicyView)
        → DecideOn p steps.now (node_of from.entry) holdings.now IsNobody
        → IsNobody (node_of to.entry)
        → IsTrue result ↔ TakesOver p steps.now (node_of from.entry) (node_of to.entry) }
{
    first_told(steps, holdings, from, to).is_some()
}
