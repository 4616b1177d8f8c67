//! Nodes that take over the same other nodes, because the same holdings decide which these are.

ghost use Rattle.std.specs.Prelude.{◌≡◌, ◌↔◌, ◌<◌, ◌+◌, ◌∷◌, ℕ, [], IfOk, IsTrue, List, MatchOption};
ghost use Rattle.std.specs.Prelude.{OnOk, Some, length, map, slice_get, slice_index_or};
ghost use Rattle.rbac_model.specs.Policies.{PolicyView};
ghost use Rattle.rbac_paths.specs.Joints.{AreAmongOthers, AreOthers, AreTaken, DecideOn, IsNobody};
ghost use Rattle.rbac_paths.specs.Nodes.{NodeView, node_of};
ghost use Rattle.rbac_paths.specs.TakingOver.{MayGoOn};
ghost use Rattle.rbac_paths.specs.Tracing.{IsAt};
ghost use Rattle.rbac_steps.specs.declared.steps.Step.{Step};
ghost use Rattle.rbac_steps.specs.declared.steps.Step.TheVariants.{Bind, Escalate};

use crate::holding::Holding;
use crate::listed::list_of;
use crate::node::Node;
use crate::one_path::is_same_scope;
use crate::other_nodes::{Others, others_taken};
use crate::told::StepRows;
use rbac_terms::{Items, Rule, Word, Words};
use std::alloc::{AllocError, Global};
use std::collections::BTreeMap;
use std::marker::Model;

/// The other nodes that the first nodes of a list take over. Nodes that take over the same, because
/// they have the same holdings, share a list.
pub(crate) struct OthersTaken<'p> {
    // For each of these nodes, holdings that are enough to decide it.
    overs: Vec<Items<Holding<'p>>>,
    /// The places of these other nodes, a list at the place of each node. A list that a node before
    /// has is left empty.
    pub(crate) lists: Vec<Items<usize>>,
    /// For each of these nodes, the place of its list.
    pub(crate) places: Vec<usize>,
    // The place of the last node with each fingerprint of holdings.
    last: BTreeMap<u64, usize>,
}

impl Drop for OthersTaken<'_> {
    fn drop(self) {
        let Self {
            overs,
            lists,
            places,
            last,
        } = self;
    }
}

impl<'p> Model for OthersTaken<'p> {
    ghost use Rattle.rbac_paths.specs.Joints.{OthersTakenView};

    ghost Value = { OthersTakenView };

    ghost view = { λ o. record {
      overs = o.overs.items;
      lists = o.lists.items;
      places = o.places.items;
    } };
}

impl<'p> OthersTaken<'p> {
    /// Of no nodes. Doesn't allocate.
    pub(crate) fn none(alloc: Global) -> Self
        ensures { (p : PolicyView) (steps : List Step) (ys : List NodeView)
            → AreTaken p steps ys 0 result }
    {
        OthersTaken {
            overs: Vec::new(alloc),
            lists: Vec::new(alloc),
            places: Vec::new(alloc),
            last: BTreeMap::new(alloc),
        }
    }

    /// Adds the next node, `from`, and the places of the other nodes that it takes over by these
    /// steps, as `others_taken` finds them; `few` are holdings that are enough to decide that. Where
    /// a node before has the same holdings, they aren't looked for again.
    pub(crate) fn add(
        &mut self,
        alloc: Global,
        steps: &[StepRows],
        writing: &[StepRows],
        few: Vec<Holding<'p>>,
        from: Node<'_>,
        nodes: &[Node<'_>],
        others: &Others,
    ) -> Result<(), AllocError>
        requires writing { writing.now ≡ Bind ∷ Escalate ∷ [] }
        requires others { AreAmongOthers (map node_of nodes.now) others.now }
        ensures { (p : PolicyView) (count : ℕ)
            → AreTaken p steps.now (map node_of nodes.now) count self.old
            → slice_get (map node_of nodes.now) count ≡ Some (node_of from.entry)
            → DecideOn p steps.now (node_of from.entry) few.entry.items IsNobody
            → OnOk result (AreTaken p steps.now (map node_of nodes.now) (count + 1) self.new) }
    {
        match self.same_before(few.as_slice(), from, nodes)? {
            Some(list) => {
                self.lists.push(Items::new(alloc))?;
                self.places.push(list)?;
            }
            None => {
                let found = others_taken(
                    alloc,
                    steps,
                    writing,
                    few.as_slice(),
                    from,
                    nodes,
                    others,
                )?;
                self.places.push(self.lists.len())?;
                self.lists.push(found)?;
            }
        }
        self.overs.push(Items::from_vec(few))?;
        Ok(())
    }

    // The list of a node before that takes over the same as the next node, `from`, which has these
    // holdings; `None` if none is found.
    fn same_before(
        &mut self,
        few: &[Holding<'_>],
        from: Node<'_>,
        nodes: &[Node<'_>],
    ) -> Result<Option<usize>, AllocError>
        ensures same { self.new.overs ≡ self.old.overs }
        ensures lists { self.new.lists ≡ self.old.lists }
        ensures places { self.new.places ≡ self.old.places }
        ensures found { (p : PolicyView) (steps : List Step) (count : ℕ)
            → AreTaken p steps (map node_of nodes.now) count self.old
            → DecideOn p steps (node_of from.entry) few.now IsNobody
            → IfOk result (λ o. MatchOption o (Unit {0}) (λ list. (list < count)
            × AreOthers p steps (node_of from.entry) (map node_of nodes.now)
            (slice_index_or self.old.lists list []))) }
    {
        let next = self.overs.len();
        let Some(place) = self.last.insert(fingerprint(few), next)? else {
            return Ok(None);
        };
        let overs = self.overs.as_slice();
        if goes_on(from) && goes_on_at(nodes, place) && has_same(overs, place, few) {
            return Ok(Some(list_of(self.places.as_slice(), place)));
        }
        Ok(None)
    }
}

// A number that is the same for the same holdings, and that most others don't have. Nothing is
// proved about it, because it decides only how long the rest takes.
fn fingerprint(holdings: &[Holding<'_>]) -> u64 {
    let mut print = 0u64;
    for held in holdings {
        print = with_word(print, held.home);
        print = with_word(print, held.rule.resource_names.as_slice().first());
    }
    print
}

/// The fingerprint with a word added, or with a mark that there is none.
pub(crate) fn with_word(print: u64, word: Option<&Word>) -> u64 {
    let Some(word) = word else {
        return print.wrapping_mul(MIXING).wrapping_add(1);
    };
    let mut mixed = print.wrapping_mul(MIXING).wrapping_add(2);
    for byte in word.as_bytes() {
        mixed = mixed.wrapping_mul(MIXING).wrapping_add(u64::from(*byte));
    }
    mixed
}

// A large odd number: the prime of the hash FNV-1a.
const MIXING: u64 = 1_099_511_628_211;

// Whether a node may lead to all other nodes: it isn't everything in a scope.
fn goes_on(node: Node<'_>) -> bool
    ensures { IsTrue result → (y : NodeView) → MayGoOn (node_of node.entry) y }
{
    !matches!(node, Node::Everything(_))
}

// Whether the node at this place may lead to all other nodes.
fn goes_on_at(nodes: &[Node<'_>], place: usize) -> bool
    ensures { IsTrue result
        → IsAt (λ x. (y : NodeView) → MayGoOn x y) (map node_of nodes.now) place }
{
    match nodes.get(place) {
        Some(node) => goes_on(*node),
        None => false,
    }
}

// Whether the holdings at this place are the same as these.
fn has_same(overs: &[Items<Holding<'_>>], place: usize, few: &[Holding<'_>]) -> bool
    ensures low { IsTrue result → place < length overs.now }
    ensures same { IsTrue result → slice_index_or overs.now place [] ≡ few.now }
{
    match overs.get(place) {
        Some(over) => same_holdings(over.as_slice(), few),
        None => false,
    }
}

// Whether the holdings are the same, in the same order.
fn same_holdings(a: &[Holding<'_>], b: &[Holding<'_>]) -> bool
    ensures { IsTrue result → a.now ≡ b.now }
{
    if a.len() != b.len() {
        return false;
    }
    for (place, held) in a.iter().enumerate() {
        if !same_holding(held, &b[place]) {
            return false;
        }
    }
    true
}

// Whether both holdings have the same rule, word for word, and count in the same scope.
fn same_holding(a: &Holding<'_>, b: &Holding<'_>) -> bool
    ensures { IsTrue result → a.now ≡ b.now }
{
    is_same_scope(a.home, b.home) && same_rule(a.rule, b.rule)
}

// Whether the rules are the same, word for word.
#[tactic(auto, using(crate::proofs::SameOthers::same_lists))]
fn same_rule(a: &Rule, b: &Rule) -> bool
    ensures { IsTrue result → a.now ≡ b.now }
{
    same_resources(a, b) && same_words(&a.verbs, &b.verbs) && same_words(&a.urls, &b.urls)
}

// Whether the rules are for the same resources, in the same words.
fn same_resources(a: &Rule, b: &Rule) -> bool
    ensures groups { IsTrue result → a.now.groups ≡ b.now.groups }
    ensures resources { IsTrue result → a.now.resources ≡ b.now.resources }
    ensures names { IsTrue result → a.now.resource_names ≡ b.now.resource_names }
{
    same_words(&a.resources, &b.resources)
        && same_words(&a.resource_names, &b.resource_names)
        && same_words(&a.groups, &b.groups)
}

fn same_words(a: &Words, b: &Words) -> bool
    ensures { IsTrue result ↔ (a.now ≡ b.now) }
{
    a.as_slice() == b.as_slice()
}
