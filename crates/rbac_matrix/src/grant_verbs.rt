//! Which verbs the rules of grants have. They are kept from one line to the next, because the
//! grants of ClusterRoleBindings are the same in each namespace.

ghost use Rattle.std.specs.Prelude.{◌≡◌, ◌<◌, ◌↔◌, IsTrue, length};
ghost use Rattle.rbac_matrix.specs.Shown.{HasItsVerb};
ghost use Rattle.rbac_matrix.specs.GrantVerbs.{AreBits, AreVerbsOfGrant, AreVerbsOfGrants};
ghost use Rattle.rbac_matrix.specs.GrantVerbs.{HasBit, HasVerbAt};

use crate::line::Line;
use rbac_index::Index;
use rbac_terms::{Rule, Word, verb_matches};
use rbac_universe::Universe;

// For how many of a universe's first verbs there is a bit.
pub(crate) const MOST_VERBS: usize = 64;

/// Which of a universe's first verbs the rule of a grant has: those whose bit is 1. The grant has
/// the number `no`.
#[derive(Clone, Copy, Default)]
pub(crate) struct GrantVerbs {
    no: u32,
    bits: u64,
}

impl GrantVerbs {
    // The verbs of this grant. They are copied from `known` if the grant is at place `nth` there.
    pub(crate) fn of(
        index: &Index<'_>,
        universe: &Universe,
        no: u32,
        known: &[GrantVerbs],
        nth: usize,
    ) -> Self
        requires within { no < length index.now.grants }
        requires known { AreVerbsOfGrants index.now universe.now known.now }
        ensures told { AreVerbsOfGrant index.now universe.now result }
        ensures no { result.no ≡ no }
    {
        if let Some(told) = known.get(nth) {
            if told.no == no {
                return *told;
            }
        }
        GrantVerbs {
            no,
            bits: bits_of(index.grant(no).rule, universe.verbs()),
        }
    }

    // The bits of the verbs, the first verb's the lowest.
    pub(crate) fn bits(self) -> u64
        ensures { result ≡ self.bits }
    {
        self.bits
    }

    // Whether the bit of the verb at this place is 1.
    fn has_bit(self, place: usize) -> bool
        requires { place < 64 }
        ensures { IsTrue result ↔ HasBit self.bits place }
    {
        (self.bits >> place) & 1 == 1
    }
}

// A bit for each of the first verbs: 1 if the rule has the verb.
fn bits_of(rule: &Rule, verbs: &[Word]) -> u64
    ensures { AreBits rule.now verbs.now result }
{
    let mut bits = 0;
    for place in 0..verbs.len().min(MOST_VERBS) {
        if !verb_matches(rule, &verbs[place]) {
            continue;
        }
        bits |= 1 << place;
    }
    bits
}

// Whether the grant's rule has the line's verb. If the grant is at place `nth` of `kept` and the
// verb has a bit there, the bit decides; otherwise the rule is asked.
pub(crate) fn has_verb(
    index: &Index<'_>,
    universe: &Universe,
    kept: &[GrantVerbs],
    nth: usize,
    no: u32,
    line: Line<'_>,
) -> bool
    requires within { no < length index.now.grants }
    requires kept { AreVerbsOfGrants index.now universe.now kept.now }
    requires verb { HasItsVerb universe.now line }
    ensures { IsTrue result ↔ HasVerbAt index.now no line.entry.verb.now }
{
    if let Some(told) = kept.get(nth) {
        if told.no == no && line.verb_place < MOST_VERBS {
            return told.has_bit(line.verb_place);
        }
    }
    verb_matches(index.grant(no).rule, line.verb)
}
