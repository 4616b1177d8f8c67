//! The rules that somebody has.

ghost use Rattle.std.specs.Prelude.{◌≡◌};
ghost use Rattle.rbac_rules.specs.Left.{GivesRule, rules_left_at_most};

use crate::run::{Run, next_run};
use rbac_model::{Grant, Policy};
use rbac_terms::{Principal, Scope};
use std::marker::Model;

/// A rule that somebody has.
#[derive(Clone, Copy)]
pub struct EffectiveRule<'a> {
    /// The grant that brings the rule.
    pub grant: Grant<'a>,
    /// The place, from 0, of the first subject of the grant's binding that names who has the rule.
    pub subject_place: usize,
}

/// The rules that somebody has and that weren't taken yet, in order of grants.
#[derive(Drop)]
pub struct EffectiveRules<'a> {
    policy: &'a Policy,
    who: &'a Principal,
    scope: &'a Scope,
    run: Run,
}

impl<'a> Model for EffectiveRules<'a> {
    ghost use Rattle.std.specs.Prelude.{drop};
    ghost use Rattle.rbac_rules.specs.Left.{LeftView};
    ghost use Rattle.rbac_rules.specs.Runs.{IsEffectiveRun};

    ghost Value = { LeftView };

    ghost view = { λ it. record {
      who = it.who.now;
      scope = it.scope.now;
      bindings = it.policy.now.held.bindings;
      grants = drop it.run.no it.policy.now.grants;
    } };

    ghost invariant = { λ it. IsEffectiveRun it.policy.now it.who.now it.scope.now it.run };
}

/// The rules that a principal has in this scope (Using RBAC Authorization): one for each grant
/// whose binding may be live there and names the principal, in order of bindings, then of their
/// rules (own). Bindings name a user also by the given and the implied groups. A binding whose role
/// isn't held brings no rules, and an aggregated role brings those that it gathers. Neither the
/// call nor the iteration allocates.
pub fn effective_rules<'a>(
    policy: &'a Policy,
    who: &'a Principal,
    scope: &'a Scope,
) -> EffectiveRules<'a>
    ensures { result ≡ record {
      who = who.now;
      scope = scope.now;
      bindings = policy.now.held.bindings;
      grants = policy.now.grants;
    } }
{
    let run = Run {
        no: 0,
        end: 0,
        subject_place: 0,
        next_place: 0,
    };
    EffectiveRules {
        policy,
        who,
        scope,
        run,
    }
}

impl<'a> Iterator for EffectiveRules<'a> {
    type Item = EffectiveRule<'a>;

    ghost next_gives = { GivesRule };

    ghost remaining = { rules_left_at_most };

    fn next(&mut self) -> Option<EffectiveRule<'a>> {
        let policy: &'a Policy = self.policy;
        let run = next_run(policy, self.who, self.scope, self.run)?;
        let grant = policy.grant(run.no);
        self.run = Run {
            no: run.no + 1,
            ..run
        };
        Some(EffectiveRule {
            grant,
            subject_place: run.subject_place,
        })
    }
}
