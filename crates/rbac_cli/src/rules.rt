//! The rules that a principal has, as an answer.

ghost use Rattle.std.specs.Prelude.{◌≡◌, false};
ghost use Rattle.rbac_question.specs.declared.command.Action.TheVariants.{Rules as ListsRules};
ghost use Rattle.rbac_cli.specs.Printing.{EndsPrinting};
ghost use Rattle.rbac_cli.specs.declared.exports.Exports.TheVariants.{Single};

use crate::groups::with_groups;
use crate::lines::{Lines, print_lines};
use crate::outcome::Status;
use crate::output::Output;
use crate::stop::Stop;
use rbac_manifest::Export;
use rbac_rules::{EffectiveRules, effective_rules, effective_rules_are_there};
use rbac_terms::{Principal, Scope};
use rbac_text::put_grant;
use std::alloc::{AllocError, Global};
use std::io::Write;

/// Prints the rules that the principal has where they are asked for, a line for each.
pub(crate) fn print_rules<W: Write + Drop>(
    alloc: Global,
    export: &Export,
    principal: &Principal,
    scope: &Scope,
    output: &mut Output<'_, W>,
) -> Result<Status, Stop>
    requires { output.old.sink.now.has_failed ≡ false }
    ensures { EndsPrinting W.contents output.old output.new (Single export.now)
        (ListsRules principal.now scope.now) result }
{
    let who = with_groups(alloc, export, principal)?;
    effective_rules_are_there();
    let mut rules = effective_rules(export.policy(), &who, scope);
    print_lines(alloc, &mut rules, Status::Zero, output)
}

impl Lines for EffectiveRules<'_> {
    ghost use Rattle.std.specs.Prelude.{List, length};
    ghost use Rattle.rbac_rules.specs.Effective.{RuleView};
    ghost use Rattle.rbac_rules.specs.Left.{AreRulesLeft};
    ghost use Rattle.rbac_cli.specs.Out.{rules_text};

    ghost are_left = { λ rules text.
        (xs : List RuleView) × AreRulesLeft rules xs × (text ≡ rules_text xs) };

    ghost most_left = { λ rules. length rules.grants };

    fn put_next(&mut self, line: &mut Vec<u8>) -> Result<bool, AllocError> {
        let Some(rule) = self.next() else {
            return Ok(false);
        };
        put_grant(line, rule.grant, rule.subject_place)?;
        Ok(true)
    }
}
