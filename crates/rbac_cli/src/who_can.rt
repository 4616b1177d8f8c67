//! Who may do something, as an answer.

ghost use Rattle.std.specs.Prelude.{◌≡◌, ◌++◌, ◌+◌, ◌-◌, true, false, AllPairs, List, IfOk};
ghost use Rattle.std.specs.Prelude.{MatchOption, OnOk, drop, length};
ghost use Rattle.std.specs.Slice.Iter.{iter_rest};
ghost use Rattle.rbac_terms.specs.Text.{Text};
ghost use Rattle.rbac_terms.specs.declared.scope.Scope.TheVariants.{Namespace};
ghost use Rattle.rbac_model.specs.Policies.{IsPolicy};
ghost use Rattle.rbac_model.specs.Sources.{source_of};
ghost use Rattle.rbac_text.specs.Row.{holder_text};
ghost use Rattle.rbac_text.specs.Why.{holder_why_text};
ghost use Rattle.rbac_index.specs.HolderViews.{holder_shown, requested_of};
ghost use Rattle.rbac_index.specs.Holding.{IsEarlier};
ghost use Rattle.rbac_index.specs.WhoCan.{AreListedHolders};
ghost use Rattle.rbac_members.specs.Members.{AreHoldersAndMembers};
ghost use Rattle.rbac_question.specs.declared.command.Action.TheVariants.{WhoCan};
ghost use Rattle.rbac_cli.specs.HolderLines.{AreHolderLines, IsHolderLine, joined_lines};
ghost use Rattle.rbac_cli.specs.Meant.{requested_meant, scope_given};
ghost use Rattle.rbac_cli.specs.Printing.{EndsPrinting};
ghost use Rattle.rbac_cli.specs.declared.exports.Exports.TheVariants.{Single};

use crate::lines::{Lines, print_lines};
use crate::meaning::meant_by;
use crate::outcome::Status;
use crate::output::Output;
use crate::stop::Stop;
use rbac_groups::Membership;
use rbac_index::{Holder, Holders, Index, IndexFault, Requested, why_held};
use rbac_manifest::Export;
use rbac_members::{Member, members_of};
use rbac_model::{Policy, Why};
use rbac_question::{HolderOptions, Question};
use rbac_terms::{Scope, Target, Word};
use rbac_text::{put_holder, put_holder_why};
use std::alloc::{AllocError, Global};
use std::io::Write;
use std::slice::Iter;

/// Prints who is allowed what the question asks: a line for each holder, or with `every` for each
/// binding that makes it a holder, and with `members` then for the members of groups that are
/// holders. With `why`, each line also explains why the holder's key, or the group of the member,
/// holds the permission by that binding.
pub(crate) fn print_holders<W: Write + Drop>(
    alloc: Global,
    export: &Export,
    options: HolderOptions,
    question: &Question,
    output: &mut Output<'_, W>,
) -> Result<Status, Stop>
    requires { output.old.sink.now.has_failed ≡ false }
    ensures { EndsPrinting W.contents output.old output.new (Single export.now)
        (WhoCan options question.now) result }
{
    let meant = meant_by(alloc, export.catalogue(), question)?;
    let scope = scope_asked(meant.is_outside, options.anywhere, meant.namespace);
    let requested = requested_by(options.any_name, &meant.target);
    let policy = export.policy();
    let verb = &question.verb;
    let holders = holders_of(alloc, policy, &scope, options.every, verb, requested)?;
    let members = members_told(alloc, export.memberships(), options, &holders)?;
    let asked = HolderQuestion {
        policy: export.policy(),
        verb,
        target: &meant.target,
        any_name: options.any_name,
        why: options.why,
    };
    let mut lines = HolderLines {
        asked,
        holders: &holders,
        place: 0,
        members: members.as_slice().iter(),
    };
    print_lines(alloc, &mut lines, Status::Zero, output)
}

// Where holders are asked for: in this namespace, or with `anywhere` in any. A target outside all
// namespaces is asked for in this namespace, which is then empty.
fn scope_asked(is_outside: bool, anywhere: bool, namespace: Word) -> Scope
    ensures outside { is_outside ≡ true → result ≡ Namespace namespace }
    ensures given { is_outside ≡ false → result ≡ scope_given anywhere namespace }
{
    if anywhere && !is_outside {
        Scope::Anywhere
    } else {
        Scope::Namespace(namespace)
    }
}

// What holders are asked for: the target, or with `any_name` the target whatever its object name.
fn requested_by(any_name: bool, target: &Target) -> Requested<'_>
    ensures { requested_of result ≡ requested_meant any_name target.now }
{
    if any_name {
        Requested::AnyName(target)
    } else {
        Requested::ThisTarget(target)
    }
}

fn holders_of<'p>(
    alloc: Global,
    policy: &'p Policy,
    scope: &Scope,
    every: bool,
    verb: &Word,
    requested: Requested<'_>,
) -> Result<Holders<'p>, IndexFault>
    ensures holders { IfOk result
        (AreListedHolders policy.now.held scope.now every verb.now
        (requested_of requested.entry)) }
    ensures policy { IsPolicy policy.now }
{
    let index = Index::build(alloc, policy)?;
    index.holders(alloc, scope, every, verb, requested)
}

// The members of groups among the holders, if they are asked for.
fn members_told<'h>(
    alloc: Global,
    memberships: &[Membership],
    options: HolderOptions,
    holders: &'h Holders<'_>,
) -> Result<Vec<Member<'h>>, AllocError>
    ensures { AllPairs IsEarlier holders.now → IfOk result
        (λ members. AreHoldersAndMembers memberships.now options.members options.every holders.now
        (holders.now ++ members.items)) }
{
    if !options.members {
        return Ok(Vec::new(alloc));
    }
    members_of(alloc, memberships, options.every, holders)
}

// The question about holders, and whether to print why they hold the permission.
#[derive(Clone, Copy)]
struct HolderQuestion<'a> {
    policy: &'a Policy,
    verb: &'a Word,
    target: &'a Target,
    any_name: bool,
    why: bool,
}

// The lines of holders from a place on, and then of members.
#[derive(Drop)]
struct HolderLines<'a, 'h, 'p> {
    asked: HolderQuestion<'a>,
    holders: &'h Holders<'p>,
    place: usize,
    members: Iter<'h, Member<'h>>,
}

impl Lines for HolderLines<'_, '_, '_> {
    ghost are_left = { λ it text. (lines : List Text)
        × AreHolderLines it.asked.policy.now it.asked.why it.asked.verb.now
        (requested_meant it.asked.any_name it.asked.target.now)
        (drop it.place it.holders.now ++ iter_rest it.members) lines
        × (text ≡ joined_lines lines) };

    ghost most_left = { λ it. length it.holders.now - it.place + length (iter_rest it.members) };

    fn put_next(&mut self, line: &mut Vec<u8>) -> Result<bool, AllocError> {
        let place = self.place;
        if place < self.holders.len() {
            self.place = place + 1;
            put_line(line, self.asked, self.holders.get(place))?;
            return Ok(true);
        }
        let Some(member) = self.members.next() else {
            return Ok(false);
        };
        put_line(line, self.asked, member.as_holder())?;
        Ok(true)
    }
}

// Adds the line of one holder.
fn put_line(
    line: &mut Vec<u8>,
    asked: HolderQuestion<'_>,
    holder: Holder<'_>,
) -> Result<(), AllocError>
    ensures { (text : Text)
        → IsHolderLine asked.entry.policy.now asked.entry.why asked.entry.verb.now
        (requested_meant asked.entry.any_name asked.entry.target.now)
        (holder_shown holder.entry) text
        → OnOk result (line.new.items ≡ line.old.items ++ text) }
{
    match reason_told(asked, holder) {
        Some(why) => put_holder_why(
            line,
            holder.principal,
            why.binding,
            why.source,
            why.rule_place,
            why.subject_place,
        ),
        None => put_holder(line, holder.principal, holder.binding),
    }
}

// Why the holder's key holds the permission by its binding, if that is to be printed.
fn reason_told<'a>(asked: HolderQuestion<'a>, holder: Holder<'_>) -> Option<Why<'a>>
    ensures { (text : Text)
        → IsHolderLine asked.entry.policy.now asked.entry.why asked.entry.verb.now
        (requested_meant asked.entry.any_name asked.entry.target.now)
        (holder_shown holder.entry) text
        → MatchOption result
        (text ≡ holder_text holder.entry.principal.now holder.entry.binding.now)
        (λ why. text ≡ holder_why_text holder.entry.principal.now why.binding.now
        (source_of why.source) why.rule_place why.subject_place) }
{
    if !asked.why {
        return None;
    }
    let requested = requested_by(asked.any_name, asked.target);
    why_held(asked.policy, holder, asked.verb, requested)
}
