//! Whom and what a principal comes to, as an answer.

ghost use Rattle.std.specs.Prelude.{◌≡◌, ◌↔◌, Contains, IfOk, List, Vec, false, vec_items};
ghost use Rattle.std.specs.Global.{Global};
ghost use Rattle.rbac_terms.specs.Principals.{Who};
ghost use Rattle.rbac_model.specs.Lists.{IsAscendingBy};
ghost use Rattle.rbac_model.specs.Policies.{PolicyView};
ghost use Rattle.rbac_model.specs.Unions.{who_texts};
ghost use Rattle.rbac_paths.specs.Nodes.{Somebody};
ghost use Rattle.rbac_paths.specs.Paths.{ArePathsOf};
ghost use Rattle.rbac_steps.specs.declared.steps.Step.{Step as PathStep};
ghost use Rattle.rbac_question.specs.declared.command.Action.TheVariants.{Paths as ListsPaths};
ghost use Rattle.rbac_cli.specs.Groups.{named_alone, named_in};
ghost use Rattle.rbac_cli.specs.Out.{AreListed, paths_status};
ghost use Rattle.rbac_cli.specs.Printing.{EndsPrinting};
ghost use Rattle.rbac_cli.specs.declared.exports.Exports.TheVariants.{Single};

use crate::groups::with_groups;
use crate::lines::{HasLine, print_lines};
use crate::outcome::Status;
use crate::output::Output;
use crate::stop::Stop;
use rbac_document::principals_once_each;
use rbac_groups::{each_with_memberships, users_listed};
use rbac_manifest::Export;
use rbac_paths::{Path, Step, path_to, paths, put_path};
use rbac_question::PathEnd;
use rbac_subjects::SubjectIndex;
use rbac_terms::Principal;
use rbac_universe::Principals;
use std::alloc::{AllocError, Global};
use std::io::Write;

/// Prints whom and what the principal comes to by these steps, a line for each; or with `to` the
/// one path that leads there, a line for each step.
pub(crate) fn print_paths<W: Write + Drop>(
    alloc: Global,
    export: &Export,
    principal: &Principal,
    steps: &[Step],
    to: &Option<PathEnd>,
    output: &mut Output<'_, W>,
) -> Result<Status, Stop>
    requires { output.old.sink.now.has_failed ≡ false }
    ensures { (chosen : Vec PathStep Global) → vec_items chosen ≡ steps.now
        → EndsPrinting W.contents output.old output.new (Single export.now)
        (ListsPaths principal.now chosen to.now) result }
{
    let who = with_groups(alloc, export, principal)?;
    let policy = export.policy();
    let index = SubjectIndex::build(alloc, policy)?;
    let principals = named_principals(alloc, export, &index)?;
    let found = paths(alloc, policy, &index, principals.as_slice(), &who, steps)?;
    let listed = listed_of(alloc, found, to)?;
    let status = status_of(listed.as_slice(), to);
    print_lines(alloc, &mut listed.as_slice().iter(), status, output)
}

// The paths to list: all, or the one path to `to`, step by step.
fn listed_of<'p>(
    alloc: Global,
    found: Vec<Path<'p>>,
    to: &Option<PathEnd>,
) -> Result<Vec<Path<'p>>, AllocError>
    ensures { IfOk result (λ listed. (p : PolicyView) (principals : List Who)
        (chosen : List PathStep) (who : Who) → ArePathsOf p principals chosen who found.entry.items
        → AreListed (Somebody who) to.now found.entry.items listed.items) }
{
    match to {
        Some(end) => path_to(alloc, found.as_slice(), &end.what, end.namespace.as_ref()),
        None => Ok(found),
    }
}

// The status: 1 if a path to an end is asked for, and there is none.
fn status_of(listed: &[Path<'_>], to: &Option<PathEnd>) -> Status
    ensures { result ≡ paths_status to.now listed.now }
{
    match (to, listed.first()) {
        (Some(_), None) => Status::One,
        _ => Status::Zero,
    }
}

/// The users and groups that bindings, ServiceAccount objects and Group documents name, each once,
/// in order of keys, with the groups that documents give them.
pub(crate) fn named_principals(
    alloc: Global,
    export: &Export,
    index: &SubjectIndex<'_>,
) -> Result<Principals, AllocError>
    requires { index.now ≡ export.now.policy }
    ensures ordered { IfOk result (IsAscendingBy who_texts) }
    ensures exact { IfOk result
        (λ given. (who : Who) → Contains given who ↔ Contains (named_in export.now) who) }
{
    let each = each_named(alloc, export, index)?;
    let given = each_with_memberships(alloc, export.memberships(), each.into_vec())?;
    Ok(Principals::from_vec(given))
}

// The users and groups that are named, each once, in order of keys, without given groups.
fn each_named(
    alloc: Global,
    export: &Export,
    index: &SubjectIndex<'_>,
) -> Result<Principals, AllocError>
    requires { index.now ≡ export.now.policy }
    ensures ordered { IfOk result (IsAscendingBy who_texts) }
    ensures exact { IfOk result
        (λ each. (who : Who) → Contains each who ↔ Contains (named_alone export.now) who) }
{
    let mut named = index.principals(alloc)?;
    named.append(&mut export.account_users(alloc)?.into_vec())?;
    let mut listed = users_listed(alloc, export.memberships())?;
    named.append(&mut listed)?;
    principals_once_each(Principals::from_vec(named))
}

impl HasLine for Path<'_> {
    ghost use Rattle.rbac_paths.specs.PathLines.{path_text};

    ghost line_text = { path_text };

    fn put_into(&self, line: &mut Vec<u8>) -> Result<(), AllocError> {
        put_path(line, self)
    }
}
