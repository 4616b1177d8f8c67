//! Verdicts.

ghost use Rattle.std.specs.Prelude.{◌≡◌, ◌++◌, IfOk, OnOk, codes};
ghost use Rattle.rbac_terms.specs.Text.{Text};
ghost use Rattle.rbac_near.specs.Near.{request_of};
ghost use Rattle.rbac_question.specs.declared.command.Action.TheVariants.{CanI};
ghost use Rattle.rbac_cli.specs.Out.{Answers, AreNearLines, FollowsNo, line_unless};
ghost use Rattle.rbac_cli.specs.Verdicts.{yes_text};
ghost use Rattle.rbac_cli.specs.declared.exports.Exports.TheVariants.{Single};

use crate::groups::with_groups;
use crate::meaning::meant_by;
use crate::outcome::Status;
use rbac_index::why_allowed;
use rbac_manifest::Export;
use rbac_model::{Policy, Why};
use rbac_near::{Request, near_grants, put_near};
use rbac_question::{Question, VerdictOptions};
use rbac_terms::Principal;
use rbac_text::put_why;
use std::alloc::{AllocError, Global};

// A verdict: its whole text and its status.
pub(crate) struct Verdict {
    pub(crate) text: Vec<u8>,
    pub(crate) status: Status,
}

impl Drop for Verdict {
    fn drop(self) {
        let Self { text, status } = self;
    }
}

/// The verdict on whether the principal is allowed what the question asks. With `-q` it has a
/// status and no text; with `--why`, a second line explains a yes; with `--why-not`, lines after a
/// no tell what near grants lack.
pub(crate) fn verdict_of(
    alloc: Global,
    export: &Export,
    principal: &Principal,
    options: VerdictOptions,
    question: &Question,
) -> Result<Verdict, AllocError>
    ensures { IfOk result
        (λ verdict. Answers (Single export.now)
        (CanI principal.now options question.now) verdict.text.items verdict.status) }
{
    let who = with_groups(alloc, export, principal)?;
    let meant = meant_by(alloc, export.catalogue(), question)?;
    let policy = export.policy();
    let request = Request {
        who: &who,
        namespace: &meant.namespace,
        verb: &question.verb,
        target: &meant.target,
        is_namespaced: !meant.is_outside,
    };
    let found = why_allowed(
        policy,
        &who,
        &meant.namespace,
        &question.verb,
        &meant.target,
    );
    match found {
        Some(found) => {
            let text = yes_text(alloc, options, found)?;
            let status = Status::Zero;
            Ok(Verdict { text, status })
        }
        None => {
            let text = no_text(alloc, policy, request, options)?;
            let status = Status::One;
            Ok(Verdict { text, status })
        }
    }
}

// The text that is printed for a yes.
fn yes_text(alloc: Global, options: VerdictOptions, found: Why<'_>) -> Result<Vec<u8>, AllocError>
    ensures { IfOk result (λ text. text.items ≡ yes_text options.quiet options.why found.entry) }
{
    let mut text = Vec::new(alloc);
    if options.quiet {
        return Ok(text);
    }
    text.extend_from_slice(b"yes\n")?;
    if options.why {
        put_why(
            &mut text,
            found.binding,
            found.source,
            found.rule_place,
            found.subject_place,
        )?;
    }
    Ok(text)
}

// The text that is printed for a no.
fn no_text(
    alloc: Global,
    policy: &Policy,
    request: Request<'_>,
    options: VerdictOptions,
) -> Result<Vec<u8>, AllocError>
    ensures { IfOk result (λ text. (lacking : Text)
        × FollowsNo policy.now (request_of request.entry) options.quiet options.why_not lacking
        × (text.items ≡ line_unless options.quiet (codes "no") ++ lacking)) }
{
    let mut text = Vec::new(alloc);
    if !options.quiet {
        text.extend_from_slice(b"no\n")?;
        if options.why_not {
            put_near_grants(alloc, policy, request, &mut text)?;
        }
    }
    Ok(text)
}

// Adds the lines of the near grants for a request.
fn put_near_grants(
    alloc: Global,
    policy: &Policy,
    request: Request<'_>,
    text: &mut Vec<u8>,
) -> Result<(), AllocError>
    ensures { OnOk result ((lines : Text) × AreNearLines policy.now (request_of request.entry) lines
        × (text.new.items ≡ text.old.items ++ lines)) }
{
    let found = near_grants(alloc, policy, request)?;
    for near in found.as_slice() {
        put_near(alloc, text, policy, *near)?;
    }
    Ok(())
}
