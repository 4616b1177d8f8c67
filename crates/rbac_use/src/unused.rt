//! What of a policy a log doesn't use.

ghost use Rattle.std.specs.Prelude.{◌≡◌, ◌<◌, ◌↔◌, IfOk, IsTrue, List, OnOk, codes, length};
ghost use Rattle.rbac_terms.specs.Text.{BeginsWith};
ghost use Rattle.rbac_model.specs.Policies.{IsPolicy};
ghost use Rattle.rbac_use.specs.Adding.{AddsLines};
ghost use Rattle.rbac_use.specs.Asked.{AreAskedAt};
ghost use Rattle.rbac_use.specs.ByBinding.{AreAskedByBinding};
ghost use Rattle.rbac_use.specs.Requests.{log_of};
ghost use Rattle.rbac_use.specs.Unused.{AreUnused, IsUnusedAt, Keeps};
ghost use Rattle.rbac_use.specs.declared.request.Request.{Request};

use crate::bindings::add_of_binding;
use crate::by_binding::asked_by_binding;
use crate::log::Log;
use crate::permission::TargetPlaces;
use crate::request::Request;
use rbac_model::Policy;
use rbac_terms::{Binding, Items};
use std::alloc::{AllocError, Global};

// What the names of Kubernetes' own bindings begin with.
const SYSTEM: &[u8] = b"system:";

/// A part of a binding.
#[derive(Clone, Copy, Debug, Drop)]
pub enum Part {
    /// All of it.
    Whole,
    /// The subject at this place, from 0.
    Subject(usize),
    /// The rule of the grant with this number.
    Rule(u32),
    /// A permission of such a rule, by the places of its words in the rule's lists.
    Permission {
        /// The number of the grant.
        number: u32,
        /// The place of the verb, from 0.
        verb: usize,
        /// The places of the words of the target.
        target: TargetPlaces,
    },
}

/// A part of a binding that nothing has used (own): the binding, the subject, the rule through this
/// binding, or the permission can go.
#[derive(Clone, Copy, Debug, Drop)]
pub struct Unused {
    /// The place of the binding in its policy, from 0.
    pub binding: usize,
    /// The part of it.
    pub part: Part,
}

/// What of the policy none of the log's requests uses (own). A permission of a binding is a rule of
/// its role with one word of each list; it is used if it allows one of the requests through the
/// binding. Each unused permission that some request can match has one line, the coarsest one that
/// is true: of the binding, if none of its permissions is used; of the rule; or of the permission.
/// A subject has a line if the binding is used, but by nobody whom the subject names. Lines are in
/// order of bindings; of a binding, subjects come first, then rules in order of grants; of a rule,
/// permissions in order of its verbs, then of its URLs, and then of its API groups, resources and
/// object names. `skip_system` leaves out the bindings whose names begin with `system:`. Fails only
/// if it runs out of memory.
pub fn unused_lines(
    alloc: Global,
    policy: &Policy,
    log: &Log,
    skip_system: bool,
) -> Result<Vec<Unused>, AllocError>
    ensures unused { IfOk result (λ found. AreUnused policy.now log.now skip_system found.items) }
    ensures policy { IfOk result (λ _. IsPolicy policy.now) }
{
    let requests = log.requests(alloc)?;
    let asked = asked_by_binding(alloc, policy, requests.as_slice())?;
    lines_of(alloc, policy, asked.as_slice(), skip_system)
}

// What of the policy is unused, by the requests that each binding allows.
fn lines_of(
    alloc: Global,
    policy: &Policy,
    asked: &[Items<Request<'_>>],
    skip_system: bool,
) -> Result<Vec<Unused>, AllocError>
    requires { length asked.now ≡ length policy.now.held.bindings }
    ensures unused { (requests : List Request) → AreAskedByBinding policy.now requests asked.now
        → IfOk result (λ found. AreUnused policy.now (log_of requests) skip_system found.items) }
    ensures policy { IfOk result (λ _. IsPolicy policy.now) }
{
    let mut found = Vec::new(alloc);
    let places = policy.bindings().len();
    for place in 0..places {
        let own = asked[place].as_slice();
        add_kept(alloc, policy, own, skip_system, place, &mut found)?;
    }
    Ok(found)
}

// Adds the lines of the binding at this place, which allows these requests, unless it is left out.
fn add_kept(
    alloc: Global,
    policy: &Policy,
    asked: &[Request<'_>],
    skip_system: bool,
    place: usize,
    found: &mut Vec<Unused>,
) -> Result<(), AllocError>
    requires { place < length policy.now.held.bindings }
    ensures { (requests : List Request) → AreAskedAt policy.now place requests asked.now
        → OnOk result (AddsLines
        (IsUnusedAt policy.now (log_of requests) skip_system place)
        found.old.items found.new.items) }
{
    if !is_kept(&policy.bindings()[place], skip_system) {
        return Ok(());
    }
    add_of_binding(alloc, policy, asked, place, found)
}

// Whether the binding isn't left out.
fn is_kept(binding: &Binding, skip_system: bool) -> bool
    ensures { IsTrue result ↔ Keeps skip_system binding.now }
{
    !skip_system || !is_system(binding)
}

// Whether the name of the binding begins with `system:`.
fn is_system(binding: &Binding) -> bool
    ensures { IsTrue result ↔ BeginsWith binding.now.name (codes "system:") }
{
    binding.name.as_bytes().starts_with(SYSTEM)
}
