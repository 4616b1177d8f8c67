//! The requests of a log, each once.

ghost use Rattle.std.specs.Prelude.{◌≡◌, ◌⊎◌, ◌↔◌, [], Contains, IfOk, OnErr, OnOk};
ghost use Rattle.rbac_diff.specs.Requests.{RequestView};
ghost use Rattle.std.specs.Cmp.Lexicographic.{slice_cmp};
ghost use Rattle.rbac_terms.specs.Text.{text_cmp};
ghost use Rattle.rbac_use.specs.Logs.{asked_texts, target_kind, target_texts};
ghost use Rattle.rbac_use.specs.Requests.{log_of, request_of};

use crate::request::Request;
use rbac_terms::{Principal, Target, Word};
use std::alloc::{AllocError, Global};
use std::cmp::Ordering;
use std::collections::BTreeSet;
use std::marker::Model;

// A request of a log.
#[derive(Drop)]
struct Entry {
    who: Principal,
    namespace: Word,
    verb: Word,
    target: Target,
}

impl Model for Entry {
    ghost use Rattle.rbac_diff.specs.Requests.{RequestView};

    ghost Value = { RequestView };

    ghost view = { λ e. record {
      who = e.who;
      namespace = e.namespace;
      verb = e.verb;
      target = e.target;
    } };
}

impl PartialEq for Entry {
    ghost use Rattle.std.specs.Cmp as Cmp;
    ghost use Rattle.std.specs.Ordering.{eq_by_cmp};
    ghost use Rattle.rbac_use.specs.Logs.{request_cmp, request_cmp_equiv};

    ghost eq = { eq_by_cmp request_cmp };

    ghost laws = { Cmp.partial_equiv_from_equiv request_cmp_equiv };

    fn eq(&self, other: &Self) -> bool {
        self.cmp(other) == Ordering::Equal
    }
}

impl Eq for Entry {
    ghost use Rattle.rbac_use.specs.Logs.{request_cmp_equiv};

    ghost laws = { request_cmp_equiv };
}

impl PartialOrd for Entry {
    ghost use Rattle.std.specs.Ordering.{as_partial_cmp};
    ghost use Rattle.rbac_use.specs.Logs.{request_cmp, request_cmp_partial};

    ghost partial_cmp = { as_partial_cmp request_cmp };

    ghost laws = { request_cmp_partial };

    fn partial_cmp(&self, other: &Self) -> Option<Ordering> {
        Some(self.cmp(other))
    }
}

impl Ord for Entry {
    ghost use Rattle.std.specs.Prelude.{refl};
    ghost use Rattle.rbac_use.specs.Logs.{request_cmp, request_cmp_total};

    ghost cmp = { request_cmp };

    ghost total = { request_cmp_total };

    ghost matches_partial_cmp = { λ _ _. refl };

    ghost matches_eq = { λ _ _. refl };

    fn cmp(&self, other: &Self) -> Ordering {
        match self.who.key().cmp(other.who.key()) {
            Ordering::Equal => cmp_asked(self, other),
            by_who => by_who,
        }
    }
}

// The order of what the same user asks. Mostly users or namespaces differ, and then the other texts
// aren't compared.
fn cmp_asked(entry: &Entry, other: &Entry) -> Ordering
    ensures { result ≡ slice_cmp text_cmp (asked_texts entry.now) (asked_texts other.now) }
{
    match entry.namespace.cmp(&other.namespace) {
        Ordering::Equal => entry.verb.cmp(&other.verb).then(cmp_target(entry, other)),
        by_place => by_place,
    }
}

// The order of the targets, and then of the groups that were given.
fn cmp_target(entry: &Entry, other: &Entry) -> Ordering
    ensures { result ≡ slice_cmp text_cmp (target_texts entry.now) (target_texts other.now) }
{
    let given = entry.who.given().cmp(other.who.given());
    let name = entry.target.name().cmp(other.target.name());
    let text = entry.target.text().cmp(other.target.text());
    let group = entry.target.group().cmp(other.target.group());
    let kind = kind_of(&entry.target).cmp(kind_of(&other.target));
    kind.then(group.then(text.then(name.then(given))))
}

// What the target is.
fn kind_of(target: &Target) -> &'static [u8]
    ensures { result.now ≡ target_kind target.now }
{
    if target.is_url() { b"url" } else { b"resource" }
}

/// The requests of a log, each once: whatever repeats takes no memory. Contracts see the list of
/// these requests.
#[derive(Drop)]
pub struct Log {
    entries: BTreeSet<Entry>,
}

impl Model for Log {
    ghost use Rattle.std.specs.Prelude.{List};
    ghost use Rattle.rbac_diff.specs.Requests.{RequestView};

    ghost Value = { List RequestView };

    ghost view = { λ l. l.entries.keys };
}

impl Log {
    /// The log without requests. Doesn't allocate.
    pub fn new(alloc: Global) -> Self
        ensures { result ≡ [] }
    {
        Log {
            entries: BTreeSet::new(alloc),
        }
    }

    /// Adds a request, unless it is there already. Fails only if it runs out of memory, and then
    /// leaves the log unchanged.
    pub fn add(
        &mut self,
        who: Principal,
        namespace: Word,
        verb: Word,
        target: Target,
    ) -> Result<(), AllocError>
        ensures added { OnOk result ((r : RequestView) → Contains self.new r ↔ (Contains self.old r
            ⊎ (r ≡ record {
              who = who;
              namespace = namespace;
              verb = verb;
              target = target;
            }))) }
        ensures kept { OnErr result (self.new ≡ self.old) }
    {
        let entry = Entry {
            who,
            namespace,
            verb,
            target,
        };
        self.entries.insert(entry)?;
        Ok(())
    }

    // The requests, as they are asked about.
    pub(crate) fn requests(&self, alloc: Global) -> Result<Vec<Request<'_>>, AllocError>
        ensures { IfOk result (λ all. log_of all.items ≡ self.now) }
    {
        let mut all = Vec::new(alloc);
        for entry in &self.entries {
            all.push(request_of(entry))?;
        }
        Ok(all)
    }
}

// The request of an entry.
fn request_of(entry: &Entry) -> Request<'_>
    ensures { request_of result ≡ entry.now }
{
    Request {
        who: &entry.who,
        namespace: &entry.namespace,
        verb: &entry.verb,
        target: &entry.target,
    }
}
