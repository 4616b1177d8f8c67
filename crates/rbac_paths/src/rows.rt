//! The rows of the table of steps, with their texts as words, and which rules allow the requests of
//! a row.

ghost use Rattle.std.specs.Prelude.{◌≡◌, ◌↔◌, IsTrue, IfOk, OnOk, Any, map};
ghost use Rattle.std.specs.Option.{option_copied};
ghost use Rattle.rbac_terms.specs.Matching.{NameMatches, VerbOk};
ghost use Rattle.rbac_terms.specs.Targets.{Resource};
ghost use Rattle.rbac_terms.specs.Text.{Text};
ghost use Rattle.rbac_model.specs.Policies.{Live};
ghost use Rattle.rbac_paths.specs.Asked.{AllowsAsked, AllowsAskedRow, AllowsRowFor, Asks};
ghost use Rattle.rbac_paths.specs.Asked.{HasRowNameFor, RowAsks};
ghost use Rattle.rbac_paths.specs.Joints.{MatchesOverOthers};
ghost use Rattle.rbac_paths.specs.Nodes.{node_of};
ghost use Rattle.rbac_paths.specs.Rows.{AddsRow, AreOfStep, HasRowName, HasRowResource};
ghost use Rattle.rbac_paths.specs.Rows.{MatchesRow, row_view};
ghost use Rattle.rbac_paths.specs.Steps.{AllowsRow, CountsIn, CountsThere, asked_in};
ghost use Rattle.rbac_paths.specs.Steps.{kube_system, table};
ghost use Rattle.rbac_paths.specs.Takeovers.{takeover_of};
ghost use Rattle.rbac_paths.specs.Taking.{IsOver, RowTakes};

use crate::holding::Holding;
use crate::node::Node;
use crate::table::{Counts, Names, Over, Row, TABLE};
use crate::takeover::{Takeover, is_over_nobody};
use crate::taking::{
    Asked, KUBE_SYSTEM, for_account, for_bootstrapper, for_cluster_role, for_everything,
    for_everything_in_namespace, for_group, for_role, for_user,
};
use rbac_steps::Step;
use rbac_terms::{Rule, Word, Words, group_matches, resource_matches, verb_matches};
use std::alloc::{AllocError, Global};
use std::marker::Model;

/// A row of the table, with its texts as words.
pub(crate) struct WordRow {
    step: Step,
    names: Names,
    counts: Counts,
    verbs: Words,
    group: Word,
    resources: Words,
    over: Over,
}

impl Drop for WordRow {
    fn drop(self) {
        let Self {
            step,
            names,
            counts,
            verbs,
            group,
            resources,
            over,
        } = self;
    }
}

impl Model for WordRow {
    ghost use Rattle.rbac_paths.specs.Steps.{StepRowView};

    ghost Value = { StepRowView };

    ghost view = { λ r. record {
      step = r.step;
      names = r.names;
      counts = r.counts;
      verbs = r.verbs;
      group = r.group;
      resources = r.resources;
      over = r.over;
    } };
}

/// A row that can take over a node, with the namespace and the name in its requests that do.
#[derive(Drop)]
pub(crate) struct AskedRow<'a> {
    row: &'a WordRow,
    namespace: &'a [u8],
    own: &'a [u8],
}

impl<'a> Model for AskedRow<'a> {
    ghost use Rattle.rbac_paths.specs.Asked.{AskedRowView};

    ghost Value = { AskedRowView };

    ghost view = { λ a. record { row = a.row.now; namespace = a.namespace.now; own = a.own.now } };
}

impl<'a> AskedRow<'a> {
    // Whether the holding allows one of these requests.
    pub(crate) fn is_allowed_by(&self, held: &Holding<'_>) -> bool
        ensures { IsTrue result ↔ AllowsAskedRow held.now self.now }
    {
        self.row.is_asked_by(held, self.namespace, self.own)
    }
}

impl WordRow {
    fn of(alloc: Global, row: &Row) -> Result<Self, AllocError>
        ensures { IfOk result (λ r. r ≡ row_view row.now) }
    {
        Ok(WordRow {
            step: row.step,
            names: row.names,
            counts: row.counts,
            verbs: words_of(alloc, row.verbs)?,
            group: Word::from_slice(alloc, row.group.as_bytes())?,
            resources: words_of(alloc, row.resources)?,
            over: row.over,
        })
    }

    // What the row takes over, where its requests count, and which object names they have.
    pub(crate) fn takeover(&self) -> Takeover
        ensures { result ≡ takeover_of self.now }
    {
        Takeover {
            names: self.names,
            counts: self.counts,
            over: self.over,
        }
    }

    // Whether the row counts for a binding in this namespace, or for a ClusterRoleBinding if there
    // is none.
    pub(crate) fn counts_in(&self, namespace: Option<&Word>) -> bool
        ensures { IsTrue result ↔ CountsIn self.now (option_copied namespace.entry) }
    {
        match namespace {
            None => true,
            Some(namespace) => counts_there(self.counts, namespace.as_bytes()),
        }
    }

    // Whether the rule allows a request of the row.
    pub(crate) fn is_allowed_by(&self, rule: &Rule) -> bool
        ensures { IsTrue result ↔ AllowsRow self.now rule.now }
    {
        self.matches(rule) && self.has_name_of(rule)
    }

    // Whether the holding allows a request of the row that takes over the node.
    pub(crate) fn is_taken_by(&self, held: &Holding<'_>, node: Node<'_>) -> bool
        ensures { IsTrue result
            ↔ RowTakes self.now held.now.home held.now.rule (node_of node.entry) }
    {
        match self.asked_of(node) {
            Some(asked) => self.is_asked_by(held, asked.namespace, asked.own),
            None => false,
        }
    }

    // Whether one of these holdings allows a request of the row that takes over the node. The
    // namespace and the name in such requests are found once, and not again for each holding.
    pub(crate) fn is_taken_by_some(&self, holdings: &[Holding<'_>], node: Node<'_>) -> bool
        ensures { IsTrue result
            ↔ Any (λ h. RowTakes self.now h.home h.rule (node_of node.entry)) holdings.now }
    {
        match self.asked_of(node) {
            Some(asked) => self.is_asked_by_some(holdings, asked.namespace, asked.own),
            None => false,
        }
    }

    // Whether one of these holdings allows a request of the row in this namespace for a node with
    // this name.
    fn is_asked_by_some(&self, holdings: &[Holding<'_>], namespace: &[u8], own: &[u8]) -> bool
        ensures { IsTrue result ↔ Any (AllowsAsked self.now namespace.now own.now) holdings.now }
    {
        holdings
            .iter()
            .any(|held| self.is_asked_by(held, namespace, own))
    }

    // Whether the holding allows a request of the row in this namespace for a node with this name.
    fn is_asked_by(&self, held: &Holding<'_>, namespace: &[u8], own: &[u8]) -> bool
        ensures { IsTrue result ↔ AllowsAsked self.now namespace.now own.now held.now }
    {
        self.is_live(held.home, namespace) && self.is_allowed_for(held.rule, own)
    }

    // The row, with the namespace and the name in its requests that take over the node; `None` if
    // the row can't take over the node.
    pub(crate) fn asked_for<'a>(&'a self, node: Node<'a>) -> Option<AskedRow<'a>>
        ensures { RowAsks self.now (node_of node.entry) result }
    {
        match self.asked_of(node) {
            Some(asked) => Some(AskedRow {
                row: self,
                namespace: asked.namespace,
                own: asked.own,
            }),
            None => None,
        }
    }

    // The namespace and the name in the row's requests that take over the node; `None` if the row
    // can't take over the node.
    fn asked_of<'p>(&self, node: Node<'p>) -> Option<Asked<'p>>
        ensures { Asks (IsOver self.now.over self.now.counts (node_of node.entry)) result }
    {
        match self.over {
            Over::Users => for_user(node),
            Over::Groups => for_group(node),
            Over::Bootstrappers => for_bootstrapper(node),
            Over::Accounts => for_account(node),
            Over::Everything => for_everything(self.counts, node),
            Over::EverythingInNamespace => for_everything_in_namespace(node),
            Over::ClusterRoles => for_cluster_role(node),
            Over::Roles => for_role(node),
            Over::Nothing => None,
        }
    }

    // Whether a binding in the namespace `home`, or a ClusterRoleBinding if there is none, is live
    // for the row's requests in `namespace`.
    fn is_live(&self, home: Option<&Word>, namespace: &[u8]) -> bool
        ensures { (text name : Text) → IsTrue result ↔ Live (option_copied home.entry)
            (asked_in self.now.counts namespace.now) (Resource self.now.group text name) }
    {
        match home {
            None => true,
            Some(own) => own.as_bytes() == namespace && counts_there(self.counts, namespace),
        }
    }

    // Whether the rule allows a request of the row for a node with this name.
    fn is_allowed_for(&self, rule: &Rule, own: &[u8]) -> bool
        ensures { IsTrue result ↔ AllowsRowFor self.now own.now rule.now }
    {
        self.matches(rule) && self.has_name_for(rule, own)
    }

    // Whether the rule's object names match an object name in the row's requests for a node with
    // this name.
    fn has_name_for(&self, rule: &Rule, own: &[u8]) -> bool
        ensures { IsTrue result ↔ HasRowNameFor self.now.names own.now rule.now }
    {
        match self.names {
            Names::Any => true,
            Names::Own => has_name(rule, own),
            Names::None => has_name(rule, b""),
        }
    }

    // Whether the rule matches a verb, the API group and a resource of the row. The group is
    // compared first: most rules have one group, and it isn't the row's. Verbs are compared last:
    // a rule has more of them than resources, and the row's are often among them.
    pub(crate) fn matches(&self, rule: &Rule) -> bool
        ensures { IsTrue result ↔ MatchesRow self.now rule.now }
    {
        group_matches(rule, &self.group) && self.has_resource_of(rule) && self.has_verb_of(rule)
    }

    // Whether the row takes over roles or everything, and the rule matches it.
    pub(crate) fn matches_over_others(&self, rule: &Rule) -> bool
        ensures { IsTrue result ↔ MatchesOverOthers rule.now self.now }
    {
        is_over_nobody(self.over) && self.matches(rule)
    }

    // Whether the rule matches one of the row's verbs.
    fn has_verb_of(&self, rule: &Rule) -> bool
        ensures { IsTrue result ↔ Any (VerbOk rule.now) self.now.verbs }
    {
        self.verbs
            .as_slice()
            .iter()
            .any(|verb| verb_matches(rule, verb))
    }

    // Whether the rule matches one of the row's resources, whatever the API group.
    fn has_resource_of(&self, rule: &Rule) -> bool
        ensures { IsTrue result ↔ Any (HasRowResource rule.now) self.now.resources }
    {
        self.resources
            .as_slice()
            .iter()
            .any(|text| resource_matches(rule, text))
    }

    // Whether the rule's object names match an object name that a request of the row can have.
    fn has_name_of(&self, rule: &Rule) -> bool
        ensures { IsTrue result ↔ HasRowName self.now.names rule.now }
    {
        match self.names {
            Names::Own | Names::Any => true,
            Names::None => has_name(rule, b""),
        }
    }
}

// Whether this is the namespace of bootstrap tokens.
pub(crate) fn is_kube_system(namespace: &[u8]) -> bool
    ensures { IsTrue result ↔ (namespace.now ≡ kube_system) }
{
    namespace == KUBE_SYSTEM
}

// Whether rows that count there count in this namespace.
pub(crate) fn counts_there(counts: Counts, namespace: &[u8]) -> bool
    ensures { IsTrue result ↔ CountsThere counts namespace.now }
{
    match counts {
        Counts::ClusterWide => false,
        Counts::InNamespaces => !namespace.is_empty(),
        Counts::InKubeSystem => is_kube_system(namespace),
    }
}

// Whether the rule's object names match this one, which is empty if the request has no object name.
pub(crate) fn has_name(rule: &Rule, name: &[u8]) -> bool
    ensures { IsTrue result ↔ NameMatches rule.now.resource_names name.now }
{
    rule.resource_names.is_empty() || rule.resource_names.contains_bytes(name)
}

// These texts as words.
fn words_of(alloc: Global, texts: &[&str]) -> Result<Words, AllocError>
    ensures { IfOk result (λ words. words ≡ map (λ t. t.now) texts.now) }
{
    let mut words = Words::new(alloc);
    for text in texts {
        words.push(Word::from_slice(alloc, text.as_bytes())?)?;
    }
    Ok(words)
}

// The rows of a step.
pub(crate) fn rows_of(alloc: Global, step: Step) -> Result<Vec<WordRow>, AllocError>
    ensures { IfOk result (λ rows. AreOfStep step table rows.items) }
{
    rows_among(alloc, &TABLE, step)
}

// The rows of a step among these rows.
fn rows_among(alloc: Global, all: &[Row], step: Step) -> Result<Vec<WordRow>, AllocError>
    ensures { IfOk result (λ rows. AreOfStep step (map row_view all.now) rows.items) }
{
    let mut rows = Vec::new(alloc);
    for row in all {
        add_row(alloc, row, step, &mut rows)?;
    }
    Ok(rows)
}

// Adds the row if it is a row of the step.
fn add_row(alloc: Global, row: &Row, step: Step, rows: &mut Vec<WordRow>) -> Result<(), AllocError>
    ensures { OnOk result (AddsRow step (row_view row.now) rows.old.items rows.new.items) }
{
    if row.step == step {
        rows.push(WordRow::of(alloc, row)?)?;
    }
    Ok(())
}
