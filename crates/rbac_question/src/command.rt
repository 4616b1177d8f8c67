//! Commands: what to do, with which options, and with which files.

use crate::asked::Asked;
use crate::path_end::PathEnd;
use rbac_steps::Step;
use rbac_terms::{Principal, Scope, Word};
use rbac_token::Mark;

/// A question: whether a verb may be used on what TARGET asks for, in a namespace (own, after
/// `kubectl auth can-i`).
pub struct Question {
    /// The namespace: the name after `-n`, or `default` without one; empty with `-A`.
    pub namespace: Word,
    /// Whether to ask in that namespace even if the type is cluster-scoped.
    pub in_namespace: bool,
    /// The verb; never empty if the line was accepted.
    pub verb: Word,
    /// What TARGET and `--subresource` ask for.
    pub asked: Asked,
}

impl Drop for Question {
    fn drop(self) {
        let Self {
            namespace,
            in_namespace,
            verb,
            asked,
        } = self;
    }
}

/// What `can-i` writes.
#[derive(Drop, Clone, Copy)]
pub struct VerdictOptions {
    /// Whether the answer is the exit status alone.
    pub quiet: bool,
    /// Whether a second line explains a yes.
    pub why: bool,
    /// Whether a no is followed by a line for each grant that lacks one thing.
    pub why_not: bool,
}

/// Which holders `who-can` lists, and what a line contains.
#[derive(Drop, Clone, Copy)]
pub struct HolderOptions {
    /// Whether each line also has the role, its source, the rule and the subject.
    pub why: bool,
    /// Whether a holder has a line for each binding that makes it a holder, and not only for the
    /// first.
    pub every: bool,
    /// Whether the bindings of all namespaces count, and not only those of the question's
    /// namespace. `-A` overrides it, so an action never has both.
    pub anywhere: bool,
    /// Whether a rule counts whatever its object names; the question's object name is then ignored.
    /// For a URL it changes nothing.
    pub any_name: bool,
    /// Whether the users whom Group documents list in these groups have lines too.
    pub members: bool,
}

/// Which rows `matrix` lists.
#[derive(Drop, Clone, Copy)]
pub struct MatrixOptions {
    /// Whether a request has a row for each binding that grants it, and not only for the first.
    pub every: bool,
    /// Whether rows that have a namespace and a ClusterRoleBinding are left out.
    pub once: bool,
}

/// How a `diff` gives the side after the change: what its files behind those of `--before` are.
#[derive(Drop, Clone, Copy)]
pub enum Change {
    /// The whole side after: the files of `--after`.
    After,
    /// A change of the side before. This many files, which come first, are those of `--without`:
    /// objects with the names of theirs are taken away. The others are those of `--with`: their
    /// objects are put over what is left.
    Over(usize),
}

/// What to do.
pub enum Action {
    /// Answers whether the principal is allowed what is asked: yes or no.
    CanI {
        /// The user of `--as`, with the groups of `--groups` and `--group`.
        principal: Principal,
        /// What is written.
        options: VerdictOptions,
        /// What is asked.
        question: Question,
    },
    /// Lists who is allowed what is asked.
    WhoCan {
        /// Which holders are listed, and what a line contains.
        options: HolderOptions,
        /// What is asked.
        question: Question,
    },
    /// Lists who is allowed what is asked, or comes to it by taking over others, step by step.
    WaysTo {
        /// The steps that count: each at most once, in the order of the table.
        steps: Vec<Step>,
        /// What is asked.
        question: Question,
    },
    /// Lists the rules that a principal has.
    Rules {
        /// The principal that WHO names; a user has the groups of `--groups` and `--group`.
        principal: Principal,
        /// Where the rules count, from `-n` and `-A`.
        scope: Scope,
    },
    /// Lists everything that anyone may do.
    Matrix {
        /// Which rows are listed.
        options: MatrixOptions,
        /// The mark of `--after`: only rows after it are listed; without `--every`, only rows after
        /// its key.
        after: Option<Mark>,
        /// The most rows to list, from `--limit`.
        limit: Option<u32>,
    },
    /// Prints the universe that `matrix` makes of the same files.
    Universe,
    /// Lists the findings about what was loaded.
    Lint {
        /// The codes whose findings are listed, as numbers 1 to 7, in the order of `--only`; a code
        /// may be repeated. `None` without `--only`: all findings are listed.
        only: Option<Vec<u8>>,
        /// Whether findings about Kubernetes' own objects are left out.
        skip_system: bool,
    },
    /// Lists what no request of the logs used: bindings, subjects, rules and permissions.
    Unused {
        /// Whether bindings whose names begin with `system:` are left out.
        skip_system: bool,
    },
    /// Prints roles and bindings that let a user do what it did by the logs, and nothing else.
    Least {
        /// The user that WHO names; never empty.
        user: Word,
        /// Whether rules keep the object names of the requests, and don't allow any name.
        names: bool,
        /// The name of the roles and bindings: the one after `--name`, or `least` without it.
        name: Word,
    },
    /// Lists who can act as others, or come to do so, by which step of the table and where.
    Powers,
    /// Lists whom a principal can come to act as, step by step.
    Paths {
        /// The principal that WHO names, as for `rules`.
        principal: Principal,
        /// The steps that count: each at most once, in the order of the table.
        steps: Vec<Step>,
        /// The end of the one path to list, from `--to` and `-n`; `None` lists all paths.
        to: Option<PathEnd>,
    },
    /// Lists what a change lets users do, and what it takes from them.
    Diff {
        /// How many files are those of `--before`; they come first.
        before: usize,
        /// What the other files are.
        change: Change,
    },
}

impl Drop for Action {
    fn drop(self) {
        match self {
            Self::CanI {
                principal: _,
                options: _,
                question: _,
            } => {}
            Self::WhoCan {
                options: _,
                question: _,
            } => {}
            Self::WaysTo {
                steps: _,
                question: _,
            } => {}
            Self::Rules {
                principal: _,
                scope: _,
            } => {}
            Self::Matrix {
                options: _,
                after: _,
                limit: _,
            } => {}
            Self::Universe => {}
            Self::Lint {
                only: _,
                skip_system: _,
            } => {}
            Self::Unused { skip_system: _ } => {}
            Self::Least {
                user: _,
                names: _,
                name: _,
            } => {}
            Self::Powers => {}
            Self::Paths {
                principal: _,
                steps: _,
                to: _,
            } => {}
            Self::Diff {
                before: _,
                change: _,
            } => {}
        }
    }
}

/// A command line that was accepted.
pub struct Command {
    /// What to do with the files.
    pub action: Action,
    /// The names of the files to read, in order; without any, standard input is read.
    pub files: Vec<String>,
    /// The names of the logs to read, in order; `-` is standard input. Only `unused` and `least`
    /// have logs, and each has one at least.
    pub logs: Vec<String>,
}

impl Drop for Command {
    fn drop(self) {
        let Self {
            action,
            files,
            logs,
        } = self;
    }
}
