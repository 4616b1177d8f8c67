//! Why the texts of a line are refused.

ghost use Rattle.std.specs.Prelude.{◌≡◌};

use rbac_token::TokenFault;
use std::alloc::{AllocError, AllocFailed};
use std::error::Error;
use std::fmt;

// The text of U8, which lists the words of all steps.
const BAD_STEP: &str = "U8 steps are impersonate, token, run, exec, secrets, nodes, bind, \
    escalate, certificates, webhooks, apiservices, bootstrap, volumes, namespaces";

// The text of U9, which states which options go together.
const BAD_INDIRECT: &str = "U9 --indirect excludes --anywhere, --any-name, --every, --members and \
    --why; --steps needs --indirect";

// The text of U10, which lists what a path can end at.
const BAD_END: &str = "U10 --to takes u:USER, g:GROUP, ClusterRole/NAME, Role/NS/NAME or *; \
    -n NS needs one of the last three";

// The text of U11, which states how standard input can be read once.
const BAD_LOGS: &str = "U11 --log - may be given once, and needs a FILE: \
    standard input can be read only once";

/// Why the texts of a line are refused (own).
#[derive(Debug, Drop, Clone, Copy, PartialEq, Eq)]
pub enum QuestionFault {
    /// U2: USER, VERB or TARGET is empty, or a type word has nothing before its dot.
    EmptyWord,
    /// U3: a subresource is asked for with a URL.
    UrlSubresource,
    /// U4: what follows `--after` isn't the token of any mark.
    BadToken,
    /// U5: WHO isn't `u:` or `g:` with a name behind it, or a group is given `--groups` or
    /// `--group`; or WHO of `least` isn't `u:` with a name behind it.
    BadPrincipal,
    /// U6: a part between the commas of `--only` isn't one of the words L1 to L7.
    BadCode,
    /// U7: a `diff` has none of `--after`, `--with` and `--without`, or `--after` with one of the
    /// others.
    BadChange,
    /// U8: a part between the commas of `--steps` isn't the word of a step.
    BadStep,
    /// U9: `who-can` has `--indirect` with `--why`, `--every`, `--anywhere`, `--any-name` or
    /// `--members`, or `--steps` without `--indirect`.
    BadIndirect,
    /// U10: TO isn't `u:` or `g:` with a name behind it, `ClusterRole/NAME`, `Role/NS/NAME` or `*`;
    /// or `paths` has `-n` without `--to`, beside a user or a group, or beside a Role of another
    /// namespace.
    BadEnd,
    /// U11: `unused` or `least` has `--log -` twice, or `--log -` without a FILE, so it would read
    /// standard input twice.
    BadLogs,
    /// U12: what follows `--name` of `least` can't be the name of a role or a binding: it is empty,
    /// `.` or `..`, or it has a `/` or a `%` (Kubernetes, IsValidPathSegmentName).
    BadRoleName,
    /// Out of memory.
    NoMemory,
}

impl From<AllocError> for QuestionFault {
    ghost use Rattle.rbac_question.specs.declared.fault.QuestionFault.TheVariants.{NoMemory};

    ghost from_gives = { λ _ fault. fault ≡ NoMemory };

    fn from(_: AllocError) -> Self {
        QuestionFault::NoMemory
    }
}

impl<T: Drop> From<AllocFailed<T>> for QuestionFault {
    ghost use Rattle.rbac_question.specs.declared.fault.QuestionFault.TheVariants.{NoMemory};

    ghost from_gives = { λ _ fault. fault ≡ NoMemory };

    fn from(_: AllocFailed<T>) -> Self {
        QuestionFault::NoMemory
    }
}

impl From<TokenFault> for QuestionFault {
    ghost use Rattle.rbac_question.specs.Faults.{question_fault};

    ghost from_gives = { λ cause fault. fault ≡ question_fault cause };

    fn from(cause: TokenFault) -> Self {
        match cause {
            TokenFault::NotBase64 | TokenFault::BadVersion | TokenFault::NotCanonical => {
                QuestionFault::BadToken
            }
            TokenFault::NoMemory => QuestionFault::NoMemory,
        }
    }
}

impl fmt::Display for QuestionFault {
    ghost use Rattle.std.specs.Prelude.{Some};
    ghost use Rattle.rbac_question.specs.Faults.{fault_text};

    ghost output = { λ fault. Some (fault_text fault) };

    fn fmt<W: fmt::Write>(&self, f: &mut fmt::Formatter<W>) -> fmt::Result {
        let text = match self {
            QuestionFault::EmptyWord => "U2 empty word",
            QuestionFault::UrlSubresource => "U3 subresource with a URL",
            QuestionFault::BadToken => "U4 bad token",
            QuestionFault::BadPrincipal => "U5 bad principal",
            QuestionFault::BadCode => "U6 bad code",
            QuestionFault::BadChange => "U7 give either --after, or --with or --without",
            QuestionFault::BadStep => BAD_STEP,
            QuestionFault::BadIndirect => BAD_INDIRECT,
            QuestionFault::BadEnd => BAD_END,
            QuestionFault::BadLogs => BAD_LOGS,
            QuestionFault::BadRoleName => "U12 --name is empty, . or .., or has / or %",
            QuestionFault::NoMemory => "out of memory",
        };
        f.write_str(text)
    }
}

impl Error for QuestionFault {}
