//! What TARGET and `--subresource` ask for.

ghost use Rattle.std.specs.Prelude.{◌≡◌, ◌≢◌, IsTrue, ◌↔◌, IfOk, OnOk, IfErr};
ghost use Rattle.rbac_terms.specs.Targets.{IsPath};
ghost use Rattle.rbac_question.specs.Asked.{IsAskable, AsksFor, RefusesTarget, IsTypeAndName};
ghost use Rattle.rbac_question.specs.Asked.{LacksType, HasUrlSubresource};
ghost use Rattle.rbac_question.specs.declared.asked.AskedFor.TheVariants.{Url as ForUrl};

use crate::fault::QuestionFault;
use rbac_terms::{Word, is_path};
use std::alloc::{AllocError, Global};
use std::marker::Model;

/// What a question asks for (own).
pub enum AskedFor {
    /// A URL, given by its path, which begins with a slash.
    Url(Word),
    /// A resource type, with a subresource and an object name; each of these two may be empty.
    Resource {
        /// The type word: it isn't empty, has no slash and doesn't begin with a dot.
        word: Word,
        /// The subresource.
        subresource: Word,
        /// The object name.
        name: Word,
    },
}

impl Drop for AskedFor {
    fn drop(self) {
        match self {
            Self::Url(_) => {}
            Self::Resource {
                word: _,
                subresource: _,
                name: _,
            } => {}
        }
    }
}

/// An [`AskedFor`] whose path or type word has the form that is stated there (own).
#[derive(Drop)]
pub struct Asked {
    what: AskedFor,
}

impl Model for Asked {
    ghost use Rattle.rbac_question.specs.declared.asked.AskedFor.{AskedFor};
    ghost use Rattle.rbac_question.specs.Asked.{IsAskable};

    ghost Value = { AskedFor };

    ghost view = { λ a. a.what };

    ghost invariant = { λ a. IsAskable a.what };
}

impl Asked {
    // What TARGET and `--subresource` ask for (own): a URL if TARGET begins with `/`, otherwise a
    // type, with TARGET split at its first `/` into type word and object name. A missing name is
    // the empty text.
    pub(crate) fn from_target(
        alloc: Global,
        target: &str,
        subresource: &str,
    ) -> Result<Self, AllocError>
        requires typed { ¬ LacksType target.now }
        requires located { ¬ HasUrlSubresource target.now subresource.now }
        ensures { IfOk result
            (λ asked. AsksFor target.now subresource.now asked × IsAskable asked) }
    {
        if is_path(target.as_bytes()) {
            return located(alloc, target);
        }
        typed(alloc, target, subresource)
    }

    /// What is asked for.
    pub fn what(&self) -> &AskedFor
        ensures what { result.now ≡ self.now }
        ensures askable { IsAskable self.now }
    {
        &self.what
    }
}

// Why TARGET and `--subresource` are refused: U2 if TARGET is empty or begins with `.`, U3 if a URL
// has a subresource.
pub(crate) fn check_target(target: &str, subresource: &str) -> Result<(), QuestionFault>
    ensures accepted { OnOk result
        ((¬ LacksType target.now) × (¬ HasUrlSubresource target.now subresource.now)) }
    ensures refused { IfErr result (RefusesTarget target.now subresource.now) }
    ensures lacking { LacksType target.now → result ≡ Err QuestionFault.EmptyWord }
    ensures located { ¬ LacksType target.now → HasUrlSubresource target.now subresource.now
        → result ≡ Err QuestionFault.UrlSubresource }
    ensures unallocated { IfErr result (λ e. e ≢ QuestionFault.NoMemory) }
{
    if lacks_type(target) {
        return Err(QuestionFault::EmptyWord);
    }
    if has_url_subresource(target, subresource) {
        return Err(QuestionFault::UrlSubresource);
    }
    Ok(())
}

fn lacks_type(target: &str) -> bool
    ensures { IsTrue result ↔ LacksType target.now }
{
    target.is_empty() || target.as_bytes().starts_with(b".".as_slice())
}

fn has_url_subresource(target: &str, subresource: &str) -> bool
    ensures { IsTrue result ↔ HasUrlSubresource target.now subresource.now }
{
    is_path(target.as_bytes()) && !subresource.is_empty()
}

// A URL by its path.
fn located(alloc: Global, path: &str) -> Result<Asked, AllocError>
    requires { IsPath path.now }
    ensures { IfOk result (λ asked. (asked ≡ ForUrl path.now) × IsAskable asked) }
{
    let path = Word::from_slice(alloc, path.as_bytes())?;
    Ok(Asked {
        what: AskedFor::Url(path),
    })
}

// A type and a name, with a subresource.
fn typed(alloc: Global, target: &str, subresource: &str) -> Result<Asked, AllocError>
    requires typed { ¬ LacksType target.now }
    requires no_path { ¬ IsPath target.now }
    ensures { IfOk result (λ asked. AsksFor target.now subresource.now asked × IsAskable asked) }
{
    let (word, name) = type_and_name(target);
    Ok(Asked {
        what: AskedFor::Resource {
            word: Word::from_slice(alloc, word.as_bytes())?,
            subresource: Word::from_slice(alloc, subresource.as_bytes())?,
            name: Word::from_slice(alloc, name.as_bytes())?,
        },
    })
}

fn type_and_name(target: &str) -> (&str, &str)
    ensures { IsTypeAndName target.now result.0.now result.1.now }
{
    match target.split_once('/') {
        Some(parts) => parts,
        None => (target, ""),
    }
}
