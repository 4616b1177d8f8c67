//! What a question asks for, according to a catalogue.

ghost use Rattle.std.specs.Prelude.{◌≡◌, ◌↔◌, IfOk, IsTrue, codes};
ghost use Rattle.rbac_terms.specs.Targets.{Url};
ghost use Rattle.rbac_terms.specs.Text.{BeginsWith};
ghost use Rattle.rbac_question.specs.Asked.{IsTypeWord};
ghost use Rattle.rbac_question.specs.declared.asked.AskedFor.TheVariants.{Resource as ForResource};
ghost use Rattle.rbac_cli.specs.Meant.{IsTargetMeant, IsMeant, IsOutside};
ghost use Rattle.rbac_cli.specs.Meant.{with_subresource};

use rbac_catalogue::Catalogue;
use rbac_question::{Asked, AskedFor, Question};
use rbac_terms::{Target, Word};
use std::alloc::{AllocError, Global};

// What a question asks for, and where.
#[derive(Drop)]
pub(crate) struct Meant {
    pub(crate) target: Target,
    pub(crate) namespace: Word,
    // Whether the target is asked for outside all namespaces.
    pub(crate) is_outside: bool,
}

// What a question asks for, and where, according to a catalogue.
pub(crate) fn meant_by(
    alloc: Global,
    catalogue: &Catalogue,
    question: &Question,
) -> Result<Meant, AllocError>
    ensures meant { IfOk result
        (λ meant. IsMeant catalogue.now.entries question.now meant.target meant.namespace) }
    ensures outside { IfOk result (λ meant. IsTrue meant.is_outside
        ↔ IsOutside catalogue.now.entries question.now meant.target) }
{
    let target = target_of(alloc, catalogue, &question.asked)?;
    let is_outside = is_outside(catalogue, question, &target);
    let namespace = if is_outside {
        Word::new(alloc)
    } else {
        Word::from_slice(alloc, question.namespace.as_bytes())?
    };
    Ok(Meant {
        target,
        namespace,
        is_outside,
    })
}

// The target that a question asks for (own): a URL as it is written, or what
// [`Catalogue::resolve_word`] makes of the type word, followed by a slash and the subresource if
// there is one.
fn target_of(alloc: Global, catalogue: &Catalogue, asked: &Asked) -> Result<Target, AllocError>
    ensures { IfOk result (IsTargetMeant catalogue.now.entries asked.now) }
{
    match asked.what() {
        AskedFor::Url(path) => url_target(alloc, path),
        AskedFor::Resource {
            word,
            subresource,
            name,
        } => resource_target(alloc, catalogue, word, subresource, name),
    }
}

fn url_target(alloc: Global, path: &Word) -> Result<Target, AllocError>
    requires { BeginsWith path.now (codes "/") }
    ensures { IfOk result (λ target. target ≡ Url path.now) }
{
    match Target::url(alloc, Word::from_slice(alloc, path.as_bytes())?) {
        Ok(target) => Ok(target),
        Err(_) => unreachable!(),
    }
}

fn resource_target(
    alloc: Global,
    catalogue: &Catalogue,
    word: &Word,
    subresource: &Word,
    name: &Word,
) -> Result<Target, AllocError>
    requires { IsTypeWord word.now }
    ensures { IfOk result
        (IsTargetMeant catalogue.now.entries (ForResource word.now subresource.now name.now)) }
{
    let found = catalogue.resolve_word(alloc, word)?;
    let text = resource_text(alloc, found.resource.as_bytes(), subresource.as_bytes())?;
    let name = Word::from_slice(alloc, name.as_bytes())?;
    match Target::resource(found.group, text, name) {
        Ok(target) => Ok(target),
        Err(_) => unreachable!(),
    }
}

// A resource with its subresource, if there is one.
fn resource_text(alloc: Global, resource: &[u8], subresource: &[u8]) -> Result<Word, AllocError>
    ensures { IfOk result (λ text. text ≡ with_subresource resource.now subresource.now) }
{
    let mut text = Word::from_slice(alloc, resource)?;
    if !subresource.is_empty() {
        text.push(b'/')?;
        text.push_slice(subresource)?;
    }
    Ok(text)
}

// Whether a target is asked for outside all namespaces (own): it is cluster-scoped in the
// catalogue, and `--in-namespace` isn't given.
fn is_outside(catalogue: &Catalogue, question: &Question, target: &Target) -> bool
    ensures { IsTrue result ↔ IsOutside catalogue.now.entries question.now target.now }
{
    !question.in_namespace && catalogue.cluster_only(target.group(), target.text())
}
