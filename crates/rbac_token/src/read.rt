//! Reads marks back from their printed fields.

ghost use Rattle.std.specs.Prelude.{◌≡◌, ◌==◌, List, [], ◌∷◌, ◌++◌, Option, Some, map, IfOk, IfErr};
ghost use Rattle.std.specs.Prelude.{IsSomeAnd, MatchResult, OnOk};
ghost use Rattle.std.specs.List.{slice_split};
ghost use Rattle.rbac_terms.specs.Text.{Text};
ghost use Rattle.rbac_terms.specs.Keys.{KeyTexts, texts as texts_of};
ghost use Rattle.rbac_terms.specs.Principals.{AsUser, AsMember, who_key};
ghost use Rattle.rbac_terms.specs.Targets.{What, IsProper, group_of, text_of, name_of};
ghost use Rattle.rbac_text.specs.Field.{field_text};
ghost use Rattle.rbac_text.specs.Row.{tab};
ghost use Rattle.rbac_token.specs.Faults.{RefusesIf, IsReadFault};
ghost use Rattle.rbac_token.specs.Marks.{name_texts, printed_mark, version_of};
ghost use Rattle.rbac_token.specs.Token.{IsKey, IsWhoKey, HasName};
ghost use Rattle.rbac_token.specs.declared.mark.BindingName.{BindingName};
ghost use Rattle.rbac_token.specs.declared.mark.Mark.{Mark};

use crate::fault::TokenFault;
use crate::field::read_field;
use crate::mark::{BindingName, Mark};
use crate::print::TEXTS;
use rbac_terms::{Key, ModelFault, Principal, ROLE_BINDING, Target, Word, Words, is_path};
use std::alloc::{AllocError, Global};

// The mark that is printed as these bytes. If there is no such mark, the result may be any mark, or
// K3.
pub(crate) fn read_mark(alloc: Global, bytes: &[u8]) -> Result<Mark, TokenFault>
    ensures whole { (m : Mark) → IsKey m.key → bytes.now ≡ printed_mark m.key m.binding
        → MatchResult result (λ read. read ≡ m) (λ e. e ≡ TokenFault.NoMemory) }
    ensures key { IfOk result (λ read. IsKey read.key) }
    ensures refused { IfErr result IsReadFault }
{
    let texts = texts_of(alloc, bytes)?;
    mark_of_texts(alloc, texts.as_slice())
}

// The mark of these texts: a version, the texts of a key, and those of a binding's name.
fn mark_of_texts(alloc: Global, texts: &[Word]) -> Result<Mark, TokenFault>
    ensures whole { (m : Mark) → IsKey m.key
        → texts.now ≡ version_of m.binding ∷ texts_of m.key ++ name_texts m.binding
        → MatchResult result (λ read. read ≡ m) (λ e. e ≡ TokenFault.NoMemory) }
    ensures key { IfOk result (λ read. IsKey read.key) }
    ensures refused { IfErr result IsReadFault }
{
    let Some((key, binding)) = after_version(texts) else {
        return Err(TokenFault::NotCanonical);
    };
    let binding = binding_of_texts(binding)?;
    let key = key_of_texts(alloc, key)?;
    Ok(Mark { key, binding })
}

// The six texts of a key after the version, and the texts after them.
fn after_version(texts: &[Word]) -> Option<(&[Word], &[Word])>
    ensures { (version : Text) (k : KeyTexts) (others : List Text)
        → texts.now ≡ version ∷ texts_of k ++ others
        → IsSomeAnd result (λ found. (found.0.now ≡ texts_of k) × (found.1.now ≡ others)) }
{
    match texts {
        [_, rest @ ..] => rest.split_at_checked(TEXTS),
        [] => None,
    }
}

// The name of a binding from its three texts; `None` if there are no texts.
fn binding_of_texts(texts: &[Word]) -> Result<Option<BindingName>, TokenFault>
    ensures whole { (b : Option BindingName) → texts.now ≡ name_texts b
        → MatchResult result (λ read. read ≡ b) (λ e. e ≡ TokenFault.NoMemory) }
    ensures refused { IfErr result IsReadFault }
{
    match texts {
        [] => Ok(None),
        [kind, namespace, name] => Ok(Some(name_of(kind, namespace, name)?)),
        _ => Err(TokenFault::NotCanonical),
    }
}

// The name of a binding of this kind. Any kind word but a RoleBinding's counts as a
// ClusterRoleBinding's, and a ClusterRoleBinding's namespace is ignored. The caller prints the name
// again to find both out.
fn name_of(kind: &Word, namespace: &Word, name: &Word) -> Result<BindingName, AllocError>
    ensures { (b : BindingName) → kind.now ∷ namespace.now ∷ name.now ∷ [] ≡ name_texts (Some b)
        → IfOk result (λ read. read ≡ b) }
{
    let namespace = if kind.as_bytes() == ROLE_BINDING.as_bytes() {
        Some(namespace.clone()?)
    } else {
        None
    };
    Ok(BindingName {
        namespace,
        name: name.clone()?,
    })
}

// The key of these texts.
fn key_of_texts(alloc: Global, texts: &[Word]) -> Result<Key, TokenFault>
    ensures whole { (k : KeyTexts) → IsKey k → texts.now ≡ texts_of k
        → MatchResult result (λ read. read ≡ k) (λ e. e ≡ TokenFault.NoMemory) }
    ensures key { IfOk result IsKey }
    ensures refused { IfErr result IsReadFault }
{
    let [principal, namespace, verb, group, text, name] = texts else {
        return Err(TokenFault::NotCanonical);
    };
    let target = target_of(alloc, group, text, name)?;
    key_for(alloc, principal, namespace, verb, &target)
}

// The key of a request, from the principal's key, a namespace, a verb and a target.
fn key_for(
    alloc: Global,
    principal: &Word,
    namespace: &Word,
    verb: &Word,
    target: &Target,
) -> Result<Key, TokenFault>
    requires { IsProper target.now }
    ensures whole { (k : KeyTexts) (h : IsKey k) → principal.now ≡ k.principal
        → namespace.now ≡ k.namespace
        → verb.now ≡ k.verb → target.now ≡ h.what
        → MatchResult result (λ read. read ≡ k) (λ e. e ≡ TokenFault.NoMemory) }
    ensures key { IfOk result IsKey }
    ensures refused { IfErr result IsReadFault }
{
    let principal = principal_of_key(alloc, principal.as_bytes())?;
    Ok(Key::of(alloc, &principal, namespace, verb, target)?)
}

// The texts that are printed between the tabs.
fn texts_of(alloc: Global, bytes: &[u8]) -> Result<Vec<Word>, AllocError>
    ensures { (texts : List Text)
        → slice_split (λ byte. byte == tab) bytes.now ≡ map field_text texts
        → IfOk result (λ v. v.items ≡ texts) }
{
    let mut texts = Vec::new(alloc);
    for field in fields_of(alloc, bytes)?.as_slice() {
        push_text(alloc, field, &mut texts)?;
    }
    Ok(texts)
}

// Adds the text that is printed as this field.
fn push_text(alloc: Global, field: &[u8], texts: &mut Vec<Word>) -> Result<(), AllocError>
    ensures { (text : Text) → field.now ≡ field_text text
        → OnOk result (texts.new.items ≡ texts.old.items ++ text ∷ []) }
{
    texts.push(read_field(alloc, field)?)?;
    Ok(())
}

// The fields between the tabs.
fn fields_of(alloc: Global, bytes: &[u8]) -> Result<Vec<&[u8]>, AllocError>
    ensures { IfOk result (λ v. map (λ field. field.now) v.items
        ≡ slice_split (λ byte. byte == tab) bytes.now) }
{
    bytes.split(|byte| *byte == b'\t').collect(alloc)
}

// The principal of this key, with no groups given.
fn principal_of_key(alloc: Global, key: &[u8]) -> Result<Principal, TokenFault>
    ensures { MatchResult result (λ who. (who_key who ≡ key.now) × HasName who)
        (RefusesIf (¬ IsWhoKey key.now)) }
{
    match key {
        [b'u', b':', name @ ..] => user_of(alloc, name),
        [b'g', b':', name @ ..] => member_of(alloc, name),
        _ => Err(TokenFault::NotCanonical),
    }
}

fn user_of(alloc: Global, name: &[u8]) -> Result<Principal, TokenFault>
    ensures { MatchResult result (λ who. (who ≡ AsUser name.now []) × HasName who)
        (RefusesIf (name.now ≡ [])) }
{
    let name = Word::from_slice(alloc, name)?;
    Ok(Principal::user(alloc, &name, &Words::new(alloc))?)
}

fn member_of(alloc: Global, name: &[u8]) -> Result<Principal, TokenFault>
    ensures { MatchResult result (λ who. (who ≡ AsMember name.now) × HasName who)
        (RefusesIf (name.now ≡ [])) }
{
    let name = Word::from_slice(alloc, name)?;
    Ok(Principal::group(alloc, &name)?)
}

// The target of these texts. A URL has no API group and no object name, so both texts are ignored.
fn target_of(alloc: Global, group: &Word, text: &Word, name: &Word) -> Result<Target, ModelFault>
    ensures whole { (t : What) → IsProper t → group.now ≡ group_of t → text.now ≡ text_of t
        → name.now ≡ name_of t
        → MatchResult result (λ read. read ≡ t) (λ e. e ≡ ModelFault.NoMemory) }
    ensures proper { IfOk result IsProper }
{
    let text = text.clone()?;
    if is_path(text.as_bytes()) {
        return Target::url(alloc, text);
    }
    Target::resource(group.clone()?, text, name.clone()?)
}
