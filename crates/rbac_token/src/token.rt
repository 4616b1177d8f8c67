//! Tokens of keys and of marks.

ghost use Rattle.std.specs.Prelude.{◌≡◌, ◌≢◌, ◌⊎◌, ◌↔◌, ◌∷◌, [], IsTrue, IfOk, IfErr, MatchResult};
ghost use Rattle.std.specs.Prelude.{None};
ghost use Rattle.base64.specs.Engines.{url_safe_no_pad};
ghost use Rattle.base64.specs.GeneralPurpose.{encode_of};
ghost use Rattle.rbac_terms.specs.Keys.{KeyTexts};
ghost use Rattle.rbac_token.specs.Faults.{IsMarkFault, IsTokenFault, RefusesIf};
ghost use Rattle.rbac_token.specs.Marks.{HasMarkVersion, IsMarkPrintedAs, IsTokenOfMark, mark_text};
ghost use Rattle.rbac_token.specs.Marks.{printed_mark};
ghost use Rattle.rbac_token.specs.Token.{Encodes, HasVersion, IsTokenOf, token_text};
ghost use Rattle.rbac_token.specs.declared.mark.Mark.{Mark};

use crate::fault::TokenFault;
use crate::mark::Mark;
use crate::print::print_mark;
use crate::read::read_mark;
use base64::DecodeAllocError;
use base64::engine::general_purpose::URL_SAFE_NO_PAD;
use rbac_terms::{Key, Word};
use std::alloc::{AllocError, Global};

/// The token of a key (own): unpadded URL-safe base64 of the version `1` and the key's six texts,
/// each printed as a field, joined by tabs. Fails only if it runs out of memory, with K4 NoMemory.
pub fn token_of(alloc: Global, key: &Key) -> Result<Word, TokenFault>
    ensures ok { IfOk result (λ token. token ≡ token_text key.now) }
    ensures only_memory { IfErr result (λ e. e ≡ TokenFault.NoMemory) }
{
    let printed = print_mark(alloc, key, None)?;
    Ok(encoded(alloc, printed.as_slice())?)
}

/// The token of a mark (own): that of its key if the mark has no binding. With a binding, the token
/// is unpadded URL-safe base64 of the version `2`, the key's six texts and the binding's kind word,
/// namespace and name, each printed as a field, joined by tabs; a ClusterRoleBinding has the empty
/// namespace. Fails only if it runs out of memory, with K4 NoMemory.
pub fn token_of_mark(alloc: Global, mark: &Mark) -> Result<Word, TokenFault>
    ensures ok { IfOk result (λ token. token ≡ mark_text mark.now) }
    ensures only_memory { IfErr result (λ e. e ≡ TokenFault.NoMemory) }
{
    let printed = print_mark(alloc, &mark.key, mark.binding.as_ref())?;
    Ok(encoded(alloc, printed.as_slice())?)
}

/// The key that has this token (own). K1 NotBase64 if the text isn't unpadded URL-safe base64, in
/// which each sequence of bytes has one spelling. Otherwise K2 BadVersion if the encoded bytes
/// before the first tab, or all bytes if there is no tab, aren't `1`. Otherwise K3 NotCanonical if
/// no key has this token. K4 NoMemory only if the call runs out of memory.
pub fn key_of_token(alloc: Global, token: &Word) -> Result<Key, TokenFault>
    ensures key { MatchResult result (IsTokenOf token.now) (IsTokenFault token.now) }
    ensures no_key { IfErr result (λ e. (e ≡ TokenFault.NoMemory)
        ⊎ ((k : KeyTexts) → ¬ IsTokenOf token.now k)) }
    ensures one { IfOk result (λ k. (other : KeyTexts) → IsTokenOf token.now other → other ≡ k) }
{
    let bytes = bytes_of(alloc, token)?;
    if !has_version(&bytes, b'1') {
        return Err(TokenFault::BadVersion);
    }
    Ok(mark_printed_as(alloc, &bytes)?.key)
}

/// The mark that has this token (own): a key, or a key and a binding's name. K1 NotBase64 as in
/// [`key_of_token`]. Otherwise K2 BadVersion if the encoded bytes before the first tab, or all
/// bytes if there is no tab, are neither `1` nor `2`. Otherwise K3 NotCanonical if no mark has this
/// token, for example with another kind word, or with a ClusterRoleBinding in a namespace. K4
/// NoMemory only if the call runs out of memory.
pub fn mark_of_token(alloc: Global, token: &Word) -> Result<Mark, TokenFault>
    ensures mark { MatchResult result (IsTokenOfMark token.now) (IsMarkFault token.now) }
    ensures no_mark { IfErr result (λ e. (e ≡ TokenFault.NoMemory)
        ⊎ ((m : Mark) → ¬ IsTokenOfMark token.now m)) }
    ensures one { IfOk result (λ m. (other : Mark) → IsTokenOfMark token.now other → other ≡ m) }
{
    let bytes = bytes_of(alloc, token)?;
    if !has_mark_version(&bytes) {
        return Err(TokenFault::BadVersion);
    }
    mark_printed_as(alloc, &bytes)
}

// The mark that is printed exactly as these bytes; refuses any other spelling.
fn mark_printed_as(alloc: Global, bytes: &[u8]) -> Result<Mark, TokenFault>
    ensures mark { MatchResult result (IsMarkPrintedAs bytes.now)
        (RefusesIf ((m : Mark) → ¬ IsMarkPrintedAs bytes.now m)) }
    ensures one { IfOk result (λ m. (other : Mark) → IsMarkPrintedAs bytes.now other → other ≡ m) }
{
    let mark = read_mark(alloc, bytes)?;
    check_spelling(alloc, &mark, bytes)?;
    Ok(mark)
}

// Refuses bytes that differ from the printed mark.
fn check_spelling(alloc: Global, mark: &Mark, bytes: &[u8]) -> Result<(), TokenFault>
    ensures { MatchResult result (λ _. bytes.now ≡ printed_mark mark.now.key mark.now.binding)
        (RefusesIf (bytes.now ≢ printed_mark mark.now.key mark.now.binding)) }
{
    let again = print_mark(alloc, &mark.key, mark.binding.as_ref())?;
    if again.as_slice() != bytes {
        return Err(TokenFault::NotCanonical);
    }
    Ok(())
}

// The token that encodes these bytes.
fn encoded(alloc: Global, bytes: &[u8]) -> Result<Word, AllocError>
    ensures { IfOk result (λ token. token ≡ encode_of url_safe_no_pad bytes.now) }
{
    let token = URL_SAFE_NO_PAD.encode(alloc, bytes)?;
    Word::from_slice(alloc, token.as_bytes())
}

// The bytes that a token encodes.
fn bytes_of(alloc: Global, token: &Word) -> Result<Vec<u8>, TokenFault>
    ensures key { MatchResult result (λ v. Encodes token.now v.items) (IsTokenFault token.now) }
    ensures mark { IfErr result (IsMarkFault token.now) }
{
    match URL_SAFE_NO_PAD.decode(alloc, token.as_bytes()) {
        Ok(bytes) => Ok(bytes),
        Err(DecodeAllocError::OutOfMemory) => Err(TokenFault::NoMemory),
        Err(DecodeAllocError::DecodeError(_)) => Err(TokenFault::NotBase64),
    }
}

fn has_mark_version(bytes: &[u8]) -> bool
    ensures { IsTrue result ↔ HasMarkVersion bytes.now }
{
    has_version(bytes, b'1') || has_version(bytes, b'2')
}

// Whether the bytes are this version alone, or begin with it and a tab.
fn has_version(bytes: &[u8], version: u8) -> bool
    ensures { IsTrue result ↔ HasVersion (version ∷ []) bytes.now }
{
    let alone = [version];
    let followed = [version, b'\t'];
    bytes == alone.as_slice() || bytes.starts_with(followed.as_slice())
}
