//! Tokens of keys and marks, and the faults of texts that are no token.

use crate::requests::keys_of;
use crate::universes::Listed;
use crate::words::{built, check, is, is_of, word};
use rbac_terms::{Key, Word};
use rbac_token::{Mark, TokenFault, key_of_token, mark_of_token, token_of, token_of_mark};
use std::alloc::Global;
use std::process::Abort;

const PODS: Listed<'static> = Listed {
    users: &["alice"],
    groups: &[],
    namespaces: &[""],
    verbs: &["get", "hhh", "use"],
    resources: &[("", "pods", true)],
    names: &["", "-", "a\tb\\c"],
    urls: &[],
};

const A_GROUP: Listed<'static> = Listed {
    users: &["bob"],
    groups: &["a"],
    namespaces: &[""],
    verbs: &[""],
    resources: &[("", "x", true), ("", "xy", true)],
    names: &[""],
    urls: &[],
};

const A_URL: Listed<'static> = Listed {
    users: &["b"],
    groups: &[],
    namespaces: &[""],
    verbs: &["get"],
    resources: &[],
    names: &[],
    urls: &["/healthz/ÿÿ"],
};

// A universe, and the tokens of its requests, in order.
const TOKENS: &[(Listed<'static>, &[&str])] = &[
    (
        PODS,
        &[
            "MQl1OmFsaWNlCS0JZ2V0CS0JcG9kcwkt",
            "MQl1OmFsaWNlCS0JZ2V0CS0JcG9kcwlceDJk",
            "MQl1OmFsaWNlCS0JZ2V0CS0JcG9kcwlhXHgwOWJcXGM",
            "MQl1OmFsaWNlCS0JaGhoCS0JcG9kcwkt",
            "MQl1OmFsaWNlCS0JaGhoCS0JcG9kcwlceDJk",
            "MQl1OmFsaWNlCS0JaGhoCS0JcG9kcwlhXHgwOWJcXGM",
            "MQl1OmFsaWNlCS0JdXNlCS0JcG9kcwkt",
            "MQl1OmFsaWNlCS0JdXNlCS0JcG9kcwlceDJk",
            "MQl1OmFsaWNlCS0JdXNlCS0JcG9kcwlhXHgwOWJcXGM",
        ],
    ),
    (
        A_GROUP,
        &[
            "MQlnOmEJLQktCS0JeAkt",
            "MQlnOmEJLQktCS0JeHkJLQ",
            "MQl1OmJvYgktCS0JLQl4CS0",
            "MQl1OmJvYgktCS0JLQl4eQkt",
        ],
    ),
    (A_URL, &["MQl1OmIJLQlnZXQJLQkvaGVhbHRoei_Dv8O_CS0"]),
];

// Whether the key has this token, and the token this key.
fn has_token(rt: &impl Abort, alloc: Global, key: &Key, token: &str) -> bool {
    let got = built(rt, token_of(alloc, key));
    let back = built(rt, key_of_token(alloc, &got));
    got.as_bytes() == token.as_bytes() && back == *key
}

fn have_tokens(rt: &impl Abort, alloc: Global, keys: &[Key], tokens: &[&str]) {
    assert!(rt; keys.len() == tokens.len());
    for (key, token) in keys.iter().zip(tokens) {
        check(rt, token, has_token(rt, alloc, key, token));
    }
}

#[test]
fn a_key_has_one_token(rt: HostRuntime) {
    for (listed, tokens) in TOKENS {
        let alloc = rt.alloc();
        let keys = keys_of(&rt, alloc, listed);
        have_tokens(&rt, alloc, keys.as_slice(), tokens);
    }
}

const NO_TOKENS: &[(&str, TokenFault)] = &[
    ("M", TokenFault::NotBase64),
    ("MQ==", TokenFault::NotBase64),
    ("MR", TokenFault::NotBase64),
    ("MQl/", TokenFault::NotBase64),
    ("", TokenFault::BadVersion),
    ("OQ", TokenFault::BadVersion),
    ("Mgl1OmFsaWNlCS0JZ2V0CS0JcG9kcwkt", TokenFault::BadVersion),
    ("MTEJdTphbGljZQ", TokenFault::BadVersion),
    // The token of a mark with a binding.
    (
        "Mgl1OmFsaWNlCWRldglnZXQJLQlwb2RzCS0JQ2x1c3RlclJvbGVCaW5kaW5nCS0Jeg",
        TokenFault::BadVersion,
    ),
    ("MQ", TokenFault::NotCanonical),
    // A byte with an escape that needs none; an escape with digits in upper case; a backslash
    // alone.
    (
        "MQl1OmFsaWNlCS0JZ2V0CS0JcG9kcwlceDYx",
        TokenFault::NotCanonical,
    ),
    ("MQl1OmEJLQlnZXQJLQlwb2RzCVx4MEE", TokenFault::NotCanonical),
    ("MQl1OmEJLQlnZXQJLQlwb2RzCVw", TokenFault::NotCanonical),
    // A user without a name; neither a user nor a group; a URL in a namespace; no resource.
    ("MQl1OgktCWdldAktCXBvZHMJLQ", TokenFault::NotCanonical),
    ("MQl4OmEJLQlnZXQJLQlwb2RzCS0", TokenFault::NotCanonical),
    ("MQl1OmEJZGV2CWdldAktCS94CS0", TokenFault::NotCanonical),
    ("MQl1OmEJLQlnZXQJLQktCS0", TokenFault::NotCanonical),
    // An empty field; one field too few; one field too many.
    ("MQl1OmFsaWNlCS0JZ2V0CS0JcG9kcwk", TokenFault::NotCanonical),
    ("MQl1OmFsaWNlCS0JZ2V0CS0JcG9kcw", TokenFault::NotCanonical),
    (
        "MQl1OmFsaWNlCS0JZ2V0CS0JcG9kcwktCS0",
        TokenFault::NotCanonical,
    ),
];

#[test]
fn another_text_is_no_token(rt: HostRuntime) {
    for (text, fault) in NO_TOKENS {
        let alloc = rt.alloc();
        let got = key_of_token(alloc, &word(&rt, alloc, text)).err();
        check(&rt, text, got == Some(*fault));
    }
}

const FIRST_TOKEN: &str = "MQl1OmFsaWNlCS0JZ2V0CS0JcG9kcwkt";

// Whether a byte is one of the 64 that a token is made of.
fn is_digit(byte: u8) -> bool {
    byte.is_ascii_alphanumeric() || byte == b'-' || byte == b'_'
}

// Whether the answer is right for the first token with this byte at this place: K1 for a byte that
// no token has; K2 if the first three bytes no longer hold the version and its tab; otherwise the
// key whose token the text is, or K3.
fn is_right_at(rt: &impl Abort, alloc: Global, text: &Word, at: usize, byte: u8) -> bool {
    match key_of_token(alloc, text) {
        Err(TokenFault::NotBase64) => !is_digit(byte),
        Err(TokenFault::BadVersion) => is_digit(byte) && at < 3,
        Err(TokenFault::NotCanonical) => is_digit(byte) && 2 <= at,
        Err(TokenFault::NoMemory) => false,
        Ok(key) => 2 <= at && built(rt, token_of(alloc, &key)).as_bytes() == text.as_bytes(),
    }
}

// The first token with this byte at this place.
fn with_byte(rt: &impl Abort, alloc: Global, at: usize, byte: u8) -> Word {
    let mut text = Word::new(alloc);
    for (place, own) in FIRST_TOKEN.as_bytes().iter().enumerate() {
        built(rt, text.push(if place == at { byte } else { *own }));
    }
    text
}

#[test]
fn each_byte_of_a_token_counts(rt: HostRuntime) {
    let alloc = rt.alloc();
    for (at, own) in FIRST_TOKEN.as_bytes().iter().enumerate() {
        for byte in 0..=u8::MAX {
            let text = with_byte(&rt, alloc, at, byte);
            assert!(rt; byte == *own || is_right_at(&rt, alloc, &text, at, byte));
        }
    }
}

// Whether the answer is right for a proper prefix of a token: never a key. One byte more than a
// multiple of four is no base64, and neither are bits at the end that aren't zero. The version is
// complete from the first byte on.
fn refuses_prefix(alloc: Global, prefix: &Word) -> bool {
    let past_four = prefix.as_bytes().len() % 4;
    match key_of_token(alloc, prefix) {
        Err(TokenFault::NotBase64) => past_four != 0,
        Err(TokenFault::BadVersion) => prefix.is_empty(),
        Err(TokenFault::NotCanonical) => !prefix.is_empty() && past_four != 1,
        _ => false,
    }
}

#[test]
fn no_prefix_of_a_token_is_one(rt: HostRuntime) {
    let alloc = rt.alloc();
    for end in 0..FIRST_TOKEN.len() {
        let prefix = built(&rt, Word::from_slice(alloc, &FIRST_TOKEN.as_bytes()[..end]));
        assert!(rt; refuses_prefix(alloc, &prefix));
    }
}

// The tokens of marks of one key: without a binding, with the ClusterRoleBinding `z`, with the
// RoleBinding `a` of `dev`, and with a RoleBinding whose namespace and name are empty.
const OF_A_KEY: &str = "MQl1OmFsaWNlCWRldglnZXQJLQlwb2RzCS0";

const OF_Z: &str = "Mgl1OmFsaWNlCWRldglnZXQJLQlwb2RzCS0JQ2x1c3RlclJvbGVCaW5kaW5nCS0Jeg";

const OF_DEV_A: &str = "Mgl1OmFsaWNlCWRldglnZXQJLQlwb2RzCS0JUm9sZUJpbmRpbmcJZGV2CWE";

const OF_NO_TEXTS: &str = "Mgl1OmFsaWNlCWRldglnZXQJLQlwb2RzCS0JUm9sZUJpbmRpbmcJLQkt";

fn mark_of(rt: &impl Abort, alloc: Global, text: &str) -> Result<Mark, TokenFault> {
    mark_of_token(alloc, &word(rt, alloc, text))
}

// Whether the text is the token of its mark.
fn is_own_token(rt: &impl Abort, alloc: Global, text: &str) -> bool {
    let mark = built(rt, mark_of(rt, alloc, text));
    is(&built(rt, token_of_mark(alloc, &mark)), text)
}

const OF_MARKS: &[&str] = &[OF_A_KEY, OF_Z, OF_DEV_A, OF_NO_TEXTS];

#[test]
fn a_mark_has_one_token(rt: HostRuntime) {
    for text in OF_MARKS {
        check(&rt, text, is_own_token(&rt, rt.alloc(), text));
    }
}

// The namespace and the name of a binding, if there is one.
type Named<'a> = Option<(Option<&'a str>, &'a str)>;

const BINDINGS: &[(&str, Named<'static>)] = &[
    (OF_A_KEY, None),
    (OF_Z, Some((None, "z"))),
    (OF_DEV_A, Some((Some("dev"), "a"))),
    (OF_NO_TEXTS, Some((Some(""), ""))),
];

fn names(mark: &Mark, wanted: Named<'_>) -> bool {
    match (&mark.binding, wanted) {
        (Some(binding), Some((namespace, name))) => {
            is_of(binding.namespace.as_ref(), namespace) && is(&binding.name, name)
        }
        (None, None) => true,
        _ => false,
    }
}

// Whether the mark of this token has the wanted binding.
fn has_binding(rt: &impl Abort, alloc: Global, text: &str, wanted: Named<'_>) -> bool {
    names(&built(rt, mark_of(rt, alloc, text)), wanted)
}

#[test]
fn a_mark_names_its_binding(rt: HostRuntime) {
    for (text, wanted) in BINDINGS {
        check(&rt, text, has_binding(&rt, rt.alloc(), text, *wanted));
    }
}

const NO_MARKS: &[(&str, TokenFault)] = &[
    ("MQ==", TokenFault::NotBase64),
    ("", TokenFault::BadVersion),
    ("Mw", TokenFault::BadVersion),
    ("MQ", TokenFault::NotCanonical),
    ("Mg", TokenFault::NotCanonical),
    // Version 2 without a binding, and version 1 with one.
    (
        "Mgl1OmFsaWNlCWRldglnZXQJLQlwb2RzCS0",
        TokenFault::NotCanonical,
    ),
    (
        "MQl1OmFsaWNlCWRldglnZXQJLQlwb2RzCS0JQ2x1c3RlclJvbGVCaW5kaW5nCS0Jeg",
        TokenFault::NotCanonical,
    ),
    // A ClusterRoleBinding in a namespace, and another kind word.
    (
        "Mgl1OmFsaWNlCWRldglnZXQJLQlwb2RzCS0JQ2x1c3RlclJvbGVCaW5kaW5nCWRldgl6",
        TokenFault::NotCanonical,
    ),
    (
        "Mgl1OmFsaWNlCWRldglnZXQJLQlwb2RzCS0JUm9sZWJpbmRpbmcJZGV2CXo",
        TokenFault::NotCanonical,
    ),
];

#[test]
fn another_text_is_no_mark(rt: HostRuntime) {
    for (text, fault) in NO_MARKS {
        let got = mark_of(&rt, rt.alloc(), text).err();
        check(&rt, text, got == Some(*fault));
    }
}
