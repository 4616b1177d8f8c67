//! Texts and lists of them, which the other tests are made of. Tests stop if they run out of memory
//! while building: with `?` each early return would drop everything built so far, and each drop
//! would be proved.

use rbac_terms::{Word, Words};
use std::alloc::Global;
use std::fmt::Debug;
use std::process::Abort;

// What was built. The test stops if it could not be.
pub(crate) fn built<T, E: Debug>(rt: &impl Abort, made: Result<T, E>) -> T {
    made.expect(rt, "built")
}

// Stops the test at this row unless it holds.
pub(crate) fn check(rt: &impl Abort, row: &str, holds: bool) {
    assert!(rt; holds, "{row}");
}

pub(crate) fn word(rt: &impl Abort, alloc: Global, text: &str) -> Word {
    built(rt, Word::from_slice(alloc, text.as_bytes()))
}

pub(crate) fn words(rt: &impl Abort, alloc: Global, texts: &[&str]) -> Words {
    let mut all = Words::new(alloc);
    for text in texts {
        built(rt, all.push(word(rt, alloc, text)));
    }
    all
}

// Whether this is the wanted text. Tests ask for a bool, since what an assertion prints is proved
// too.
pub(crate) fn is(word: &Word, wanted: &str) -> bool {
    word.as_bytes() == wanted.as_bytes()
}

// Whether this is the wanted text, or there is none and none is wanted.
pub(crate) fn is_of(word: Option<&Word>, wanted: Option<&str>) -> bool {
    match (word, wanted) {
        (Some(word), Some(wanted)) => is(word, wanted),
        (None, None) => true,
        _ => false,
    }
}
