//! Bindings with the same content under another name.

use crate::subjects::{put, subject_text};
use rbac_terms::{Binding, RoleRef, Subject};
use std::alloc::{AllocError, Global};
use std::collections::{BTreeMap, BTreeSet};

// Looks up a binding by its content, without its name. Of bindings with equal content, the last
// counts.
#[derive(Drop)]
pub(crate) struct Alike {
    places: BTreeMap<Vec<u8>, usize>,
}

impl Alike {
    // Lists the flagged bindings. `flags` has one flag for each binding, in order.
    pub(crate) fn of(
        alloc: Global,
        bindings: &[Binding],
        flags: &[bool],
    ) -> Result<Self, AllocError> {
        let mut places = BTreeMap::new(alloc);
        for (place, (binding, flagged)) in bindings.iter().zip(flags).enumerate() {
            if *flagged {
                places.insert(text_of(alloc, binding)?, place)?;
            }
        }
        Ok(Alike { places })
    }

    // The place of a listed binding with the same content as this one.
    pub(crate) fn place_of(
        &self,
        alloc: Global,
        binding: &Binding,
    ) -> Result<Option<usize>, AllocError> {
        let text = text_of(alloc, binding)?;
        Ok(self.places.get(&text).copied())
    }
}

// A binding's content without its name, as a text from which each part can be read back. The order
// of its subjects doesn't matter, nor do their repeats.
fn text_of(alloc: Global, binding: &Binding) -> Result<Vec<u8>, AllocError> {
    let mut text = Vec::new(alloc);
    if let Some(namespace) = &binding.namespace {
        put(&mut text, "namespace", namespace)?;
    }
    match &binding.role {
        RoleRef::Role(name) => put(&mut text, "role", name)?,
        RoleRef::ClusterRole(name) => put(&mut text, "cluster role", name)?,
    }
    put_subjects(alloc, &mut text, binding.subjects.as_slice())?;
    Ok(text)
}

// Adds the texts of the subjects, each once, in byte order.
fn put_subjects(alloc: Global, text: &mut Vec<u8>, subjects: &[Subject]) -> Result<(), AllocError> {
    let mut texts = BTreeSet::new(alloc);
    for subject in subjects {
        texts.insert(subject_text(alloc, subject)?)?;
    }
    for one in &texts {
        text.extend_from_slice(one.as_slice())?;
    }
    Ok(())
}
