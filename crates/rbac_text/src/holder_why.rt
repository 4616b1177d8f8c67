//! Lines of the holders of a permission, with the reason.

ghost use Rattle.std.specs.Prelude.{◌≡◌, ◌++◌, OnOk};
ghost use Rattle.rbac_model.specs.Sources.{source_of};
ghost use Rattle.rbac_text.specs.Why.{holder_why_text};

use crate::row::put_field_and_tab;
use crate::why::put_why;
use rbac_model::SourceRole;
use rbac_terms::{Binding, Word};
use std::alloc::AllocError;

/// Adds the line of a holder with the reason (own): its key, and the fields of `put_why`, joined by
/// tabs, with a newline at the end. If it runs out of memory, a prefix of the line may have been
/// added.
pub fn put_holder_why(
    line: &mut Vec<u8>,
    key: &Word,
    binding: &Binding,
    source: SourceRole<'_>,
    rule_place: usize,
    subject_place: usize,
) -> Result<(), AllocError>
    ensures { OnOk result (line.new.items
        ≡ line.old.items
        ++ holder_why_text
        key.now binding.now (source_of source.entry) rule_place subject_place) }
{
    put_field_and_tab(line, key.as_bytes())?;
    put_why(line, binding, source, rule_place, subject_place)
}
