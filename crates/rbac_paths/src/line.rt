//! How a power is printed.

ghost use Rattle.std.specs.Prelude.{◌≡◌, ◌++◌, OnOk};
ghost use Rattle.rbac_paths.specs.Lines.{power_text};

use crate::power::Power;
use rbac_text::{put_choice_and_tab, put_field_and_tab, put_why};
use std::alloc::AllocError;

/// Adds the line of a power (own): eight fields, joined by tabs, with a newline at the end. The
/// fields are the step; who, as a key; where, as the namespace or `*`; the binding, its role, and
/// the role where the rule is written; and the places of the rule in that role and of the subject
/// in the binding, counted from 1. If it runs out of memory, a prefix of the line may have been
/// added.
pub fn put_power(line: &mut Vec<u8>, power: &Power<'_>) -> Result<(), AllocError>
    ensures { OnOk result (line.new.items ≡ line.old.items ++ power_text power.now) }
{
    let grant = power.grant;
    put_field_and_tab(line, power.step.word())?;
    put_field_and_tab(line, power.who.as_bytes())?;
    put_choice_and_tab(line, grant.binding.namespace.as_ref())?;
    put_why(
        line,
        grant.binding,
        grant.source,
        grant.place,
        power.subject_place,
    )
}
