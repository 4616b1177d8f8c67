//! The options of `who-can` that choose which holders are listed, and what a line contains.

ghost use Rattle.std.specs.Prelude.{◌≡◌, IfOk, IsOkAnd, false};
ghost use Rattle.clap.specs.Words.{app_of, found_of, rows_of};
ghost use Rattle.clap.specs.declared.builder.command.Command.TheViews.{out-Command as fields_of};
ghost use Rattle.rbac_command.specs.HolderOptions.{holder_options_in, with_holder_options};

use crate::build::{Built, flag, with};
use crate::read::flag_of;
use clap::ArgMatches;
use rbac_question::HolderOptions;
use std::alloc::Global;

const ANYWHERE: &str =
    "Count the RoleBindings of all namespaces, not only those of -n; -A overrides this";

const ANY_NAME: &str = "Count rules limited to object names too, and ignore a NAME in TARGET";

const EVERY: &str = "List each holder with every binding that grants it, not only the first";

const MEMBERS: &str = "List also the users whom Group documents put into these groups";

const WHY: &str = "After the binding, print why: its ROLE, the SOURCE role, its RULE, the SUBJECT";

// Adds these options.
pub(crate) fn with_holder_options<'a>(alloc: Global, command: Built<'a>) -> Built<'a>
    requires { IfOk command (λ c. (fields_of c).has_globals ≡ false) }
    ensures app { IfOk result (λ r. IsOkAnd command.entry (λ c.
        app_of r ≡ with_holder_options (app_of c))) }
    ensures local { IfOk result (λ r. (fields_of r).has_globals ≡ false) }
{
    let command = with(command, flag(alloc, "anywhere", ANYWHERE));
    let command = with(command, flag(alloc, "any-name", ANY_NAME));
    let command = with(command, flag(alloc, "every", EVERY));
    let command = with(command, flag(alloc, "members", MEMBERS));
    with(command, flag(alloc, "why", WHY))
}

// Which of these options are given.
pub(crate) fn holder_options_of(matches: &ArgMatches<'_>) -> HolderOptions
    ensures { result ≡ holder_options_in (rows_of (found_of matches.now)) }
{
    HolderOptions {
        why: flag_of(matches, "why"),
        every: flag_of(matches, "every"),
        anywhere: flag_of(matches, "anywhere"),
        any_name: flag_of(matches, "any-name"),
        members: flag_of(matches, "members"),
    }
}
