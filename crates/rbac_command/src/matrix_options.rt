//! The options of `matrix` that choose which rows are listed.

ghost use Rattle.std.specs.Prelude.{◌≡◌, IfOk, IsOkAnd, false};
ghost use Rattle.clap.specs.Words.{app_of, found_of, rows_of};
ghost use Rattle.clap.specs.declared.builder.command.Command.TheViews.{out-Command as fields_of};
ghost use Rattle.rbac_command.specs.MatrixOptions.{matrix_options_in, with_matrix_options};

use crate::build::{Built, flag, with};
use crate::read::flag_of;
use clap::ArgMatches;
use rbac_question::MatrixOptions;
use std::alloc::Global;

const EVERY: &str = "List a row for every binding that grants a request, not only for the first";

const ONCE: &str =
    "Leave out rows with a namespace and a ClusterRoleBinding: these hold in the whole cluster";

// Adds these options.
pub(crate) fn with_matrix_options<'a>(alloc: Global, command: Built<'a>) -> Built<'a>
    requires { IfOk command (λ c. (fields_of c).has_globals ≡ false) }
    ensures app { IfOk result (λ r. IsOkAnd command.entry (λ c.
        app_of r ≡ with_matrix_options (app_of c))) }
    ensures local { IfOk result (λ r. (fields_of r).has_globals ≡ false) }
{
    let command = with(command, flag(alloc, "every", EVERY));
    with(command, flag(alloc, "once", ONCE))
}

// Which of these options are given.
pub(crate) fn matrix_options_of(matches: &ArgMatches<'_>) -> MatrixOptions
    ensures { result ≡ matrix_options_in (rows_of (found_of matches.now)) }
{
    MatrixOptions {
        every: flag_of(matches, "every"),
        once: flag_of(matches, "once"),
    }
}
