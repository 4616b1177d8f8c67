//! The command line, built anew for each parse.

ghost use Rattle.std.specs.Prelude.{◌≡◌, IfOk, IsOkAnd, Some, false, true};
ghost use Rattle.clap.specs.Words.{app_of, new_app, new_rule, rule_of, with_rule};
ghost use Rattle.clap.specs.Words.{with_subcommand};
ghost use Rattle.clap.specs.declared.builder.command.Command.TheViews.{out-Command as fields_of};
ghost use Rattle.rbac_command.specs.App.{after_rule, limit_rule, user_rule, some_files_rule};
ghost use Rattle.rbac_command.specs.App.{groups_rule, namespace_rule, all_rule, subresource_rule};
ghost use Rattle.rbac_command.specs.App.{quiet_rule, verb_rule, target_rule, files_rule, who_rule};
ghost use Rattle.rbac_command.specs.App.{group_rule, in_namespace_rule, only_rule, with_groups};
ghost use Rattle.rbac_command.specs.App.{with_scope, with_question, can_i_app, who_can_app};
ghost use Rattle.rbac_command.specs.App.{rules_app, matrix_app, universe_app, lint_app, bare_app};
ghost use Rattle.rbac_command.specs.App.{rbac_app, before_files_rule, after_files_rule, diff_app};
ghost use Rattle.rbac_command.specs.App.{powers_app, paths_app, steps_rule, to_rule, with_who};
ghost use Rattle.rbac_command.specs.App.{without_files_rule, with_files_rule, skip_system_rule};
ghost use Rattle.rbac_command.specs.App.{log_rule, unused_app, names_rule, name_rule, least_app};
ghost use Rattle.rbac_command.specs.App.{with_log_readers};
ghost use Rattle.rbac_command.specs.Flags.{flag_rule};

use crate::help::{
    ALL, CAN_I_MORE, DIFF_MORE, INDIRECT, LEAST_MORE, LEAST_WHO, LINT_MORE, MATRIX_MORE, MORE,
    NAMESPACE, PATHS_MORE, POWERS_MORE, RULES_ALL, RULES_MORE, RULES_NAMESPACE, STEPS,
    TO_NAMESPACE, UNIVERSE_MORE, UNUSED_MORE, UNUSED_SKIP_SYSTEM, WHO, WHO_CAN_MORE, WHO_CAN_STEPS,
    WHY, WHY_NOT,
};
use crate::holder_options::with_holder_options;
use crate::matrix_options::with_matrix_options;
use clap::{Arg, ArgAction, Command, value_parser};
use std::alloc::{AllocError, Global};

// What `--version` prints after the program's name.
const VERSION: &str = "0.1.0";

// A flag, named by its long form.
pub(crate) fn flag<'a>(alloc: Global, name: &'a str, help: &'a str) -> Arg<'a>
    ensures rule { rule_of result ≡ flag_rule name.entry.now }
    ensures local { result.global ≡ false }
{
    Arg::new(alloc, name)
        .long(name)
        .action(ArgAction::SetTrue)
        .help(help)
}

// An option with a value, named by its long form.
fn option<'a>(alloc: Global, name: &'a str, value: &'a str, help: &'a str) -> Arg<'a>
    ensures rule { rule_of result ≡ record (new_rule name.entry.now) {
      long = Some name.entry.now;
      value_names = 1;
    } }
    ensures local { result.global ≡ false }
{
    Arg::new(alloc, name)
        .long(name)
        .value_name(value)
        .help(help)
}

// A positional argument that must be given.
fn word<'a>(alloc: Global, name: &'a str, value: &'a str, help: &'a str) -> Arg<'a>
    ensures rule { rule_of result ≡ record (new_rule name.entry.now) {
      value_names = 1;
      required = true;
    } }
    ensures local { result.global ≡ false }
{
    Arg::new(alloc, name)
        .value_name(value)
        .required(true)
        .help(help)
}

// An option with one file or more, named by its long form.
fn files_option<'a>(alloc: Global, name: &'a str, help: &'a str) -> Arg<'a>
    ensures rule { rule_of result ≡ some_files_rule name.entry.now }
    ensures local { result.global ≡ false }
{
    option(alloc, name, "FILE", help)
        .num_args(1..)
        .action(ArgAction::Append)
}

fn user_arg<'a>(alloc: Global) -> Arg<'a>
    ensures rule { rule_of result ≡ user_rule }
    ensures local { result.global ≡ false }
{
    option(
        alloc,
        "as",
        "USER",
        "User to check, e.g. alice or system:serviceaccount:dev:ci",
    )
    .required(true)
}

fn groups_arg<'a>(alloc: Global) -> Arg<'a>
    ensures rule { rule_of result ≡ groups_rule }
    ensures local { result.global ≡ false }
{
    option(
        alloc,
        "groups",
        "A,B",
        "Groups of the user, besides those that Kubernetes adds, e.g. dev,ops (default: none)",
    )
}

fn group_arg<'a>(alloc: Global) -> Arg<'a>
    ensures rule { rule_of result ≡ group_rule }
    ensures local { result.global ≡ false }
{
    option(
        alloc,
        "group",
        "G",
        "One more group, whose name may have commas; may be repeated (default: none)",
    )
    .action(ArgAction::Append)
}

fn namespace_arg<'a>(alloc: Global, help: &'a str) -> Arg<'a>
    ensures rule { rule_of result ≡ namespace_rule }
    ensures local { result.global ≡ false }
{
    option(alloc, "namespace", "NS", help).short('n')
}

fn all_arg<'a>(alloc: Global, help: &'a str) -> Arg<'a>
    ensures rule { rule_of result ≡ all_rule }
    ensures local { result.global ≡ false }
{
    Arg::new(alloc, "all")
        .short('A')
        .long("all-namespaces")
        .action(ArgAction::SetTrue)
        .help(help)
}

fn in_namespace_arg<'a>(alloc: Global) -> Arg<'a>
    ensures rule { rule_of result ≡ in_namespace_rule }
    ensures local { result.global ≡ false }
{
    flag(
        alloc,
        "in-namespace",
        "Ask in the namespace also about a cluster-scoped type, as servers do for a Namespace",
    )
}

fn subresource_arg<'a>(alloc: Global) -> Arg<'a>
    ensures rule { rule_of result ≡ subresource_rule }
    ensures local { result.global ≡ false }
{
    option(
        alloc,
        "subresource",
        "S",
        "Subresource to check, e.g. log for the logs of pods (default: none); a URL has none",
    )
}

fn quiet_arg<'a>(alloc: Global) -> Arg<'a>
    ensures rule { rule_of result ≡ quiet_rule }
    ensures local { result.global ≡ false }
{
    flag(
        alloc,
        "quiet",
        "Print nothing: the exit status is the answer",
    )
    .short('q')
}

fn who_arg<'a>(alloc: Global, help: &'a str) -> Arg<'a>
    ensures rule { rule_of result ≡ who_rule }
    ensures local { result.global ≡ false }
{
    word(alloc, "who", "WHO", help)
}

fn verb_arg<'a>(alloc: Global) -> Arg<'a>
    ensures rule { rule_of result ≡ verb_rule }
    ensures local { result.global ≡ false }
{
    word(
        alloc,
        "verb",
        "VERB",
        "Verb to check, e.g. get, list or delete",
    )
}

fn target_arg<'a>(alloc: Global) -> Arg<'a>
    ensures rule { rule_of result ≡ target_rule }
    ensures local { result.global ≡ false }
{
    word(
        alloc,
        "target",
        "TARGET",
        "TYPE, TYPE/NAME or a URL path, e.g. pods, deployments.apps/web or /healthz",
    )
}

fn after_arg<'a>(alloc: Global) -> Arg<'a>
    ensures rule { rule_of result ≡ after_rule }
    ensures local { result.global ≡ false }
{
    option(
        alloc,
        "after",
        "TOKEN",
        "List only the rows after this TOKEN of a next line (default: from the first)",
    )
}

fn limit_arg<'a>(alloc: Global) -> Arg<'a>
    ensures rule { rule_of result ≡ limit_rule }
    ensures local { result.global ≡ false }
{
    option(
        alloc,
        "limit",
        "N",
        "List at most N rows, 1 to 1000000 (default: all)",
    )
    .value_parser(value_parser!(u32).range(1..=1_000_000))
}

fn only_arg<'a>(alloc: Global) -> Arg<'a>
    ensures rule { rule_of result ≡ only_rule }
    ensures local { result.global ≡ false }
{
    option(
        alloc,
        "only",
        "CODES",
        "List only findings of these codes, e.g. L1,L6 (default: all)",
    )
}

fn steps_arg<'a>(alloc: Global, help: &'a str) -> Arg<'a>
    ensures rule { rule_of result ≡ steps_rule }
    ensures local { result.global ≡ false }
{
    option(alloc, "steps", "STEPS", help)
}

fn to_arg<'a>(alloc: Global) -> Arg<'a>
    ensures rule { rule_of result ≡ to_rule }
    ensures local { result.global ≡ false }
{
    option(
        alloc,
        "to",
        "TO",
        "List only the path to TO, as the second field of a line has it, e.g. u:bob or ClusterRole/edit",
    )
}

fn skip_system_arg<'a>(alloc: Global) -> Arg<'a>
    ensures rule { rule_of result ≡ skip_system_rule }
    ensures local { result.global ≡ false }
{
    flag(
        alloc,
        "skip-system",
        "Leave out built-in objects: system:*, cluster roles admin, edit, view and cluster-admin",
    )
}

fn log_arg<'a>(alloc: Global) -> Arg<'a>
    ensures rule { rule_of result ≡ log_rule }
    ensures local { result.global ≡ false }
{
    option(
        alloc,
        "log",
        "LOG",
        "Audit log of the API server, JSON lines; - is standard input; may be repeated",
    )
    .required(true)
    .action(ArgAction::Append)
}

fn names_arg<'a>(alloc: Global) -> Arg<'a>
    ensures rule { rule_of result ≡ names_rule }
    ensures local { result.global ≡ false }
{
    flag(
        alloc,
        "names",
        "Allow only the object names that WHO asked for (default: rules allow any name)",
    )
}

fn name_arg<'a>(alloc: Global) -> Arg<'a>
    ensures rule { rule_of result ≡ name_rule }
    ensures local { result.global ≡ false }
{
    option(
        alloc,
        "name",
        "NAME",
        "Name of the roles and bindings (default: least)",
    )
}

fn files_arg<'a>(alloc: Global) -> Arg<'a>
    ensures rule { rule_of result ≡ files_rule }
    ensures local { result.global ≡ false }
{
    Arg::new(alloc, "files")
        .value_name("FILE")
        .action(ArgAction::Append)
        .help("JSON of kubectl get -o json or --raw, or a Universe (default: standard input)")
}

fn before_files_arg<'a>(alloc: Global) -> Arg<'a>
    ensures rule { rule_of result ≡ before_files_rule }
    ensures local { result.global ≡ false }
{
    files_option(
        alloc,
        "before",
        "JSON of kubectl get -o json or --raw as it was before the change, one file or more",
    )
    .required(true)
}

fn after_files_arg<'a>(alloc: Global) -> Arg<'a>
    ensures rule { rule_of result ≡ after_files_rule }
    ensures local { result.global ≡ false }
{
    files_option(
        alloc,
        "after",
        "JSON of kubectl get -o json or --raw as it is after the change, one file or more",
    )
}

fn without_files_arg<'a>(alloc: Global) -> Arg<'a>
    ensures rule { rule_of result ≡ without_files_rule }
    ensures local { result.global ≡ false }
{
    files_option(
        alloc,
        "without",
        "JSON of objects that the change deletes from those of --before, one file or more",
    )
}

fn with_files_arg<'a>(alloc: Global) -> Arg<'a>
    ensures rule { rule_of result ≡ with_files_rule }
    ensures local { result.global ≡ false }
{
    files_option(
        alloc,
        "with",
        "JSON of objects that the change adds or replaces, one file or more",
    )
}

// A command, or out of memory.
pub(crate) type Built<'a> = Result<Command<'a>, AllocError>;

// Adds an argument that isn't global.
pub(crate) fn with<'a>(command: Built<'a>, arg: Arg<'a>) -> Built<'a>
    requires arg { arg.global ≡ false }
    requires alone { IfOk command (λ c. (fields_of c).has_globals ≡ false) }
    ensures app { IfOk result (λ r. IsOkAnd command.entry (λ c.
        app_of r ≡ with_rule (app_of c) (rule_of arg.entry))) }
    ensures local { IfOk result (λ r. (fields_of r).has_globals ≡ false) }
{
    command?.arg(arg)
}

fn with_scope<'a>(alloc: Global, command: Built<'a>) -> Built<'a>
    requires { IfOk command (λ c. (fields_of c).has_globals ≡ false) }
    ensures app { IfOk result (λ r. IsOkAnd command.entry (λ c. app_of r ≡ with_scope (app_of c))) }
    ensures local { IfOk result (λ r. (fields_of r).has_globals ≡ false) }
{
    let command = with(command, namespace_arg(alloc, NAMESPACE));
    let command = with(command, all_arg(alloc, ALL));
    let command = with(command, in_namespace_arg(alloc));
    with(command, subresource_arg(alloc))
}

fn with_groups<'a>(alloc: Global, command: Built<'a>) -> Built<'a>
    requires { IfOk command (λ c. (fields_of c).has_globals ≡ false) }
    ensures app { IfOk result (λ r. IsOkAnd command.entry (λ c.
        app_of r ≡ with_groups (app_of c))) }
    ensures local { IfOk result (λ r. (fields_of r).has_globals ≡ false) }
{
    let command = with(command, groups_arg(alloc));
    with(command, group_arg(alloc))
}

fn with_question<'a>(alloc: Global, command: Built<'a>) -> Built<'a>
    requires { IfOk command (λ c. (fields_of c).has_globals ≡ false) }
    ensures app { IfOk result (λ r. IsOkAnd command.entry (λ c.
        app_of r ≡ with_question (app_of c))) }
    ensures local { IfOk result (λ r. (fields_of r).has_globals ≡ false) }
{
    let command = with(command, verb_arg(alloc));
    let command = with(command, target_arg(alloc));
    with(command, files_arg(alloc))
}

fn with_who<'a>(alloc: Global, command: Built<'a>, help: &'a str) -> Built<'a>
    requires { IfOk command (λ c. (fields_of c).has_globals ≡ false) }
    ensures app { IfOk result (λ r. IsOkAnd command.entry (λ c. app_of r ≡ with_who (app_of c))) }
    ensures local { IfOk result (λ r. (fields_of r).has_globals ≡ false) }
{
    let command = with(command, who_arg(alloc, help));
    with(command, files_arg(alloc))
}

// A command with this name and no arguments, whose help ends with `more`.
fn named<'a>(alloc: Global, name: &'a str, about: &'a str, more: &'a str) -> Command<'a>
    ensures app { app_of result ≡ new_app name.entry.now }
    ensures local { (fields_of result).has_globals ≡ false }
{
    Command::new(alloc, name).about(about).after_help(more)
}

fn can_i<'a>(alloc: Global) -> Built<'a>
    ensures app { IfOk result (λ r. app_of r ≡ can_i_app) }
    ensures local { IfOk result (λ r. (fields_of r).has_globals ≡ false) }
{
    let command = named(
        alloc,
        "can-i",
        "Check whether USER may VERB TARGET: yes (exit status 0) or no (1); 2 is an error",
        CAN_I_MORE,
    );
    let command = with(Ok(command), user_arg(alloc));
    let command = with_groups(alloc, command);
    let command = with_scope(alloc, command);
    let command = with(command, quiet_arg(alloc));
    let command = with(command, flag(alloc, "why", WHY));
    let command = with(command, flag(alloc, "why-not", WHY_NOT));
    with_question(alloc, command)
}

fn who_can<'a>(alloc: Global) -> Built<'a>
    ensures app { IfOk result (λ r. app_of r ≡ who_can_app) }
    ensures local { IfOk result (λ r. (fields_of r).has_globals ≡ false) }
{
    let command = named(
        alloc,
        "who-can",
        "List who may VERB TARGET: each u:USER or g:GROUP, and the first binding that grants it",
        WHO_CAN_MORE,
    );
    let command = with_scope(alloc, Ok(command));
    let command = with_holder_options(alloc, command);
    let command = with(command, flag(alloc, "indirect", INDIRECT));
    let command = with(command, steps_arg(alloc, WHO_CAN_STEPS));
    with_question(alloc, command)
}

fn rules<'a>(alloc: Global) -> Built<'a>
    ensures app { IfOk result (λ r. app_of r ≡ rules_app) }
    ensures local { IfOk result (λ r. (fields_of r).has_globals ≡ false) }
{
    let command = named(
        alloc,
        "rules",
        "List the rules that WHO has: a line for each, with the binding that grants it",
        RULES_MORE,
    );
    let command = with_groups(alloc, Ok(command));
    let command = with(command, namespace_arg(alloc, RULES_NAMESPACE));
    let command = with(command, all_arg(alloc, RULES_ALL));
    with_who(alloc, command, WHO)
}

fn matrix<'a>(alloc: Global) -> Built<'a>
    ensures app { IfOk result (λ r. app_of r ≡ matrix_app) }
    ensures local { IfOk result (λ r. (fields_of r).has_globals ≡ false) }
{
    let command = named(
        alloc,
        "matrix",
        "List everything that anyone may do: a line for each request that is allowed, then end",
        MATRIX_MORE,
    );
    let command = with_matrix_options(alloc, Ok(command));
    let command = with(command, after_arg(alloc));
    let command = with(command, limit_arg(alloc));
    with(command, files_arg(alloc))
}

fn universe<'a>(alloc: Global) -> Built<'a>
    ensures app { IfOk result (λ r. app_of r ≡ universe_app) }
    ensures local { IfOk result (λ r. (fields_of r).has_globals ≡ false) }
{
    let command = named(
        alloc,
        "universe",
        "Print the Universe that matrix makes of the files, as JSON to edit and pass to matrix",
        UNIVERSE_MORE,
    );
    with(Ok(command), files_arg(alloc))
}

fn lint<'a>(alloc: Global) -> Built<'a>
    ensures app { IfOk result (λ r. app_of r ≡ lint_app) }
    ensures local { IfOk result (λ r. (fields_of r).has_globals ≡ false) }
{
    let command = named(
        alloc,
        "lint",
        "List what looks wrong with roles, bindings and other objects: status 1 if something does",
        LINT_MORE,
    );
    let command = with(Ok(command), only_arg(alloc));
    let command = with(command, skip_system_arg(alloc));
    with(command, files_arg(alloc))
}

fn powers<'a>(alloc: Global) -> Built<'a>
    ensures app { IfOk result (λ r. app_of r ≡ powers_app) }
    ensures local { IfOk result (λ r. (fields_of r).has_globals ≡ false) }
{
    let command = named(
        alloc,
        "powers",
        "List who can act as others or gain permissions: a line for each step, with its binding",
        POWERS_MORE,
    );
    with(Ok(command), files_arg(alloc))
}

fn paths<'a>(alloc: Global) -> Built<'a>
    ensures app { IfOk result (λ r. app_of r ≡ paths_app) }
    ensures local { IfOk result (λ r. (fields_of r).has_globals ≡ false) }
{
    let command = named(
        alloc,
        "paths",
        "List whom and what WHO can take over, step by step: users, groups, roles and everything",
        PATHS_MORE,
    );
    let command = with_groups(alloc, Ok(command));
    let command = with(command, steps_arg(alloc, STEPS));
    let command = with(command, to_arg(alloc));
    let command = with(command, namespace_arg(alloc, TO_NAMESPACE));
    with_who(alloc, command, WHO)
}

fn diff<'a>(alloc: Global) -> Built<'a>
    ensures app { IfOk result (λ r. app_of r ≡ diff_app) }
    ensures local { IfOk result (λ r. (fields_of r).has_globals ≡ false) }
{
    let command = named(
        alloc,
        "diff",
        "List the permissions that a change gives or takes away: status 1 if there are any, else 0",
        DIFF_MORE,
    );
    let command = with(Ok(command), before_files_arg(alloc));
    let command = with(command, after_files_arg(alloc));
    let command = with(command, without_files_arg(alloc));
    with(command, with_files_arg(alloc))
}

// Adds a subcommand with no global argument, if it could be built.
fn with_sub<'a>(command: Command<'a>, sub: Built<'a>) -> Built<'a>
    requires sub { IfOk sub (λ s. (fields_of s).has_globals ≡ false) }
    ensures app { IfOk result (λ r. IsOkAnd sub.entry (λ s.
        app_of r ≡ with_subcommand (app_of command.entry) (app_of s).top)) }
{
    command.subcommand(sub?)
}

// A command with this name that reads logs, and no other arguments.
fn with_logs<'a>(alloc: Global, name: &'a str, about: &'a str, more: &'a str) -> Built<'a>
    ensures app { IfOk result (λ r. app_of r ≡ with_rule (new_app name.entry.now) log_rule) }
    ensures local { IfOk result (λ r. (fields_of r).has_globals ≡ false) }
{
    let command = named(alloc, name, about, more);
    with(Ok(command), log_arg(alloc))
}

fn unused<'a>(alloc: Global) -> Built<'a>
    ensures app { IfOk result (λ r. app_of r ≡ unused_app) }
    ensures local { IfOk result (λ r. (fields_of r).has_globals ≡ false) }
{
    let command = with_logs(
        alloc,
        "unused",
        "List what no request of audit logs used, so that it can go: status 1 if there is anything",
        UNUSED_MORE,
    );
    let command = with(command, flag(alloc, "skip-system", UNUSED_SKIP_SYSTEM));
    with(command, files_arg(alloc))
}

fn least<'a>(alloc: Global) -> Built<'a>
    ensures app { IfOk result (λ r. app_of r ≡ least_app) }
    ensures local { IfOk result (λ r. (fields_of r).has_globals ≡ false) }
{
    let command = with_logs(
        alloc,
        "least",
        "Print the least roles and bindings that let WHO do what WHO did by audit logs, as JSON",
        LEAST_MORE,
    );
    let command = with(command, names_arg(alloc));
    let command = with(command, name_arg(alloc));
    with_who(alloc, command, LEAST_WHO)
}

// The program, without its subcommands. Usage texts call it `rbacaudit`, whatever the first word
// is.
fn bare<'a>(alloc: Global) -> Built<'a>
    ensures { IfOk result (λ r. app_of r ≡ bare_app) }
{
    named(
        alloc,
        "rbacaudit",
        "Answer questions about Kubernetes RBAC from files that kubectl wrote, without a cluster",
        MORE,
    )
    .version(VERSION)
    .subcommand_required(true)
    .disable_help_subcommand(true)
    .bin_name("rbacaudit")
}

// The program with the subcommands that ask what somebody may do.
fn asking<'a>(alloc: Global) -> Built<'a>
    ensures { IfOk result (λ r. app_of r ≡ with_subcommand (with_subcommand
        (with_subcommand bare_app can_i_app.top) who_can_app.top) rules_app.top) }
{
    let command = bare(alloc)?;
    let command = with_sub(command, can_i(alloc))?;
    let command = with_sub(command, who_can(alloc))?;
    with_sub(command, rules(alloc))
}

// Adds the subcommands that read logs.
fn with_log_readers<'a>(alloc: Global, command: Command<'a>) -> Built<'a>
    ensures { IfOk result (λ r. app_of r ≡ with_log_readers (app_of command.entry)) }
{
    let command = with_sub(command, unused(alloc))?;
    with_sub(command, least(alloc))
}

/// The whole command line: `rbacaudit` with its subcommands.
#[tactic(auto, unfolding(crate::specs::App::rbac_app))]
pub(crate) fn program<'a>(alloc: Global) -> Result<Command<'a>, AllocError>
    ensures { IfOk result (λ r. app_of r ≡ rbac_app) }
{
    let command = asking(alloc)?;
    let command = with_sub(command, matrix(alloc))?;
    let command = with_sub(command, universe(alloc))?;
    let command = with_sub(command, lint(alloc))?;
    let command = with_sub(command, powers(alloc))?;
    let command = with_sub(command, paths(alloc))?;
    let command = with_sub(command, diff(alloc))?;
    with_log_readers(alloc, command)
}
