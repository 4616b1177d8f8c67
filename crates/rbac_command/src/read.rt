//! How the words of a command line become a command.

ghost use Rattle.std.specs.Prelude.{◌≡◌, ◌++◌, [], Some, None, IfOk, OnOk, IfErr, MatchResult};
ghost use Rattle.std.specs.Prelude.{map, length};
ghost use Rattle.std.specs.Prelude.{string_bytes, codes, true, false, option_map};
ghost use Rattle.std.specs.Option.{option_map_or};
ghost use Rattle.clap.specs.Words.{found_of, all_of, rows_of, first_of, subcommand_rows_of};
ghost use Rattle.clap.specs.Words.{subcommand_of, fault_of};
ghost use Rattle.rbac_command.specs.App.{rbac_app};
ghost use Rattle.rbac_command.specs.MatrixOptions.{matrix_options_in};
ghost use Rattle.rbac_command.specs.Meaning.{IsNumberAt, files_in, diff_files_in, question_in};
ghost use Rattle.rbac_command.specs.Meaning.{parts_in, is_known, DoesAction, RefusesAction, Means};
ghost use Rattle.rbac_command.specs.Meaning.{IsCauseOf, IsUsageFault, IsAnswer, verdict_options_in, who_can_in};
ghost use Rattle.rbac_command.specs.Meaning.{who_in, rules_line_in, paths_line_in};
ghost use Rattle.rbac_command.specs.Meaning.{lint_in, diff_in, has_logs, logs_in, unused_in};
ghost use Rattle.rbac_command.specs.Meaning.{least_in};
ghost use Rattle.rbac_command.specs.Values.{value_at, has_flag, texts_at};

use crate::build::program;
use crate::fault::UsageFault;
use crate::holder_options::holder_options_of;
use crate::matrix_options::matrix_options_of;
use clap::ArgMatches;
use clap::error::ErrorKind;
use rbac_question::{
    Action, CanILine, Command, DiffLine, LeastLine, LintLine, MatrixLine, PathsLine, QuestionFault,
    QuestionLine, RulesLine, UnusedLine, VerdictOptions, WhoCanLine, WhoLine,
};
use std::alloc::{AllocError, Global};

// The first value of `id`, stated in terms of a parse's rows.
fn value_of<'a>(matches: &ArgMatches<'a>, id: &str) -> Option<&'a str>
    ensures { option_map (λ s. s.now) result ≡ first_of id.now (rows_of (found_of matches.now)) }
{
    matches.get_str(id)
}

// All values of `id`, stated in terms of a parse's rows.
fn values_of<'m, 'a>(matches: &'m ArgMatches<'a>, id: &str) -> Option<&'m [&'a str]>
    ensures { option_map (λ s. map (λ v. v.now) s.now) result
        ≡ all_of id.now (rows_of (found_of matches.now)) }
{
    matches.get_raw(id)
}

// The first value of `id`, or the empty text.
fn text_of<'a>(matches: &ArgMatches<'a>, id: &str) -> &'a str
    ensures { result.now ≡ value_at id.now (rows_of (found_of matches.now)) }
{
    value_of(matches, id).unwrap_or("")
}

pub(crate) fn flag_of(matches: &ArgMatches<'_>, id: &str) -> bool
    ensures { result ≡ has_flag id.now (rows_of (found_of matches.now)) }
{
    text_of(matches, id) == "true"
}

// The parts that ask a question.
fn question_of<'a>(matches: &ArgMatches<'a>) -> QuestionLine<'a>
    ensures { result ≡ question_in (rows_of (found_of matches.now)) }
{
    QuestionLine {
        all_namespaces: flag_of(matches, "all"),
        in_namespace: flag_of(matches, "in-namespace"),
        namespace: text_of(matches, "namespace"),
        subresource: text_of(matches, "subresource"),
        verb: text_of(matches, "verb"),
        target: text_of(matches, "target"),
    }
}

// What a `can-i` line says of its answer.
fn verdict_options_of(matches: &ArgMatches<'_>) -> VerdictOptions
    ensures { result ≡ verdict_options_in (rows_of (found_of matches.now)) }
{
    VerdictOptions {
        quiet: flag_of(matches, "quiet"),
        why: flag_of(matches, "why"),
        why_not: flag_of(matches, "why-not"),
    }
}

// The parts of a `can-i` line.
fn line_of<'m, 'a>(matches: &'m ArgMatches<'a>) -> CanILine<'m, 'a>
    ensures { result ≡ parts_in (rows_of (found_of matches.now)) }
{
    CanILine {
        user: text_of(matches, "as"),
        groups: text_of(matches, "groups"),
        whole_groups: values_of(matches, "group"),
        options: verdict_options_of(matches),
        question: question_of(matches),
    }
}

// The parts of a `who-can` line.
fn who_can_line_of<'a>(matches: &ArgMatches<'a>) -> WhoCanLine<'a>
    ensures { result ≡ who_can_in (rows_of (found_of matches.now)) }
{
    let steps = value_of(matches, "steps");
    WhoCanLine {
        indirect: flag_of(matches, "indirect"),
        steps,
        options: holder_options_of(matches),
        question: question_of(matches),
    }
}

// The parts of a line that name a principal.
fn who_line_of<'m, 'a>(matches: &'m ArgMatches<'a>) -> WhoLine<'m, 'a>
    ensures { result ≡ who_in (rows_of (found_of matches.now)) }
{
    let key = text_of(matches, "who");
    let groups = text_of(matches, "groups");
    let whole_groups = values_of(matches, "group");
    WhoLine {
        key,
        groups,
        whole_groups,
    }
}

// The parts of a `rules` line.
fn rules_line_of<'m, 'a>(matches: &'m ArgMatches<'a>) -> RulesLine<'m, 'a>
    ensures { result ≡ rules_line_in (rows_of (found_of matches.now)) }
{
    let who = who_line_of(matches);
    let namespace = text_of(matches, "namespace");
    let all_namespaces = flag_of(matches, "all");
    RulesLine {
        who,
        namespace,
        all_namespaces,
    }
}

// The parts of a `paths` line.
fn paths_line_of<'m, 'a>(matches: &'m ArgMatches<'a>) -> PathsLine<'m, 'a>
    ensures { result ≡ paths_line_in (rows_of (found_of matches.now)) }
{
    let place = text_of(matches, "namespace");
    PathsLine {
        who: who_line_of(matches),
        steps: value_of(matches, "steps"),
        to: value_of(matches, "to"),
        namespace: place,
    }
}

// The number that the text under `id` reads as.
fn number_of(matches: &ArgMatches<'_>, id: &str) -> Option<u32>
    ensures { IsNumberAt id.now (rows_of (found_of matches.now)) result }
{
    matches.get_one::<u32>(id)
}

// The parts of a `matrix` line.
fn matrix_line_of<'a>(matches: &ArgMatches<'a>) -> MatrixLine<'a>
    ensures options { result.options ≡ matrix_options_in (rows_of (found_of matches.now)) }
    ensures after { result.after ≡ first_of (codes "after") (rows_of (found_of matches.now)) }
    ensures limit { IsNumberAt (codes "limit") (rows_of (found_of matches.now)) result.limit }
{
    MatrixLine {
        options: matrix_options_of(matches),
        after: value_of(matches, "after"),
        limit: number_of(matches, "limit"),
    }
}

// The parts of a `lint` line.
fn lint_line_of<'a>(matches: &ArgMatches<'a>) -> LintLine<'a>
    ensures { result ≡ lint_in (rows_of (found_of matches.now)) }
{
    LintLine {
        only: value_of(matches, "only"),
        skip_system: flag_of(matches, "skip-system"),
    }
}

// How many values `id` has.
fn count_of(matches: &ArgMatches<'_>, id: &str) -> usize
    ensures { result ≡ length (texts_at id.now (rows_of (found_of matches.now))) }
{
    match values_of(matches, id) {
        Some(texts) => texts.len(),
        None => 0,
    }
}

// The parts of a `diff` line.
fn diff_line_of(matches: &ArgMatches<'_>) -> DiffLine
    ensures { result ≡ diff_in (rows_of (found_of matches.now)) }
{
    DiffLine {
        before_files: count_of(matches, "before"),
        after_files: count_of(matches, "after"),
        without_files: count_of(matches, "without"),
        with_files: count_of(matches, "with"),
    }
}

// The parts of an `unused` line.
fn unused_line_of<'m, 'a>(matches: &'m ArgMatches<'a>) -> UnusedLine<'m, 'a>
    ensures { result ≡ unused_in (rows_of (found_of matches.now)) }
{
    let skip_system = flag_of(matches, "skip-system");
    let logs = values_of(matches, "log");
    let files = count_of(matches, "files");
    UnusedLine {
        skip_system,
        logs,
        files,
    }
}

// The parts of a `least` line.
fn least_line_of<'m, 'a>(matches: &'m ArgMatches<'a>) -> LeastLine<'m, 'a>
    ensures { result ≡ least_in (rows_of (found_of matches.now)) }
{
    LeastLine {
        key: text_of(matches, "who"),
        names: flag_of(matches, "names"),
        name: value_of(matches, "name"),
        logs: values_of(matches, "log"),
        files: count_of(matches, "files"),
    }
}

// Adds the files of a `diff` line: those of each option, in this order.
fn add_diff_files(
    alloc: Global,
    matches: &ArgMatches<'_>,
    files: &mut Vec<String>,
) -> Result<(), AllocError>
    ensures { OnOk result (map string_bytes files.new.items
        ≡ map string_bytes files.old.items ++ diff_files_in (rows_of (found_of matches.now))) }
{
    add_texts(alloc, matches, "before", files)?;
    add_texts(alloc, matches, "after", files)?;
    add_texts(alloc, matches, "without", files)?;
    add_texts(alloc, matches, "with", files)
}

// The files of the subcommand of that name.
fn files_of(alloc: Global, name: &str, matches: &ArgMatches<'_>) -> Result<Vec<String>, AllocError>
    ensures { IfOk result
        (λ v. map string_bytes v.items ≡ files_in name.now (rows_of (found_of matches.now))) }
{
    let mut files = Vec::new(alloc);
    if name == "diff" {
        add_diff_files(alloc, matches, &mut files)?;
    } else {
        add_texts(alloc, matches, "files", &mut files)?;
    }
    Ok(files)
}

// Whether the subcommand of that name reads logs.
fn has_logs(name: &str) -> bool
    ensures { result ≡ has_logs name.now }
{
    name == "unused" || name == "least"
}

// The logs of the subcommand of that name.
fn logs_of(alloc: Global, name: &str, matches: &ArgMatches<'_>) -> Result<Vec<String>, AllocError>
    ensures { IfOk result
        (λ v. map string_bytes v.items ≡ logs_in name.now (rows_of (found_of matches.now))) }
{
    let mut logs = Vec::new(alloc);
    if has_logs(name) {
        add_texts(alloc, matches, "log", &mut logs)?;
    }
    Ok(logs)
}

// Adds all values of `id`, in order.
fn add_texts(
    alloc: Global,
    matches: &ArgMatches<'_>,
    id: &str,
    files: &mut Vec<String>,
) -> Result<(), AllocError>
    ensures { OnOk result (map string_bytes files.new.items
        ≡ map string_bytes files.old.items ++ texts_at id.now (rows_of (found_of matches.now))) }
{
    let Some(texts) = values_of(matches, id) else {
        return Ok(());
    };
    for text in texts {
        files.push(String::from_str(alloc, text)?)?;
    }
    Ok(())
}

// What `clap` makes of the words.
fn parsed<'a>(alloc: Global, words: &'a [String]) -> Result<ArgMatches<'a>, UsageFault>
    ensures ok { IfOk result (λ m. (fault_of rbac_app (map string_bytes words.entry.now) ≡ [])
        × (subcommand_rows_of m ≡ subcommand_of rbac_app (map string_bytes words.entry.now))) }
    ensures err { IfErr result (IsUsageFault (map string_bytes words.entry.now)) }
{
    match program(alloc)?.try_get_matches_from(words) {
        Ok(matches) => Ok(matches),
        Err(error) => match error.kind() {
            ErrorKind::OutOfMemory => Err(UsageFault::Question(QuestionFault::NoMemory)),
            _ => Err(UsageFault::Refused(error)),
        },
    }
}

// What the subcommand of that name does, according to its matches.
fn action_of(alloc: Global, name: &str, matches: &ArgMatches<'_>) -> Result<Action, QuestionFault>
    requires { is_known name.now ≡ true }
    ensures { MatchResult result (DoesAction name.now (rows_of (found_of matches.now)))
        (RefusesAction name.now (rows_of (found_of matches.now))) }
{
    if name == "matrix" {
        return Action::matrix(alloc, &matrix_line_of(matches));
    }
    if name == "who-can" {
        return Action::who_can(alloc, &who_can_line_of(matches));
    }
    if name == "rules" {
        return Action::rules(alloc, &rules_line_of(matches));
    }
    if name == "universe" {
        return Ok(Action::Universe);
    }
    if name == "lint" {
        return Action::lint(alloc, &lint_line_of(matches));
    }
    if name == "powers" {
        return Ok(Action::Powers);
    }
    if name == "paths" {
        return Action::paths(alloc, &paths_line_of(matches));
    }
    if name == "diff" {
        return Action::diff(&diff_line_of(matches));
    }
    if name == "unused" {
        return Action::unused(&unused_line_of(matches));
    }
    if name == "least" {
        return Action::least(alloc, &least_line_of(matches));
    }
    Action::can_i(alloc, &line_of(matches))
}

// The subcommand that was found, stated in terms of a parse's rows.
fn subcommand_of<'m, 'a>(matches: &'m ArgMatches<'a>) -> Option<(&'a str, &'m ArgMatches<'a>)>
    ensures { option_map (λ p. (p.0.now, rows_of (found_of p.1.now))) result
        ≡ subcommand_rows_of matches.now }
{
    matches.subcommand()
}

fn meaning_of(alloc: Global, matches: &ArgMatches<'_>) -> Result<Command, QuestionFault>
    requires { option_map_or (λ p. is_known p.0) (subcommand_rows_of matches.now) false ≡ true }
    ensures { MatchResult result (Means (subcommand_rows_of matches.now))
        (IsCauseOf (subcommand_rows_of matches.now)) }
{
    match subcommand_of(matches) {
        Some((name, inner)) => {
            let files = files_of(alloc, name, inner)?;
            let logs = logs_of(alloc, name, inner)?;
            let action = action_of(alloc, name, inner)?;
            Ok(Command {
                action,
                files,
                logs,
            })
        }
        None => unreachable!(),
    }
}

/// The command that the words mean; the first word is the program's name.
///
/// U1 if `clap` refuses the words, or if help or the version is asked for; otherwise U2 to U12, or
/// out of memory.
pub fn command_of(alloc: Global, words: &[String]) -> Result<Command, UsageFault>
    ensures { IsAnswer (map string_bytes words.now) result }
{
    let matches = parsed(alloc, words)?;
    Ok(meaning_of(alloc, &matches)?)
}
