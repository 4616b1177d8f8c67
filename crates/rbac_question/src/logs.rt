//! The logs of a line, and how often it reads standard input.

ghost use Rattle.std.specs.Prelude.{◌≡◌, ◌↔◌, ◌∷◌, [], IsTrue, filter, length, map, option_map};
ghost use Rattle.rbac_question.specs.Lines.{names_in};
ghost use Rattle.rbac_question.specs.Logs.{HasBadLogs, is_stdin};

// How often standard input is among these names: 1 if this is it, otherwise 0.
fn count_of(name: &str) -> usize
    ensures { result ≡ length (filter is_stdin (name.now ∷ [])) }
{
    if name == "-" { 1 } else { 0 }
}

// How often standard input is among the names.
fn stdin_count(names: &[&str]) -> usize
    ensures { result ≡ length (filter is_stdin (map (λ n. n.now) names.now)) }
{
    let mut count = 0;
    for name in names {
        count += count_of(name);
    }
    count
}

// How often standard input is among the logs.
fn log_count(logs: Option<&[&str]>) -> usize
    ensures { result ≡ length (filter is_stdin
        (names_in (option_map (λ names. map (λ n. n.now) names.now) logs.entry))) }
{
    match logs {
        Some(names) => stdin_count(names),
        None => 0,
    }
}

// Whether a line with these logs and so many files reads standard input more than once.
pub(crate) fn has_bad_logs(logs: Option<&[&str]>, files: usize) -> bool
    ensures { IsTrue result ↔ HasBadLogs
        (names_in (option_map (λ names. map (λ n. n.now) names.now) logs.entry)) files }
{
    let count = log_count(logs);
    if files == 0 { count > 0 } else { count > 1 }
}
