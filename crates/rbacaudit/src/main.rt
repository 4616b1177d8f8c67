//! `rbacaudit`: answers questions about exported Kubernetes roles.
//!
//! Reads the command line, then each FILE in order or standard input, then each log, runs the
//! command with its answer on standard output, and reports a fault on standard error. The exit
//! status is 0, or 1 for `no`, findings, changes or unused permissions, or 2 for a fault.
#![tactic(auto)]

use rbac_cli::{
    Command, Input, InputFault, Log, LogFault, RunFault, Sink, Source, Status, UsageFault,
    command_of, read_file, read_input, read_log, read_log_file, run,
};
use std::alloc::AllocError;
use std::env::{Env, FillError};
use std::process::ExitCode;
use std::{env, fmt, io, str};

// The most bytes of a word of the command line (Linux, MAX_ARG_STRLEN).
const MOST_WORD: usize = 131_072;

// Why there is no answer.
#[derive(Drop)]
enum Fault {
    // The words of the command line couldn't be read.
    Words(io::Error),
    // The word at this place isn't UTF-8; the one at place 0 is the program's name.
    NotUtf8(usize),
    Usage(UsageFault),
    // A fault of the input at this place, counted from 0.
    Input { place: usize, fault: InputFault },
    // A fault of the log at this place, counted from 0.
    Log { place: usize, fault: LogFault },
    Run(RunFault),
}

impl fmt::Display for Fault {
    ghost use Rattle.rbacaudit.specs.FaultTexts.{fault_text};

    ghost output = { fault_text };

    fn fmt<W: fmt::Write>(&self, f: &mut fmt::Formatter<W>) -> fmt::Result {
        match self {
            Fault::Words(error) => write!(f, "{error}"),
            Fault::NotUtf8(place) => write!(f, "argument {place}: not UTF-8"),
            Fault::Usage(fault) => write!(f, "{fault}"),
            Fault::Input {
                fault: InputFault::NoMemory,
                ..
            } => write!(f, "{}", InputFault::NoMemory),
            Fault::Input { place, fault } => write!(f, "file {}: {fault}", *place as u128 + 1),
            Fault::Log {
                fault: LogFault::NoMemory,
                ..
            } => write!(f, "{}", LogFault::NoMemory),
            Fault::Log { place, fault } => write!(f, "log {}: {fault}", *place as u128 + 1),
            Fault::Run(fault) => write!(f, "{fault}"),
        }
    }
}

fn main(rt: HostRuntime) -> ExitCode {
    match audit(&rt) {
        Ok(Status::Zero) => ExitCode::SUCCESS,
        Ok(Status::One) => ExitCode::from(1),
        Err(Fault::Usage(UsageFault::Refused(error))) => {
            let printed = error.print(&rt);
            if error.use_stderr() || printed.is_err() {
                ExitCode::from(2)
            } else {
                ExitCode::SUCCESS
            }
        }
        Err(fault) => {
            // A fault that can't be reported still has its status.
            let _ = eprintln!(&rt; "rbacaudit: {fault}");
            ExitCode::from(2)
        }
    }
}

fn audit(rt: &HostRuntime) -> Result<Status, Fault> {
    let command = command_given(rt)?;
    answer(rt, &command)
}

fn command_given(rt: &HostRuntime) -> Result<Command, Fault> {
    let words = words_of(rt)?;
    command_of(rt.alloc(), words.as_slice()).map_err(Fault::Usage)
}

// Answers the command over its inputs, on standard output.
fn answer(rt: &HostRuntime, command: &Command) -> Result<Status, Fault> {
    let inputs = inputs_of(rt, command.files.as_slice())?;
    let log = log_of(rt, command.logs.as_slice())?;
    let mut sink = Sink::new(rt.stdout());
    run(rt.alloc(), command, inputs.as_slice(), &log, &mut sink).map_err(Fault::Run)
}

fn words_of(rt: &HostRuntime) -> Result<Vec<String>, Fault> {
    match utf8_words(rt) {
        Ok(words) => Ok(words),
        Err(error) => match bad_word(rt) {
            Ok(Some(place)) => Err(Fault::NotUtf8(place)),
            Ok(None) => Err(Fault::Words(error)),
            Err(error) => Err(Fault::Usage(error.into())),
        },
    }
}

fn utf8_words(rt: &HostRuntime) -> io::Result<Vec<String>> {
    let words: Vec<String> = env::args(rt)?.collect(rt.alloc())?;
    Ok(words)
}

// The place of the first word that isn't UTF-8.
fn bad_word(rt: &HostRuntime) -> Result<Option<usize>, AllocError> {
    let mut bytes = vec![in rt.alloc(); 0u8; MOST_WORD]?;
    for place in 0..usize::MAX {
        match rt.arg(place, &mut bytes) {
            Ok(length) if str::from_utf8(&bytes[..length]).is_err() => return Ok(Some(place)),
            Ok(_) | Err(FillError::TooLong) => {}
            Err(FillError::NotPresent) => return Ok(None),
        }
    }
    Ok(None)
}

// The inputs of a command: its files, or standard input if it names none.
fn inputs_of(rt: &HostRuntime, files: &[String]) -> Result<Vec<Input>, Fault> {
    let mut inputs = Vec::new(rt.alloc());
    if files.is_empty() {
        add(
            &mut inputs,
            read_input(rt.alloc(), &mut Source::new(rt.stdin())),
        )?;
    }
    for path in files {
        add(&mut inputs, read_file(rt, rt.alloc(), path.as_str()))?;
    }
    Ok(inputs)
}

// Adds an input that was read, at the next place.
fn add(inputs: &mut Vec<Input>, read: Result<Input, InputFault>) -> Result<(), Fault> {
    let place = inputs.len();
    match read {
        Ok(input) => match inputs.push(input) {
            Ok(()) => Ok(()),
            Err(_) => Err(Fault::Input {
                place,
                fault: InputFault::NoMemory,
            }),
        },
        Err(fault) => Err(Fault::Input { place, fault }),
    }
}

// The requests of all logs.
fn log_of(rt: &HostRuntime, names: &[String]) -> Result<Log, Fault> {
    let mut log = Log::new(rt.alloc());
    for (place, name) in names.iter().enumerate() {
        if let Err(fault) = read_named(rt, name.as_str(), &mut log) {
            return Err(Fault::Log { place, fault });
        }
    }
    Ok(log)
}

// Reads the log of this name; `-` is standard input.
fn read_named(rt: &HostRuntime, name: &str, log: &mut Log) -> Result<(), LogFault> {
    if name == "-" {
        read_log(rt.alloc(), &mut Source::new(rt.stdin()), log)
    } else {
        read_log_file(rt, rt.alloc(), name, log)
    }
}
