//! Reading a log, line by line.

ghost use Rattle.std.specs.Prelude.{◌≡◌, ◌≢◌, ◌⊎◌, ◌+◌, ◌<◌, ◌≤◌, ◌^◌, ◌++◌, ℕ, suc, List, [], length};
ghost use Rattle.std.specs.Prelude.{false, IfErr, OnOk};
ghost use Rattle.std.specs.Io.KnownBytes.{Consumes, IsAtEnd};
ghost use Rattle.rbac_diff.specs.Requests.{RequestView};
ghost use Rattle.rbac_log.specs.Logs.{HasAdded, IsAddedFrom, IsFaultOf, StopsAfter, is_read_fault};
ghost use Rattle.rbac_log.specs.Logs.{line_requests, most_bytes, told_at};
ghost use Rattle.rbac_log.specs.Outcome.{Tells};
ghost use Rattle.rbac_log.specs.Reading.{FailsAfter, IsOfLine, IsReadTo};
ghost use Rattle.rbac_log.specs.declared.log_fault.LogFault.TheVariants.{Line, LongLine};
ghost use Rattle.rbac_log.specs.declared.logged.LoggedRequest.{LoggedRequest as Logged};

use crate::fault::LineFault;
use crate::line::requests_in_line;
use crate::log_fault::LogFault;
use crate::logged::LoggedRequest;
use json::Scratch;
use rbac_streams::{Failed, Source};
use rbac_terms::cut_at_first;
use rbac_use::Log;
use simdutf8::basic::from_utf8;
use std::alloc::{AllocError, Global};
use std::fs;
use std::io::Read;
use std::rt::Files;

// The most bytes that a line may have: 64 MiB (own).
const MOST_BYTES: usize = 67_108_864;

// The most bytes that one read takes.
const ONE_READ: usize = 65_536;

// Adds requests to a log.
fn add_requests(requests: Vec<LoggedRequest>, log: &mut Log) -> Result<(), AllocError>
    ensures { OnOk result (HasAdded log.old requests.items log.new) }
{
    for request in requests {
        let LoggedRequest {
            who,
            namespace,
            verb,
            target,
        } = request;
        log.add(who, namespace, verb, target)?;
    }
    Ok(())
}

// Adds the requests of a line, which is given as its bytes.
fn add_line(
    alloc: Global,
    bytes: &[u8],
    scratch: &mut Scratch,
    log: &mut Log,
) -> Result<(), LineFault>
    ensures ok { OnOk result
        ((rs : List Logged) × (line_requests bytes.now ≡ Ok rs) × HasAdded log.old rs log.new) }
    ensures err { IfErr result
        (λ e. e ≢ LineFault.NoMemory → line_requests bytes.now ≡ Err e) }
{
    let Ok(line) = from_utf8(bytes) else {
        return Err(LineFault::NotJson);
    };
    let requests = requests_in_line(alloc, line, scratch)?;
    add_requests(requests, log)?;
    Ok(())
}

// The fault of the log whose line with this number has this fault.
fn fault_at(number: u128, fault: LineFault) -> LogFault
    ensures memory { fault ≡ LineFault.NoMemory → result ≡ LogFault.NoMemory }
    ensures line { fault ≢ LineFault.NoMemory → result ≡ Line number fault }
{
    match fault {
        LineFault::NoMemory => LogFault::NoMemory,
        fault => LogFault::Line { number, fault },
    }
}

// What was read of a log: how many lines have ended, and the bytes of the next one; and room for the
// texts of a line.
#[derive(Drop)]
struct Tail {
    ended: u128,
    bytes: Vec<u8>,
    scratch: Scratch,
}

impl Tail {
    // The number of the next line, counted from 1.
    fn number(&self) -> u128
        requires { self.now.ended + 1 < 2 ^ 128 }
        ensures { result ≡ suc self.now.ended }
    {
        self.ended + 1
    }

    // Adds more bytes of the line.
    fn extend(&mut self, more: &[u8]) -> Result<(), LogFault>
        requires few { self.old.ended + 1 < 2 ^ 128 }
        requires short { length self.old.bytes.items ≤ most_bytes }
        ensures ok { OnOk result ((self.new.bytes.items ≡ self.old.bytes.items ++ more.now)
            × (length self.new.bytes.items ≤ most_bytes) × (self.new.ended ≡ self.old.ended)) }
        ensures err { IfErr result (λ fault. (fault ≡ LogFault.NoMemory)
            ⊎ ((fault ≡ LongLine (suc self.old.ended))
            × (most_bytes < length (self.old.bytes.items ++ more.now)))) }
    {
        if more.len() > MOST_BYTES - self.bytes.len() {
            return Err(LogFault::LongLine(self.number()));
        }
        match self.bytes.extend_from_slice(more) {
            Ok(()) => Ok(()),
            Err(_) => Err(LogFault::NoMemory),
        }
    }

    // Ends the line: adds its requests to the log.
    fn end(&mut self, alloc: Global, log: &mut Log) -> Result<(), LogFault>
        requires few { self.old.ended + 1 < 2 ^ 128 }
        requires short { length self.old.bytes.items ≤ most_bytes }
        ensures ok { OnOk result ((rs : List Logged)
            × (told_at (suc self.old.ended) self.old.bytes.items ≡ Ok rs)
            × HasAdded log.old rs log.new × (self.new.bytes.items ≡ [])
            × (self.new.ended ≡ suc self.old.ended)) }
        ensures err { IfErr result (λ fault. (fault ≡ LogFault.NoMemory) ⊎ (IsOfLine fault
            × (told_at (suc self.old.ended) self.old.bytes.items ≡ Err fault))) }
    {
        let number = self.number();
        match add_line(alloc, self.bytes.as_slice(), &mut self.scratch, log) {
            Ok(()) => {
                self.ended = number;
                self.bytes.clear();
                Ok(())
            }
            Err(fault) => Err(fault_at(number, fault)),
        }
    }

    // Takes a piece of the log.
    fn take(&mut self, alloc: Global, piece: &[u8], log: &mut Log) -> Result<(), LogFault>
        requires few { self.old.ended + length piece.now + 1 < 2 ^ 128 }
        requires short { length self.old.bytes.items ≤ most_bytes }
        ensures ok { OnOk result ((bytes : List ℕ) (start : List RequestView)
            → IsReadTo bytes start self.old log.old
            → IsReadTo (bytes ++ piece.now) start self.new log.new) }
        ensures size { OnOk result ((length self.new.bytes.items ≤ most_bytes)
            × (self.new.ended ≤ self.old.ended + length piece.now)) }
        ensures err { IfErr result (λ fault. (bytes : List ℕ) (start : List RequestView)
            → IsReadTo bytes start self.old log.old → FailsAfter (bytes ++ piece.now) fault) }
    {
        let mut rest = piece;
        'lines: while let Some((line, more)) = cut_at_first(rest, b'\n') {
            self.extend(line)?;
            self.end(alloc, log)?;
            rest = more;
        }
        self.extend(rest)
    }
}

/// Reads the log that the reader has, line by line, and adds the requests of each line to `log`
/// (own). A line may have at most 67,108,864 bytes (64 MiB); the log may be larger than memory. What
/// follows the last newline is a line, too; an empty line has no requests.
///
/// # Errors
///
/// The first line that is too long, isn't UTF-8, or has a fault of [`requests_in_line`] is refused
/// with its number, counted from 1. I1 if a read failed, I2 without a line if the log has 2^64 - 1
/// bytes or more. After an error, `log` may have requests of lines before the one that is refused,
/// and some of that line.
pub fn read_log<R: Read + Drop>(
    alloc: Global,
    source: &mut Source<R>,
    log: &mut Log,
) -> Result<(), LogFault>
    requires { source.old.has_failed ≡ false }
    ensures ok { OnOk result ((bytes : List ℕ)
        × Consumes (R.remaining source.old.reader) (R.remaining source.new.reader) bytes
        × IsAtEnd (R.remaining source.new.reader) × IsAddedFrom bytes log.old log.new) }
    ensures err { IfErr result (λ fault. (bytes : List ℕ)
        × Consumes (R.remaining source.old.reader) (R.remaining source.new.reader) bytes
        × StopsAfter (R.remaining source.new.reader) bytes fault) }
    ensures failed { source.new.has_failed ≡ is_read_fault result }
{
    let mut chunk = [0u8; ONE_READ];
    let mut tail = Tail {
        ended: 0,
        bytes: Vec::new(alloc),
        scratch: Scratch::new(alloc),
    };
    for read in 0..u64::MAX {
        match source.read(&mut chunk) {
            Err(Failed) => return Err(LogFault::ReadFault),
            Ok(0) => return tail.end(alloc, log),
            Ok(n) => tail.take(alloc, &chunk[..n], log)?,
        }
    }
    Err(LogFault::LongLog)
}

/// Reads the log that a slice has left, as [`read_log`] does. This contract follows from the contract
/// of `read_log` alone.
///
/// Contracts see the bytes of a slice, so this contract states which requests are added, and which
/// fault is the log's. They don't see the bytes of a file; for a file, the same holds as far as its
/// reads return its bytes.
pub fn read_log_slice(
    alloc: Global,
    source: &mut Source<&[u8]>,
    log: &mut Log,
) -> Result<(), LogFault>
    requires { source.old.has_failed ≡ false }
    ensures ok { OnOk result (IsAddedFrom source.old.reader.now log.old log.new) }
    ensures err { IfErr result (IsFaultOf source.old.reader.now) }
    ensures failed { source.new.has_failed ≡ is_read_fault result }
{
    read_log(alloc, source, log)
}

/// Reads the log at `path`, as [`read_log`] does; I1 also if the file can't be opened.
pub fn read_log_file<R: Files>(
    rt: &R,
    alloc: Global,
    path: &str,
    log: &mut Log,
) -> Result<(), LogFault>
    ensures ok { OnOk result ((file after : R.File) × (bytes : List ℕ)
        × Consumes (R.File.remaining file) (R.File.remaining after) bytes
        × IsAtEnd (R.File.remaining after) × IsAddedFrom bytes log.old log.new) }
    ensures err { IfErr result (λ fault. fault ≢ LogFault.ReadFault
        → (file after : R.File) × (bytes : List ℕ)
        × Consumes (R.File.remaining file) (R.File.remaining after) bytes
        × StopsAfter (R.File.remaining after) bytes fault) }
{
    match fs::open(rt, path) {
        Ok(file) => read_log(alloc, &mut Source::new(file), log),
        Err(_) => Err(LogFault::ReadFault),
    }
}
