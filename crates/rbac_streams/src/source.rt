//! A reader that isn't called again after a failure, and reading a whole input.

ghost use Rattle.std.specs.Prelude.{◌≡◌, ◌≢◌, ℕ, ◌+◌, ◌<◌, ◌≤◌, List, [], ◌++◌, length, take};
ghost use Rattle.std.specs.Prelude.{true, false, IfOk, OnOk, IfErr, OnErr, IsErrOf};
ghost use Rattle.std.specs.Io.KnownBytes.{Consumes, IsAtEnd, Keeps};
ghost use Rattle.rbac_streams.specs.Faults.{is_read_fault};
ghost use Rattle.rbac_streams.specs.Taken.{counted};
ghost use Rattle.rbac_streams.specs.Streams.{most_bytes, one_read};

use crate::input::Input;
use crate::sink::Failed;
use std::alloc::Global;
use std::error::Error;
use std::io::Read;
use std::marker::Model;
use std::rt::Files;
use std::{fmt, fs};

// The most bytes that an input may have: 64 MiB (own).
const MOST_BYTES: usize = 67_108_864;

// The most bytes that one read takes.
const ONE_READ: usize = 65_536;

/// A reader that isn't called again once a read of it has failed, with the number of reads.
///
/// An interruption is a failure too (own).
#[derive(Drop)]
pub struct Source<R> {
    reader: R,
    has_failed: bool,
    reads: u128,
}

impl<R> Model for Source<R> {
    ghost use Rattle.rbac_streams.specs.Streams.{SourceView};

    ghost Value = { SourceView R };

    ghost view = { λ s. record { reader = s.reader; has_failed = s.has_failed; reads = s.reads } };
}

/// Why an input couldn't be read.
#[derive(Clone, Copy, Debug, PartialEq, Eq)]
pub enum InputFault {
    /// I1: a read failed, or the file couldn't be opened.
    ReadFault,
    /// I2: there were more than 67,108,864 bytes.
    TooLong,
    /// I3: out of memory.
    NoMemory,
}

impl fmt::Display for InputFault {
    ghost use Rattle.std.specs.Prelude.{Some};
    ghost use Rattle.rbac_streams.specs.Faults.{fault_text};

    ghost output = { λ fault. Some (fault_text fault) };

    fn fmt<W: fmt::Write>(&self, f: &mut fmt::Formatter<W>) -> fmt::Result {
        let text = match self {
            InputFault::ReadFault => "I1 read fault",
            InputFault::TooLong => "I2 too long",
            InputFault::NoMemory => "out of memory",
        };
        f.write_str(text)
    }
}

impl Error for InputFault {}

impl<R: Read + Drop> Source<R> {
    /// A reader that hasn't failed or been read yet.
    pub fn new(reader: R) -> Source<R>
        ensures { result ≡ record { reader = reader; has_failed = false; reads = 0 } }
    {
        Source {
            reader,
            has_failed: false,
            reads: 0,
        }
    }

    /// Whether a read has failed.
    pub fn failed(&self) -> bool
        ensures { result ≡ self.now.has_failed }
    {
        self.has_failed
    }

    /// Reads once, into the start of the buffer, and returns how many bytes were read: 0 only at
    /// the end. Fails if the reader returns an error.
    ///
    /// After a failure, each call fails: the reader isn't called, and nothing changes.
    pub fn read(&mut self, room: &mut [u8]) -> Result<usize, Failed>
        requires { 0 < length room.old }
        ensures ok { IfOk result (λ n. (n ≤ length room.new)
            × Consumes (R.remaining self.old.reader) (R.remaining self.new.reader) (take n room.new)
            × (n ≡ 0 → IsAtEnd (R.remaining self.new.reader)) × (self.new.has_failed ≡ false)) }
        ensures err { OnErr result
            (Keeps (R.remaining self.old.reader) (R.remaining self.new.reader)
            × (self.new.has_failed ≡ true)) }
        ensures reads { self.old.has_failed ≡ false → self.new.reads ≡ counted self.old.reads 1 }
        ensures stays { self.old.has_failed ≡ true
            → (result ≡ Err record {}) × (self.new ≡ self.old) × (room.new ≡ room.old) }
    {
        if self.has_failed {
            return Err(Failed);
        }
        self.reads = self.reads.saturating_add(1);
        match self.reader.read(room) {
            Ok(n) => Ok(n),
            Err(_) => {
                self.has_failed = true;
                Err(Failed)
            }
        }
    }
}

/// Reads everything that the reader has, at most 67,108,864 bytes (64 MiB), in at most 67,108,865
/// reads.
///
/// I1 if a read failed, I2 if there were more bytes, I3 if it ran out of memory. After I1 and I3 at
/// most 67,108,864 bytes were taken from the reader, and after I2 at most one read of 64 KiB more.
pub fn read_input<R: Read + Drop>(
    alloc: Global,
    source: &mut Source<R>,
) -> Result<Input, InputFault>
    requires { source.old.has_failed ≡ false }
    ensures ok { IfOk result (λ input. (length input ≤ most_bytes)
        × Consumes (R.remaining source.old.reader) (R.remaining source.new.reader) input
        × IsAtEnd (R.remaining source.new.reader)) }
    ensures failed { source.new.has_failed ≡ is_read_fault result }
    ensures short { IfErr result (λ fault. fault ≢ InputFault.TooLong
        → (bytes : List ℕ) × (length bytes ≤ most_bytes)
        × Consumes (R.remaining source.old.reader) (R.remaining source.new.reader) bytes) }
    ensures long { IsErrOf result InputFault.TooLong
        → (bytes : List ℕ) × (most_bytes < length bytes) × (length bytes ≤ most_bytes + one_read)
        × Consumes (R.remaining source.old.reader) (R.remaining source.new.reader) bytes }
    ensures reads { source.new.reads ≤ source.old.reads + (most_bytes + 1) }
{
    let mut chunk = [0u8; ONE_READ];
    let mut bytes = Vec::new(alloc);
    'whole: loop {
        match source.read(&mut chunk) {
            Err(Failed) => return Err(InputFault::ReadFault),
            Ok(0) => return Ok(Input::from_bytes(bytes)),
            Ok(n) => {
                if n > MOST_BYTES - bytes.len() {
                    return Err(InputFault::TooLong);
                }
                if bytes.extend_from_slice(&chunk[..n]).is_err() {
                    return Err(InputFault::NoMemory);
                }
            }
        }
    }
}

/// Reads everything that a slice has left, with the limit and the errors of [`read_input`]. This
/// contract follows from the contract of `read_input` alone.
///
/// Contracts see the bytes of a slice, so this contract states which bytes the input has. They
/// don't see the bytes of a file; for a file, the same holds as far as its reads return its bytes.
pub fn read_slice(alloc: Global, source: &mut Source<&[u8]>) -> Result<Input, InputFault>
    requires { source.old.has_failed ≡ false }
    ensures ok { IfOk result
        (λ input. (input ≡ source.old.reader.now) × (length input ≤ most_bytes)) }
    ensures rest { OnOk result (source.new.reader.now ≡ []) }
    ensures failed { source.new.has_failed ≡ is_read_fault result }
    ensures short { IfErr result (λ fault. fault ≢ InputFault.TooLong
        → (bytes : List ℕ) × (length bytes ≤ most_bytes)
        × (source.old.reader.now ≡ bytes ++ source.new.reader.now)) }
    ensures long { IsErrOf result InputFault.TooLong
        → (bytes : List ℕ) × (most_bytes < length bytes) × (length bytes ≤ most_bytes + one_read)
        × (source.old.reader.now ≡ bytes ++ source.new.reader.now) }
{
    read_input(alloc, source)
}

/// Reads the file at `path` whole, as [`read_input`] does; I1 also if the file can't be opened.
pub fn read_file<R: Files>(rt: &R, alloc: Global, path: &str) -> Result<Input, InputFault>
    ensures ok { IfOk result (λ input. (length input ≤ most_bytes) × ((file after : R.File)
        × Consumes (R.File.remaining file) (R.File.remaining after) input
        × IsAtEnd (R.File.remaining after))) }
    ensures long { IsErrOf result InputFault.TooLong
        → (file after : R.File) × (bytes : List ℕ) × (most_bytes < length bytes)
        × Consumes (R.File.remaining file) (R.File.remaining after) bytes }
{
    match fs::open(rt, path) {
        Ok(file) => read_input(alloc, &mut Source::new(file)),
        Err(_) => Err(InputFault::ReadFault),
    }
}
