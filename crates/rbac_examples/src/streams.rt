//! Readers and writers that fail and count their calls: no call is made twice, and none after one
//! that failed.

use crate::words::built;
use rbac_streams::{Failed, InputFault, Sink, Source, read_input, read_slice};
use std::alloc::Global;
use std::io;
use std::io::{ErrorKind, Read, Write};

// Gives its bytes one at a time, and is interrupted at call `fails_at`, counted from 1.
#[derive(Drop)]
struct Drip<'a> {
    rest: &'a [u8],
    calls: &'a mut usize,
    fails_at: usize,
}

impl Read for Drip<'_> {
    fn read(&mut self, buf: &mut [u8]) -> io::Result<usize> {
        *self.calls = self.calls.saturating_add(1);
        if *self.calls == self.fails_at {
            return Err(io::Error::from(ErrorKind::Interrupted));
        }
        let most = buf.len().min(self.rest.len()).min(1);
        buf[..most].copy_from_slice(&self.rest[..most]);
        self.rest = &self.rest[most..];
        Ok(most)
    }
}

// Takes `most` bytes at a time, and is interrupted at call `fails_at`, counted from 1.
#[derive(Drop)]
struct Sip<'a> {
    most: usize,
    calls: &'a mut usize,
    fails_at: usize,
}

impl Write for Sip<'_> {
    fn write(&mut self, buf: &[u8]) -> io::Result<usize> {
        *self.calls = self.calls.saturating_add(1);
        if *self.calls == self.fails_at {
            return Err(io::Error::from(ErrorKind::Interrupted));
        }
        Ok(buf.len().min(self.most))
    }

    fn flush(&mut self) -> io::Result<()> {
        Ok(())
    }
}

const LIST: &[u8] = b"{\"kind\":\"List\"}";

// Whether a reader gives the whole list if it fails only after the list's end, and otherwise a
// fault.
fn reads_list(alloc: Global, drip: Drip<'_>) -> bool {
    let fails_at = drip.fails_at;
    let mut source = Source::new(drip);
    match read_input(alloc, &mut source) {
        Ok(input) => fails_at == 17 && !source.failed() && input.as_bytes() == LIST,
        // The reader would give a byte now, but it isn't called again.
        Err(fault) => {
            fails_at < 17
                && source.failed()
                && fault == InputFault::ReadFault
                && source.read(&mut [0u8; 4]) == Err(Failed)
        }
    }
}

#[test]
fn reads_until_the_end(rt: HostRuntime) {
    for fails_at in 1..18usize {
        let mut calls = 0;
        let drip = Drip {
            rest: LIST,
            calls: &mut calls,
            fails_at,
        };
        assert!(rt; reads_list(rt.alloc(), drip));
        // 15 reads of a byte each, and one that finds the end.
        assert!(rt; calls == fails_at.min(16));
    }
}

#[test]
fn a_slice_is_read_whole(rt: HostRuntime) {
    let mut source = Source::new(LIST);
    let input = built(&rt, read_slice(rt.alloc(), &mut source));
    assert!(rt; input.as_bytes() == LIST);
}

// How many bytes a writer takes at a time, at which call it fails, how many of four bytes it has
// taken, and how often it was called.
const SIPS: &[(usize, usize, usize, usize)] = &[(1, 4, 3, 4), (0, 9, 0, 1), (64, 1, 0, 1)];

// Whether the writer fails after this many of four bytes, and takes none from then on.
fn fails_after(sip: Sip<'_>, taken: usize) -> bool {
    let mut sink = Sink::new(sip);
    // The writer may take a byte at the call of `write`, but it isn't called again.
    sink.put(b"yes\n") == Err(taken)
        && sink.failed()
        && sink.write(b"x") == Err(Failed)
        && sink.taken() == taken as u128
}

#[test]
fn a_failed_writer_stays_failed(rt: HostRuntime) {
    for (most, fails_at, taken, called) in SIPS {
        let mut calls = 0;
        let sip = Sip {
            most: *most,
            calls: &mut calls,
            fails_at: *fails_at,
        };
        assert!(rt; fails_after(sip, *taken));
        assert!(rt; calls == *called);
    }
}
