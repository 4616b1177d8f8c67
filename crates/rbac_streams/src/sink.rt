//! A writer that isn't called again after a failure, with the number of bytes that it took.

ghost use Rattle.std.specs.Prelude.{◌≡◌, ◌<◌, ◌≤◌, [], length, take, true, false, IfOk, IfErr};
ghost use Rattle.std.specs.Prelude.{OnOk, OnErr};
ghost use Rattle.rbac_streams.specs.Taken.{Took};

use std::io::Write;
use std::marker::Model;

/// A call of the reader or the writer returned an error, or the writer took nothing of a piece.
#[derive(Clone, Copy, Debug, PartialEq, Eq)]
pub struct Failed;

/// A writer that isn't called again once a call of it has failed, with the number of bytes that it
/// took.
///
/// An interruption is a failure too, and so is a call that takes nothing of a piece (own).
#[derive(Drop)]
pub struct Sink<W> {
    writer: W,
    has_failed: bool,
    taken: u128,
}

impl<W> Model for Sink<W> {
    ghost use Rattle.rbac_streams.specs.Streams.{SinkView};

    ghost Value = { SinkView W };

    ghost view = { λ s. record { writer = s.writer; has_failed = s.has_failed; taken = s.taken } };
}

impl<W: Write + Drop> Sink<W> {
    /// A writer that hasn't failed or taken anything yet.
    pub fn new(writer: W) -> Sink<W>
        ensures { result ≡ record { writer = writer; has_failed = false; taken = 0 } }
    {
        Sink {
            writer,
            has_failed: false,
            taken: 0,
        }
    }

    /// Whether a call of the writer has failed.
    pub fn failed(&self) -> bool
        ensures { result ≡ self.now.has_failed }
    {
        self.has_failed
    }

    /// How many bytes the writer took, at most `u128::MAX`.
    pub fn taken(&self) -> u128
        ensures { result ≡ self.now.taken }
    {
        self.taken
    }

    /// Hands the writer a piece once, and returns the length of the prefix that it took: at least
    /// one byte. Fails if the writer returns an error or takes nothing (own).
    ///
    /// After a failure, each call fails: the writer isn't called, and nothing changes.
    pub fn write(&mut self, piece: &[u8]) -> Result<usize, Failed>
        requires { 0 < length piece.now }
        ensures ok { IfOk result (λ n. (0 < n) × (n ≤ length piece.now)
            × Took W.contents self.old self.new (take n piece.now)
            × (self.new.has_failed ≡ false)) }
        ensures err { OnErr result
            (Took W.contents self.old self.new [] × (self.new.has_failed ≡ true)) }
        ensures stays { self.old.has_failed ≡ true
            → (result ≡ Err record {}) × (self.new ≡ self.old) }
    {
        let taken = self.taken;
        if self.has_failed {
            return Err(Failed);
        }
        match self.writer.write(piece) {
            Ok(0) | Err(_) => {
                self.has_failed = true;
                Err(Failed)
            }
            Ok(n) => {
                self.taken = taken.saturating_add(n as u128);
                Ok(n)
            }
        }
    }

    /// Hands the writer all the bytes, or fails and returns how many of them the writer took.
    pub fn put(&mut self, bytes: &[u8]) -> Result<(), usize>
        requires { self.old.has_failed ≡ false }
        ensures ok { OnOk result (Took W.contents self.old self.new bytes.now
            × (self.new.has_failed ≡ false)) }
        ensures err { IfErr result (λ n. (n < length bytes.now)
            × Took W.contents self.old self.new (take n bytes.now) × (self.new.has_failed ≡ true)) }
    {
        let mut at = 0;
        while at < bytes.len() {
            match self.write(&bytes[at..]) {
                Ok(n) => at += n,
                Err(Failed) => return Err(at),
            }
        }
        Ok(())
    }
}
