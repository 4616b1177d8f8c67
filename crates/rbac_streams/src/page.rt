//! Text on its way to a sink, written in large pieces.

ghost use Rattle.std.specs.Prelude.{◌≡◌, ◌++◌, List, ℕ, [], true, false, OnOk, OnErr, IsErrOf};
ghost use Rattle.rbac_streams.specs.Streams.{SinkView};
ghost use Rattle.rbac_streams.specs.Taken.{Took, Printed, Prints, Stopped, StopsIn};

use crate::sink::Sink;
use std::alloc::Global;
use std::io::Write;
use std::marker::Model;

// The text is written to the sink once this many bytes of it are pending.
const FULL: usize = 65_536;

/// Text that is printed bit by bit, and written to a sink in pieces of 64 KiB or more; the last
/// piece may be shorter. The page counts how many bytes of the text the sink took.
#[derive(Drop)]
pub struct Page {
    pending: Vec<u8>,
    written: u128,
}

impl Model for Page {
    ghost use Rattle.rbac_streams.specs.Streams.{PageView};

    ghost Value = { PageView };

    ghost view = { λ p. record { pending = p.pending.items; written = p.written } };
}

/// Why printing stopped.
#[derive(Clone, Copy, Debug, PartialEq, Eq)]
pub enum PrintFault {
    /// The sink failed, before or in this call.
    SinkFailed,
    /// Out of memory for the text.
    NoMemory,
}

impl Page {
    /// An empty page for text that begins at this sink. Doesn't allocate. The call doesn't use the
    /// sink: the contract needs it to count the text from here.
    pub fn start<W: Write + Drop>(alloc: Global, _sink: &Sink<W>) -> Page
        ensures printed { Printed W.contents _sink.now _sink.now result [] }
        ensures took { Took W.contents _sink.now _sink.now [] }
        ensures written { result ≡ record { pending = []; written = 0 } }
    {
        Page {
            pending: Vec::new(alloc),
            written: 0,
        }
    }

    /// How many bytes of the text the sink took, at most `u128::MAX`.
    pub fn written(&self) -> u128
        ensures { result ≡ self.now.written }
    {
        self.written
    }

    /// Writes all pending text to the sink. If the sink fails, all of this text stays pending,
    /// including the prefix that the sink took.
    pub fn flush<W: Write + Drop>(&mut self, sink: &mut Sink<W>) -> Result<(), PrintFault>
        requires { sink.old.has_failed ≡ false }
        ensures ok { OnOk result ((start : SinkView W) (text : List ℕ)
            → Printed W.contents start sink.old self.old text
            → Printed W.contents start sink.new self.new text) }
        ensures empty { OnOk result ((self.new.pending ≡ []) × (sink.new.has_failed ≡ false)) }
        ensures err { OnErr result ((start : SinkView W) (text : List ℕ)
            → Printed W.contents start sink.old self.old text
            → Stopped W.contents start sink.new self.new text) }
        ensures failed { OnErr result
            ((result ≡ Err PrintFault.SinkFailed) × (sink.new.has_failed ≡ true)) }
        ensures pending { OnErr result (self.new.pending ≡ self.old.pending) }
    {
        let written = self.written;
        match sink.put(self.pending.as_slice()) {
            Ok(()) => {
                self.written = written.saturating_add(self.pending.len() as u128);
                self.pending.clear();
                Ok(())
            }
            Err(taken) => {
                self.written = written.saturating_add(taken as u128);
                Err(PrintFault::SinkFailed)
            }
        }
    }

    /// Adds to the text, and writes the pending text to the sink if it has 64 KiB or more. If it
    /// runs out of memory, nothing changes. If the sink fails, the pending text includes what was
    /// added.
    pub fn print<W: Write + Drop>(
        &mut self,
        sink: &mut Sink<W>,
        more: &[u8],
    ) -> Result<(), PrintFault>
        requires { sink.old.has_failed ≡ false }
        ensures ok { OnOk result (Prints W.contents sink.old self.old sink.new self.new more.now) }
        ensures works { OnOk result (sink.new.has_failed ≡ false) }
        ensures err { OnErr result
            (StopsIn W.contents sink.old self.old sink.new self.new more.now) }
        ensures failed { IsErrOf result PrintFault.SinkFailed → sink.new.has_failed ≡ true }
        ensures pending { IsErrOf result PrintFault.SinkFailed
            → self.new.pending ≡ self.old.pending ++ more.now }
        ensures unwritten { IsErrOf result PrintFault.NoMemory
            → (sink.new ≡ sink.old) × (self.new ≡ self.old) }
    {
        if self.pending.extend_from_slice(more).is_err() {
            return Err(PrintFault::NoMemory);
        }
        if self.pending.len() >= FULL {
            return self.flush(sink);
        }
        Ok(())
    }
}
