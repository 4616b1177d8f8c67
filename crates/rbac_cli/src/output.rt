//! Where an answer goes.

ghost use Rattle.std.specs.Prelude.{◌≡◌, false, OnOk, OnErr};
ghost use Rattle.rbac_cli.specs.Printing.{BorrowsTheSame, PrintsText, StopsInText, is_sink_fault};

use rbac_streams::{Page, PrintFault, Sink};
use std::io::Write;

/// A sink, and the page of text on its way to it.
#[derive(Drop)]
pub(crate) struct Output<'o, W> {
    pub(crate) sink: &'o mut Sink<W>,
    pub(crate) page: &'o mut Page,
}

impl<W: Write + Drop> Output<'_, W> {
    /// Prints more text.
    pub(crate) fn print(&mut self, more: &[u8]) -> Result<(), PrintFault>
        requires { self.old.sink.now.has_failed ≡ false }
        ensures ok { OnOk result (PrintsText W.contents self.old self.new more.now) }
        ensures err { OnErr result (StopsInText W.contents self.old self.new more.now) }
        ensures failed { self.new.sink.now.has_failed ≡ is_sink_fault result }
        ensures same { BorrowsTheSame self.old self.new }
    {
        self.page.print(self.sink, more)
    }
}
