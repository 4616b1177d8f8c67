//! Ascending places, kept as runs of neighbours: a run costs as much as a single place.

ghost use Rattle.std.specs.Prelude.{◌≡◌, ◌+◌, ◌-◌, ◌<◌, ◌≤◌, ◌++◌, [], OnErr, OnOk, length};
ghost use Rattle.std.specs.Prelude.{slice_index};
ghost use Rattle.std.specs.List.Sorted.{IsStrictlyIncreasing};
ghost use Rattle.rbac_reaches.specs.Spans.{places_from, span_places, IsCounted, AddsSpan};
ghost use Rattle.rbac_model.specs.Universes.{most_targets};

use std::alloc::{AllocError, Global};
use std::marker::Model;

// The places from `start` up to `end`; `before` is how many places the runs before this one have.
#[derive(Clone, Copy)]
pub(crate) struct Span {
    pub(crate) start: u32,
    pub(crate) end: u32,
    pub(crate) before: u32,
}

// Ascending places, each once: at most a million.
#[derive(Drop)]
pub(crate) struct Spans {
    spans: Vec<Span>,
    len: u32,
}

impl Model for Spans {
    ghost use Rattle.std.specs.Prelude.{ℕ, List};
    ghost use Rattle.rbac_reaches.specs.Spans.{span_places, AreSpans};

    ghost Value = { List ℕ };

    ghost view = { λ s. span_places s.spans.items };

    ghost invariant = { λ s. AreSpans s.spans.items s.len };
}

impl Spans {
    // No places. Doesn't allocate.
    pub(crate) fn new(alloc: Global) -> Self
        ensures { result ≡ [] }
    {
        Spans {
            spans: Vec::new(alloc),
            len: 0,
        }
    }

    // Adds the places from `start` up to `end` after the others, and lengthens the last run if it
    // ends at `start`.
    pub(crate) fn push(&mut self, start: u32, end: u32) -> Result<(), AllocError>
        requires some { start < end }
        requires small { end ≤ most_targets }
        requires ascending { IsStrictlyIncreasing (self.old ++ places_from start (end - start)) }
        requires few { length self.old + (end - start) ≤ most_targets }
        ensures { OnOk result (self.new ≡ self.old ++ places_from start (end - start)) }
    {
        let before = self.len;
        put(&mut self.spans, Span { start, end, before })?;
        self.len = before + (end - start);
        Ok(())
    }

    // How many places there are.
    pub(crate) fn len(&self) -> usize
        ensures len { result ≡ length self.now }
        ensures few { length self.now ≤ most_targets }
        ensures ascending { IsStrictlyIncreasing self.now }
    {
        self.len as usize
    }

    // The `i`-th place, from 0.
    pub(crate) fn get(&self, i: usize) -> u32
        requires { i < length self.now }
        ensures { result ≡ slice_index self.now i }
    {
        place_in(self.spans.as_slice(), self.len, i as u32)
    }
}

// Adds one more run after these, or lengthens the last one if it ends where the new one begins.
fn put(spans: &mut Vec<Span>, span: Span) -> Result<(), AllocError>
    requires counted { IsCounted 0 spans.old.items span.before }
    requires some { span.start < span.end }
    requires small { span.end ≤ most_targets }
    ensures put { OnOk result (AddsSpan spans.old.items span spans.new.items) }
    ensures kept { OnErr result (spans.new.items ≡ spans.old.items) }
{
    if let Some(last) = spans.last_mut() {
        if last.end == span.start {
            last.end = span.end;
            return Ok(());
        }
    }
    spans.push(span)?;
    Ok(())
}

// The `i`-th place, from 0, in runs that hold `len` places in all.
fn place_in(spans: &[Span], len: u32, i: u32) -> u32
    requires counted { IsCounted 0 spans.now len }
    requires within { i < len }
    ensures { result ≡ slice_index (span_places spans.now) i }
{
    let at = spans.partition_point(|span| span.before <= i);
    let span = spans[at - 1];
    span.start + (i - span.before)
}
