ghost use Rattle.std.specs.Prelude.{◌≡◌, ◌≢◌, ◌≤◌, length, slice_range, IfOk, IfErr, IfSome, IfNone, true, false};
ghost use Rattle.jx_book.specs.Runs.{HeldValue, held};
ghost use Rattle.jx_book.specs.Joined.{IsJoin, IsJoinFault, IsCommon, IsOtherRun};

use jx_summary::{Depth, JoinFault, Span, Summary};
use std::alloc::{AllocError, Global};
use std::fmt::Debug;
use std::marker::Model;
use thiserror::Error;

/// A run with the text that it was read from. It is the summary of exactly the bytes of its span in that text.
#[derive(Debug, Drop)]
pub struct Held<'a, S: Summary> {
    run: S,
    text: &'a [u8],
}

/// Why two runs were not joined. Both are handed back, the left one first.
#[derive(Debug, Drop, Error)]
#[error_bound(S: Debug)]
pub enum HeldFault<'a, S: Summary> {
    /// There was no memory.
    #[error("no memory to join two runs")]
    Memory(Held<'a, S>, Held<'a, S>),
    /// They were read from different texts, or at different depths.
    #[error("the runs are of two texts or two depths")]
    Other(Held<'a, S>, Held<'a, S>),
}

impl<'a, S: Summary> Model for Held<'a, S> {
    ghost use Rattle.std.specs.Prelude.{◌≤◌, length, slice_range};
    ghost use Rattle.jx_book.specs.Runs.{HeldValue, held};

    ghost Value = { HeldValue S };

    ghost view = { λ h. held h.run h.text.now (S.span h.run) (S.depth h.run) };

    ghost invariant = { λ h. ((S.span h.run).start ≤ (S.span h.run).end) × ((S.span h.run).end ≤ length h.text.now) × S.is_of h.run (slice_range h.text.now (S.span h.run).start (S.span h.run).end) };
}

impl<'a, S: Summary> Held<'a, S> {
    /// Reads the bytes from the offset `start` up to the offset `end`. It fails only when out of memory.
    pub fn read(
        alloc: Global,
        text: &'a [u8],
        start: usize,
        end: usize,
        depth: Depth,
    ) -> Result<Held<'a, S>, AllocError>
        requires ordered { start ≤ end }
        requires within { end ≤ length text.now }
        ensures text { IfOk result (λ h. h.text ≡ text.entry.now) }
        ensures span { IfOk result (λ h. h.span ≡ record { start = start; end = end }) }
        ensures depth { IfOk result (λ h. h.depth ≡ depth) }
    {
        let run = S::of(alloc, text, start, end, depth)?;
        Ok(Held { run, text })
    }

    /// The run, which is the summary of exactly its bytes.
    pub fn run(&self) -> &S
        ensures run { result.now ≡ self.now.run }
        ensures span { S.span self.now.run ≡ self.now.span }
        ensures depth { S.depth self.now.run ≡ self.now.depth }
        ensures of { S.is_of self.now.run (slice_range self.now.text self.now.span.start self.now.span.end) }
        ensures within { (self.now.span.start ≤ self.now.span.end) × (self.now.span.end ≤ length self.now.text) }
    {
        &self.run
    }

    /// The run alone, which is the summary of exactly its bytes.
    pub fn into_run(self) -> S
        ensures run { result ≡ self.entry.run }
        ensures span { S.span result ≡ self.entry.span }
        ensures depth { S.depth result ≡ self.entry.depth }
        ensures of { S.is_of result (slice_range self.entry.text self.entry.span.start self.entry.span.end) }
    {
        let Held { run, .. } = self;
        run
    }

    /// The text that it carries.
    pub fn text(&self) -> &'a [u8]
        ensures { result.now ≡ self.now.text }
    {
        self.text
    }

    /// The span of its bytes in the text.
    pub fn span(&self) -> Span
        ensures span { result ≡ self.now.span }
        ensures within { (result.start ≤ result.end) × (result.end ≤ length self.now.text) }
    {
        self.run.span()
    }

    /// The depth that it was read with.
    pub fn depth(&self) -> Depth
        ensures { result ≡ self.now.depth }
    {
        self.run.depth()
    }

    /// Joins two neighbours of one text and one depth. Compares the bytes of the shorter side in both texts. The joined
    /// run carries the text of the longer side, or the right one's if both have one length.
    pub fn join(self, right: Held<'a, S>) -> Result<Held<'a, S>, HeldFault<'a, S>>
        requires neighbours { self.span.end ≡ right.span.start }
        ensures ok { IfOk result (λ h. IsJoin self.entry right.entry h) }
        ensures err { IfErr result (λ f. IsJoinFault self.entry right.entry f) }
    {
        if self.run.depth() != right.run.depth() {
            return Err(HeldFault::Other(self, right));
        }
        let Some(longer) = common(self.text, right.text, self.run.span(), right.run.span()) else {
            return Err(HeldFault::Other(self, right));
        };
        let Held { run, text } = self;
        let Held {
            run: other,
            text: other_text,
        } = right;
        match run.join(other) {
            Ok(run) => Ok(Held { run, text: longer }),
            Err(JoinFault { left, right }) => Err(HeldFault::Memory(
                Held { run: left, text },
                Held {
                    run: right,
                    text: other_text,
                },
            )),
        }
    }

    /// Carries another text from now on, where that has the run's bytes at its span, and the depth is the run's.
    pub(crate) fn carry(&mut self, text: &'a [u8], depth: Depth) -> bool
        ensures yes { result ≡ true → (self.new ≡ held self.old.run text.entry.now self.old.span self.old.depth) × (self.old.depth ≡ depth) × (self.old.span.end ≤ length text.entry.now) }
        ensures no { result ≡ false → (self.new ≡ self.old) × IsOtherRun text.entry.now depth self.old }
    {
        if self.run.depth() != depth || !agrees(self.text, text, self.run.span()) {
            return false;
        }
        self.text = text;
        true
    }
}

/// The text of the longer of two neighbours, where the other's bytes stand in it too.
fn common<'a>(text: &'a [u8], other: &'a [u8], span: Span, next: Span) -> Option<&'a [u8]>
    requires left { (span.start ≤ span.end) × (span.end ≤ length text.now) }
    requires right { (next.start ≤ next.end) × (next.end ≤ length other.now) }
    requires neighbours { span.end ≡ next.start }
    ensures some { IfSome result (λ t. IsCommon text.entry.now other.entry.now span next t.now) }
    ensures none { IfNone result (text.entry.now ≢ other.entry.now) }
{
    if next.end - next.start < span.end - span.start {
        if agrees(other, text, next) {
            Some(text)
        } else {
            None
        }
    } else if agrees(text, other, span) {
        Some(other)
    } else {
        None
    }
}

/// Whether the other text has the same bytes there.
fn agrees(text: &[u8], other: &[u8], span: Span) -> bool
    requires { (span.start ≤ span.end) × (span.end ≤ length text.now) }
    ensures yes { result ≡ true → (span.end ≤ length other.now) × (slice_range text.now span.start span.end ≡ slice_range other.now span.start span.end) }
    ensures no { result ≡ false → (span.end ≤ length other.now) → slice_range text.now span.start span.end ≢ slice_range other.now span.start span.end }
{
    span.end <= other.len() && text[span.start..span.end] == other[span.start..span.end]
}
