// JSON Lines that are read from their start, and of which workers judge parts.
ghost use Rattle.std.specs.Prelude.{◌≡◌, ◌++◌, [], List, ℕ};
ghost use Rattle.jx_run.specs.declared.texts.settings.Settings.{Settings};
ghost use Rattle.jx_ndjson.specs.declared.judged_line.JudgedLine.{JudgedLine};
ghost use Rattle.jx_ndjson.specs.Reading.{listed};
ghost use Rattle.jx_ndjson.specs.Tally.{HasTaken, IsTallied};
ghost use Rattle.jx_parallel.specs.declared.part_reader.PartRule.{PartRule};
ghost use Rattle.jx_parallel_report.specs.inside.Lines.{HasRead};

use jx_lex::Span;
use jx_ndjson::{
    JudgedLine, LineEnd, LineTally, WholeLines, ended_lines_of_a_reader, lines_of_part,
    whole_lines_of,
};
use jx_parallel::{Judged, PartReader, PartRule};
use jx_run::Settings;
use std::alloc::{AllocError, Global};
use std::marker::{Brand, PhantomData};

/// How many bytes a part has at least for each line that is not valid JSON. A part that has more of these is not kept.
const BYTES_FOR_A_LINE: usize = 64;

/// How many lines wait at most, beside those of one read, before the reader is full.
const FULL: usize = 256 * 1024;

/// How lines are read, and what is written of those that are given. A call picks it, so that values of one type are of one task.
pub(crate) trait Asked {
    ghost use Rattle.std.specs.Prelude.{ℕ, List};
    ghost use Rattle.jx_run.specs.declared.texts.settings.Settings.{Settings};
    ghost use Rattle.jx_ndjson.specs.declared.judged_line.JudgedLine.{JudgedLine};

    /// How each line is read.
    ghost settings: { Settings };

    /// The bytes that are written of lines.
    ghost told: { List JudgedLine → List ℕ };
}

impl Asked for Brand {
    ghost use Rattle.std.specs.Prelude.{[]};
    ghost use Rattle.jx_run.specs.declared.texts.settings.FrontMark.TheVariants.{Refused};
    ghost use Rattle.jx_run.specs.declared.texts.settings.NameRule.TheVariants.{Any};

    ghost settings = { record { depth = 0; mark = Refused; names = Any } };

    ghost told = { λ _. [] };
}

/// A reading of JSON Lines from their start. Those that are not valid JSON wait to be written.
#[derive(Drop)]
pub(crate) struct LinesReader<K: Asked> {
    tally: LineTally,
    of: PhantomData<K>,
}

impl<K: Asked> LinesReader<K> {
    /// A reader before the first byte. Nothing is allocated.
    pub fn new(alloc: Global, rule: &PartRule, settings: &Settings) -> LinesReader<K>
        requires settings { K.settings ≡ settings.now }
        requires depth { rule.now.depth ≡ settings.now.depth }
        requires told { K.told [] ≡ [] }
        ensures read { HasRead K.settings K.told rule.now [] [] result.tally }
        ensures none_wait { result.tally.waiting ≡ [] }
    {
        ended_lines_of_a_reader();
        LinesReader {
            tally: LineTally::new(alloc, settings),
            of: PhantomData,
        }
    }

    /// The lines that wait, in their order.
    pub fn waiting(&self) -> &[JudgedLine]
        ensures { result.now ≡ self.now.tally.waiting }
    {
        self.tally.waiting()
    }

    /// Lets the lines that wait go: they were written.
    pub fn clear_waiting(&mut self)
        requires told { (given more : List JudgedLine) → K.told (given ++ more) ≡ K.told given ++ K.told more }
        ensures read { (rule : PartRule) (xs written : List ℕ) → HasRead K.settings K.told rule xs written self.old.tally
            → HasRead K.settings K.told rule xs (written ++ K.told self.old.tally.waiting) self.new.tally }
        ensures none_wait { self.new.tally.waiting ≡ [] }
        ensures end { self.new.tally.lines ≡ self.old.tally.lines }
    {
        self.tally.clear_waiting();
    }

    /// The report that is left if the lines end here, after those that wait.
    pub fn told_at_end(&self) -> LineEnd
        ensures { (settings : Settings) (input : List ℕ) (given : List JudgedLine) → HasTaken settings input given self.now.tally
            → IsTallied settings input (given ++ self.now.tally.waiting ++ listed result.bad) result.counts }
    {
        self.tally.told_at_end()
    }
}

impl<K: Asked> PartReader for LinesReader<K> {
    ghost use Rattle.std.specs.Prelude.{◌+◌, ℕ, List};
    ghost use Rattle.jx_parallel_report.specs.inside.Lines.{HasRead, IsPart};

    type Rule = PartRule;

    type Part = WholeLines;

    ghost Given = { List ℕ };

    ghost is_part = { IsPart };

    ghost has_read = { λ rule xs written r. HasRead K.settings K.told rule xs written r.tally };

    ghost end = { λ r. r.tally.lines.reader.start + r.tally.lines.reader.count };

    fn judge(
        alloc: Global,
        rule: &PartRule,
        bytes: &[u8],
        _at: usize,
    ) -> Result<Option<Judged<WholeLines>>, AllocError> {
        let Some(Span { start, end }) = whole_lines_of(bytes) else {
            return Ok(None);
        };
        let most = (end - start) / BYTES_FOR_A_LINE;
        match lines_of_part(alloc, &bytes[start..end], rule.depth, most)? {
            None => Ok(None),
            Some(part) => Ok(Some(Judged {
                part,
                from: start,
                to: end,
            })),
        }
    }

    fn end(&self) -> usize {
        self.tally.end()
    }

    fn feed(&mut self, _rule: &PartRule, bytes: &[u8]) -> Result<(), AllocError> {
        self.tally.feed(bytes)
    }

    fn take(&mut self, _rule: &PartRule, part: WholeLines, len: usize) -> Result<bool, AllocError> {
        if part.len() != len || !self.tally.is_between() {
            return Ok(false);
        }
        self.tally.take_whole(&part)?;
        Ok(true)
    }

    fn is_full(&self) -> bool {
        self.tally.waiting().len() >= FULL
    }
}
