// A JSON text whose objects may repeat no name, fed slice by slice.
ghost use Rattle.std.specs.Prelude.{◌≡◌, ◌+◌, ◌<◌, ◌^◌, ◌++◌, [], ℕ, List, Some, false, length, IfOk, IsErr, OnOk, OnErr};
ghost use Rattle.jx_lex.specs.declared.alphabet.mark.Mark.{Mark};
ghost use Rattle.jx_run.specs.declared.texts.settings.NameRule.TheVariants.{Unique};
ghost use Rattle.jx_run.specs.declared.texts.settings.Settings.{Settings};
ghost use Rattle.jx_run.specs.Reader.{HasRead, HasFailed, Outcome, is_fault};
ghost use Rattle.jx_run.specs.Telling.{moved_ends, moved_marks, track_of};
ghost use Rattle.jx_index.specs.ByNames.{IsVerdictBy};
ghost use Rattle.jx_index.specs.inside.InTurn.{AreInTurn, AreInTurn-prop, IsInTurn};
ghost use Rattle.jx_index.specs.inside.NameLists.{accepted_unless};
ghost use Rattle.jx_names.specs.declared.held.Held.{Held as HeldOf};
ghost use Rattle.jx_names.specs.inside.HeldNames.{IsHeld};

use crate::held::Held;
use crate::on_slice::{Before, OnSlice};
use jx_index::index_behind_a_front;
use jx_lex::grammar_of_tokens;
use jx_run::{
    Reader, Refusal, Settings, Verdict, accepted_texts_stand_behind_fronts, reader_and_grammar,
    slices_are_told_in_turn, unique_verdict_by_settings,
};
use std::alloc::{AllocError, Global};
use std::marker::Brand;

/// A reader of a JSON text (RFC 8259) whose objects may repeat no name (section 4), which is fed by slices of any length. It
/// keeps the names of open objects, by bytes that stand for their UTF-16 code units, and of the text only the bytes of a name
/// that has begun and not ended.
#[derive(Drop)]
pub struct NamesReader {
    reader: Reader,
    /// None when out of memory.
    held: Option<Held>,
    // A token has begun just where the reader stands inside one.
    ghost turn: { AreInTurn (λ (h : HeldOf). h.begun) reader.outcome held } by { AreInTurn-prop (λ (h : HeldOf). h.begun) reader.outcome held },
}

/// Reads a slice after all bytes that were read, and keeps its names.
fn feed_held<B: Before>(reader: &mut Reader, held: Held, slice: &[u8]) -> Result<Held, AllocError>
    requires fits { reader.old.start + reader.old.count + length slice.now < 2 ^ 64 }
    requires slice { slice.now ≡ B.slice }
    requires base { (bytes : List ℕ) (marks : List Mark) (ends : List ℕ) → B.held bytes marks ends → reader.old.start + reader.old.count ≡ length bytes }
    requires held { (bytes : List ℕ) (marks : List Mark) (ends : List ℕ) → B.held bytes marks ends
        → IsHeld bytes marks ends held.names held.begun held.name.items }
    requires turn { IsInTurn reader.old.outcome held.begun }
    ensures settings { reader.new.settings ≡ reader.old.settings }
    ensures start { reader.new.start ≡ reader.old.start }
    ensures reads { OnOk result ((bytes : List ℕ) → HasRead bytes reader.old → HasRead (bytes ++ slice.now) reader.new) }
    ensures failed { HasFailed reader.old → IsErr result }
    ensures held { IfOk result (λ next. is_fault reader.new.outcome ≡ false → (before : Outcome) → reader.old.outcome ≡ Some before
        → (bytes : List ℕ) (marks : List Mark) (ends : List ℕ) → B.held bytes marks ends
        → IsHeld (bytes ++ B.slice) (marks ++ moved_marks (length bytes) (track_of before slice.now).marks) (ends ++ moved_ends (length bytes) (track_of before slice.now).ends)
        next.names next.begun next.name.items) }
    ensures turn { IfOk result (λ next. IsInTurn reader.new.outcome next.begun) }
{
    let base = reader.end();
    let sink: OnSlice<'_, B> = OnSlice::new(slice, base, held);
    let told = reader.feed_into(sink, slice)?;
    told.into_held()
}

/// The verdict on a text, unless a name is refused.
fn accepted_unless(name: Option<usize>) -> Verdict
    ensures { result ≡ accepted_unless name }
{
    match name {
        None => Verdict::Accepted,
        Some(at) => Verdict::Refused(Refusal::RepeatedName { at }),
    }
}

impl NamesReader {
    ghost use Rattle.jx_names.specs.Fed.{HasFed, IsLost, end_of};

    /// A reader that was fed no byte, by settings that let no object repeat a name. They may ignore a byte order mark in
    /// front of the text (section 8.1).
    pub fn new(alloc: Global, settings: &Settings) -> NamesReader
        requires unique { settings.now.names ≡ Unique }
        ensures fed { HasFed settings.now [] result }
    {
        slices_are_told_in_turn();
        NamesReader {
            reader: Reader::new(alloc, settings, 0),
            held: Some(Held::new(alloc)),
        }
    }

    /// The offset just past the last byte that it was fed.
    pub fn end(&self) -> usize
        ensures { result ≡ end_of self.now }
    {
        self.reader.end()
    }

    /// Reads the slice after all bytes that it was fed. Fails only when out of memory, and from then on for every slice.
    pub fn feed(&mut self, slice: &[u8]) -> Result<(), AllocError>
        requires fits { end_of self.old + length slice.now < 2 ^ 64 }
        ensures fed { OnOk result ((settings : Settings) (bytes : List ℕ) → HasFed settings bytes self.old → HasFed settings (bytes ++ slice.now) self.new) }
        ensures err { OnErr result (IsLost self.new) }
        ensures lost { IsLost self.old → IsErr result }
    {
        slices_are_told_in_turn();
        let Some(held) = self.held.take() else {
            return Err(AllocError);
        };
        let next = feed_held::<Brand>(&mut self.reader, held, slice)?;
        self.held = Some(next);
        Ok(())
    }

    /// The verdict on all bytes that it was fed. A text whose objects repeat names is refused for the first name whose UTF-16
    /// code units are those of an earlier name of the same object. `Err` where memory is or was refused.
    pub fn verdict(self) -> Result<Verdict, AllocError>
        ensures verdict { IfOk result (λ verdict. (settings : Settings) (bytes : List ℕ) → HasFed settings bytes self → IsVerdictBy settings bytes verdict) }
        ensures lost { IsLost self → IsErr result }
    {
        grammar_of_tokens();
        reader_and_grammar();
        unique_verdict_by_settings();
        accepted_texts_stand_behind_fronts();
        index_behind_a_front();
        let NamesReader { reader, held } = self;
        let Some(held) = held else {
            return Err(AllocError);
        };
        match reader.verdict() {
            Verdict::Refused(refusal) => Ok(Verdict::Refused(refusal)),
            Verdict::Accepted => {
                let names = held.into_names()?;
                Ok(accepted_unless(names.first()))
            }
        }
    }
}
