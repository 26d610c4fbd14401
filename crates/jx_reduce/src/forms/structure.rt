// The structure of a list of tokens: the first one or two of them, and one form of those after them.

ghost use Rattle.std.specs.Prelude.{◌≡◌, ◌≤◌, ◌<◌, ◌+◌, ◌-◌, ◌^◌, ◌∷◌, ◌++◌, ◌↔◌, ℕ, List, [], length, map, reverse, None, Some, IfOk, IfSome, IsSome, IsTrue, MatchResult};
ghost use Rattle.std.specs.Option.{SomeIff};
ghost use Rattle.jx_reduce.specs.Marks.{of_marks, of_nothing};
ghost use Rattle.jx_reduce.specs.Entries.{leads_to};
ghost use Rattle.jx_reduce.specs.Fits.{IsOfSize};
ghost use Rattle.jx_reduce.specs.Levels.{borrowed_form};
ghost use Rattle.jx_reduce.specs.Offsets.{EachIn, OffsetsIn, RisingFrom};
ghost use Rattle.jx_reduce.specs.Outcome.{reading_of};
ghost use Rattle.jx_reduce.specs.Parts.{borrowed_head, borrowed_structure, borrowed_tail, form_of_parts, string_head, structure_of_parts};
ghost use Rattle.jx_reduce.specs.Read.{changed, read, step, stopped, then_by, went, without_top};
ghost use Rattle.jx_reduce.specs.Reduced.{answer_of, depth_of, form_in};
ghost use Rattle.jx_reduce.specs.Shift.{shifted};
ghost use Rattle.jx_reduce.specs.Sound.{IsSound};
ghost use Rattle.jx_reduce.specs.Structure.{answer, IsBefore, IsJoin, IsOf, IsSmall, SpansIn, TailIn};
ghost use Rattle.jx_reduce.specs.Whole.{whole_of};
ghost use Rattle.jx_reduce.specs.Table.{added};
ghost use Rattle.jx_reduce.specs.inside.Structures.{followed_by, moved_mark, moved_tail, rest_head, rest_tail, of_making, AreBehind, BeginsWithNoString, IsBegun, KnowsDepth, MayFollow, Waits};
ghost use Rattle.jx_reduce.specs.declared.forms.entry.Entry.TheVariants.{Value as AnyValue};
ghost use Rattle.jx_reduce.specs.declared.table.expect.Expect.{Expect};
ghost use Rattle.jx_reduce.specs.declared.table.holder.Holder.{Holder};
ghost use Rattle.jx_lex.specs.declared.alphabet.mark.Mark.{Mark};

use crate::forms::act::top_of;
use crate::forms::checks::Bound;
use crate::forms::entry::Entry;
use crate::forms::entry_view::EntryView;
use crate::forms::levels::Levels;
use crate::forms::parts::{RestParts, RestRef, StructureParts, StructureRef};
use crate::forms::shift::Shift;
use crate::reducing::reduced::Reduced;
use crate::table::expect::Expect;
use crate::table::holder::Holder;
use crate::table::moves::next;
use crate::table::outcome::Outcome;
use crate::table::whole::Whole;
use jx_lex::{Depth, Mark, MarkKind};
use std::alloc::{AllocError, Global};
use std::marker::Model;

/// A token, and what the tokens after it lead to.
#[derive(Drop)]
pub(crate) struct Rest {
    mark: Mark,
    tail: Reduced,
}

/// A structure in the making: a string with which the tokens begin, the first token after it, and the form of those
/// after that. Where there is no such token the levels lead nowhere.
#[derive(Drop)]
pub(crate) struct Making {
    pub string: Option<usize>,
    pub first: Option<Mark>,
    pub levels: Levels,
}

/// The structure of a list of tokens: its outcome from each of the six expectations and for every list of open
/// containers at entry that is no longer than the depth. After the first token that is no string, or after a second
/// token, all expectations that go on are at the same place. So it keeps these one or two tokens, and one form of all
/// tokens after them.
#[derive(Drop)]
pub struct Structure {
    alloc: Global,
    pub(crate) depth: Depth,
    /// A string with which the tokens begin.
    string: Option<usize>,
    /// The first token after it, and those after that.
    rest: Option<Rest>,
}

impl Model for Structure {
    ghost use Rattle.jx_reduce.specs.Structure.{StructureValue};

    ghost Value = { StructureValue };

    ghost use Rattle.jx_reduce.specs.inside.Structures.{structure_of, IsSound, KnowsDepth};

    ghost view = { structure_of };

    ghost invariant = { λ a. IsSound (structure_of a) × KnowsDepth a.depth a.rest };
}

/// The expectation after the string at this offset, if there is one; or the string, where it is a fault.
fn behind_string(string: Option<usize>, expect: Expect) -> Result<Expect, usize>
    ensures { MatchResult result
        (λ e. (d : ℕ) (s : List Holder) → read d (string_head string) (went expect s) ≡ went e s)
        (λ at. (d : ℕ) (s : List Holder) → read d (string_head string) (went expect s) ≡ stopped at) }
{
    match string {
        None => Ok(expect),
        Some(at) => next(MarkKind::String, expect, Holder::Bottom).ok_or(at),
    }
}

/// These open containers without the innermost, which is the last.
fn without_innermost(holders: &[Holder]) -> &[Holder]
    ensures rest { reverse result.now ≡ without_top (reverse holders.now) }
    ensures fewer { length result.now ≤ length holders.now }
{
    match holders.split_last() {
        Some((_, rest)) => rest,
        None => holders,
    }
}

impl Rest {
    /// This token, and the tokens after it, which are read from where it leads.
    fn of(alloc: Global, mark: Mark, marks: &[Mark], depth: Depth) -> Result<Rest, AllocError>
        ensures mark { IfOk result (λ r. r.mark ≡ mark) }
        ensures depth { IfOk result (λ r. depth_of r.tail ≡ depth) }
        ensures form { IfOk result (λ r. form_in r.tail ≡ of_marks depth (of_nothing (leads_to mark.kind AnyValue)) marks.now) }
    {
        let entry = Entry::Value.leads_to(mark.kind);
        let tail = Reduced::of(alloc, entry, marks, depth)?;
        Ok(Rest { mark, tail })
    }

    /// Reads these tokens too.
    fn read_on(self, marks: &[Mark]) -> Result<Rest, AllocError>
        ensures mark { IfOk result (λ r. r.mark ≡ self.mark) }
        ensures depth { IfOk result (λ r. depth_of r.tail ≡ depth_of self.tail) }
        ensures form { IfOk result (λ r. form_in r.tail ≡ of_marks (depth_of self.tail) (form_in self.tail) marks.now) }
    {
        let Rest { mark, tail } = self;
        let tail = tail.read_on(marks)?;
        Ok(Rest { mark, tail })
    }

    /// Goes on with the tokens of a structure.
    fn followed_by(self, right: &Structure) -> Result<Rest, AllocError>
        requires { depth_of self.tail ≡ right.now.depth }
        ensures mark { IfOk result (λ r. r.mark ≡ self.mark) }
        ensures depth { IfOk result (λ r. depth_of r.tail ≡ depth_of self.tail) }
        ensures form { IfOk result (λ r. form_in r.tail ≡ followed_by (form_in self.tail) right.now) }
    {
        let Rest { mark, tail } = self;
        let tail = tail.followed_by(right)?;
        Ok(Rest { mark, tail })
    }

    /// The outcome of the token and those after it over these open containers.
    fn act(&self, alloc: Global, expect: Expect, holders: &[Holder]) -> Result<Outcome, AllocError>
        requires { length holders.now ≤ depth_of self.now.tail }
        ensures { IfOk result (λ o. reading_of o ≡ then_by (λ _ s. answer_of self.now.tail s) (step (depth_of self.now.tail) self.now.mark (went expect (reverse holders.now)))) }
    {
        let mark = self.mark;
        if next(mark.kind, expect, top_of(holders)).is_none() {
            return Ok(Outcome::Stopped(mark.at));
        }
        match mark.kind {
            MarkKind::OpenArray => self.act_inside(alloc, Holder::Array, holders),
            MarkKind::OpenObject => self.act_inside(alloc, Holder::Object, holders),
            MarkKind::CloseArray | MarkKind::CloseObject => {
                self.tail.act(without_innermost(holders))
            }
            _ => self.tail.act(holders),
        }
    }

    /// The outcome of the tokens after it in a container that the token opens.
    fn act_inside(
        &self,
        alloc: Global,
        holder: Holder,
        holders: &[Holder],
    ) -> Result<Outcome, AllocError>
        requires { length holders.now ≤ depth_of self.now.tail }
        ensures { IfOk result (λ o. (e : Expect) → reading_of o ≡ then_by (λ _ s. answer_of self.now.tail s) (changed (depth_of self.now.tail) self.now.mark.at (added holder) e (reverse holders.now))) }
    {
        if holders.len() >= self.tail.depth().containers() as usize {
            return Ok(Outcome::TooDeep(self.mark.at));
        }
        let mut inside = Vec::with_capacity(alloc, holders.len() + 1)?;
        inside.extend_from_slice(holders)?;
        inside.push(holder)?;
        self.tail.act(&inside)
    }

    /// The outcome of the token and those after it over no open container.
    fn whole(&self, expect: Expect) -> Whole
        ensures { result ≡ whole_of (then_by (λ _ s. answer_of self.now.tail s) (step (depth_of self.now.tail) self.now.mark (went expect []))) }
    {
        let mark = self.mark;
        if next(mark.kind, expect, Holder::Bottom).is_none() {
            return Whole::Stopped(mark.at);
        }
        match mark.kind {
            MarkKind::OpenArray => self.whole_inside(Holder::Array),
            MarkKind::OpenObject => self.whole_inside(Holder::Object),
            _ => self.tail.whole(),
        }
    }

    /// The outcome of the tokens after it in a container that the token opens, and that is the outermost.
    fn whole_inside(&self, holder: Holder) -> Whole
        ensures { (e : Expect) → result ≡ whole_of (then_by (λ _ s. answer_of self.now.tail s) (changed (depth_of self.now.tail) self.now.mark.at (added holder) e [])) }
    {
        if self.tail.depth().containers() == 0 {
            return Whole::TooDeep(self.mark.at);
        }
        self.tail.whole_over(&[holder])
    }

    /// A value equal to this one.
    fn copy(&self) -> Result<Rest, AllocError>
        ensures mark { IfOk result (λ r. r.mark ≡ self.now.mark) }
        ensures depth { IfOk result (λ r. depth_of r.tail ≡ depth_of self.now.tail) }
        ensures form { IfOk result (λ r. form_in r.tail ≡ form_in self.now.tail) }
    {
        let tail = self.tail.copy()?;
        Ok(Rest {
            mark: self.mark,
            tail,
        })
    }
}

impl Rest {
    /// The rest that has these parts after this string, where they are sound.
    fn of_parts(depth: Depth, string: Option<usize>, parts: RestParts) -> Option<Rest>
        ensures mark { IfSome result (λ r. r.mark ≡ parts.mark) }
        ensures depth { IfSome result (λ r. depth_of r.tail ≡ depth) }
        ensures form { IfSome result (λ r. form_in r.tail ≡ form_of_parts parts.tail) }
        ensures sound { IsSome result ↔ IsSound (structure_of_parts depth (record { string = string; rest = Some parts })) }
    {
        let RestParts { mark, tail } = parts;
        if !stands_behind(mark, string) {
            return None;
        }
        let levels = tail.levels();
        if !levels.lie_in(Bound::Above(mark.at)) {
            return None;
        }
        let tail = Reduced::of_levels(depth, levels)?;
        Some(Rest { mark, tail })
    }

    /// Its parts, borrowed.
    fn parts(&self) -> RestRef<'_>
        ensures mark { result.mark ≡ self.now.mark }
        ensures form { borrowed_form result.tail ≡ form_in self.now.tail }
    {
        RestRef {
            mark: self.mark,
            tail: self.tail.borrowed(),
        }
    }

    /// Whether each offset that is kept is below this one.
    fn lies_below(&self, end: usize) -> bool
        ensures { IsTrue result ↔ (self.now.mark.at < end) × OffsetsIn (λ p. p < end) (form_in self.now.tail) }
    {
        self.mark.at < end && self.tail.lies_in(Bound::Below(end))
    }
}

/// The parts of what follows the first string, if anything does.
fn parts_of(rest: &Option<Rest>) -> Option<RestRef<'_>>
    ensures head { borrowed_head result ≡ rest_head rest.now }
    ensures tail { borrowed_tail result ≡ rest_tail rest.now }
{
    match rest {
        Some(rest) => Some(rest.parts()),
        None => None,
    }
}

/// Whether what follows the first string keeps no offset from this one on.
fn ends_below(rest: &Option<Rest>, end: usize) -> bool
    ensures { IsTrue result ↔ EachIn (λ m. m.at < end) (rest_head rest.now) × TailIn (λ p. p < end) (rest_tail rest.now) }
{
    match rest {
        Some(rest) => rest.lies_below(end),
        None => true,
    }
}

/// Whether a token follows this string, if there is one.
fn stands_behind(mark: Mark, string: Option<usize>) -> bool
    ensures { IsTrue result ↔ RisingFrom 0 (string_head string ++ mark ∷ []) }
{
    match string {
        Some(at) => at < mark.at,
        None => true,
    }
}

/// A copy of what follows the first string, if anything does.
fn copy_of(rest: &Option<Rest>) -> Result<Option<Rest>, AllocError>
    ensures head { IfOk result (λ r. rest_head r ≡ rest_head rest.now) }
    ensures tail { IfOk result (λ r. rest_tail r ≡ rest_tail rest.now) }
    ensures depth { IfOk result (λ r. (d : ℕ) → KnowsDepth d rest.now → KnowsDepth d r) }
{
    match rest {
        Some(rest) => Ok(Some(rest.copy()?)),
        None => Ok(None),
    }
}

/// The first token and those after it, which are read from where it leads.
fn begun(alloc: Global, marks: &[Mark], depth: Depth) -> Result<Option<Rest>, AllocError>
    ensures { IfOk result (IsBegun depth marks.now) }
{
    match marks.split_first() {
        Some((mark, more)) => Ok(Some(Rest::of(alloc, *mark, more, depth)?)),
        None => Ok(None),
    }
}

/// The string with which tokens begin, of which this one may be known, and the tokens after it.
fn split_string(known: Option<usize>, marks: &[Mark]) -> (Option<usize>, &[Mark])
    ensures same { string_head result.0 ++ result.1.now ≡ string_head known ++ marks.now }
    ensures first { result.0 ≡ None → BeginsWithNoString result.1.now }
{
    if known.is_none() {
        if let Some((first, more)) = marks.split_first() {
            if matches!(first.kind, MarkKind::String) {
                return (Some(first.at), more);
            }
        }
    }
    (known, marks)
}

/// The rest after the tokens of two sides, of which the left has no more than this string.
fn behind_strings(
    alloc: Global,
    string: Option<usize>,
    right: &Structure,
) -> Result<(Option<usize>, Option<Rest>), AllocError>
    ensures { IfOk result (λ j. AreBehind right.now.depth string right.now j.0 j.1) }
{
    match (string, right.string) {
        (Some(_), Some(at)) => {
            // After two strings nothing goes on, so any form serves.
            let tail = Reduced::new(alloc, Entry::After, right.depth);
            let mark = Mark {
                kind: MarkKind::String,
                at,
            };
            Ok((string, Some(Rest { mark, tail })))
        }
        (None, other) => Ok((other, copy_of(&right.rest)?)),
        (Some(_), None) => Ok((string, copy_of(&right.rest)?)),
    }
}

/// The rest after the first string, if there is any, so many bytes further on.
fn moved(rest: Option<Rest>, by: usize) -> Option<Rest>
    ensures head { rest_head result ≡ map (moved_mark by) (rest_head rest) }
    ensures tail { rest_tail result ≡ moved_tail by (rest_tail rest) }
    ensures depth { (d : ℕ) → KnowsDepth d rest → KnowsDepth d result }
{
    match rest {
        Some(Rest { mark, mut tail }) => {
            tail.shift(by);
            let mark = Mark {
                kind: mark.kind,
                at: mark.at.shifted(by),
            };
            Some(Rest { mark, tail })
        }
        None => None,
    }
}

impl Reduced {
    /// Goes on with the tokens of a structure after its own. It takes the form by value, since only some of them were
    /// read when out of memory.
    pub(crate) fn followed_by(self, right: &Structure) -> Result<Reduced, AllocError>
        requires { depth_of self ≡ right.now.depth }
        ensures depth { IfOk result (λ r. depth_of r ≡ depth_of self) }
        ensures form { IfOk result (λ r. form_in r ≡ followed_by (form_in self) right.now) }
    {
        let form = match right.string {
            Some(at) => self.read_on(&[Mark {
                kind: MarkKind::String,
                at,
            }])?,
            None => self,
        };
        match &right.rest {
            Some(rest) => {
                let mut form = form.read_on(&[rest.mark])?;
                form.extend(&rest.tail)?;
                Ok(form)
            }
            None => Ok(form),
        }
    }
}

impl Structure {
    /// The structure of no tokens. It takes no memory.
    pub fn new(alloc: Global, depth: Depth) -> Structure
        ensures depth { result.depth ≡ depth }
        ensures reads { IsOf [] result }
        ensures offsets { (low high : ℕ) → SpansIn low high result }
    {
        Structure {
            alloc,
            depth,
            string: None,
            rest: None,
        }
    }

    /// The structure of these tokens, each of which is read once. It fails only when out of memory.
    pub fn of(alloc: Global, marks: &[Mark], depth: Depth) -> Result<Structure, AllocError>
        requires rising { RisingFrom 0 marks.now }
        ensures depth { IfOk result (λ f. f.depth ≡ depth) }
        ensures reads { IfOk result (λ f. IsOf marks.now f) }
        ensures offsets { IfOk result (λ f. (low high : ℕ) → EachIn (λ m. (low ≤ m.at) × (m.at < high)) marks.now → SpansIn low high f) }
    {
        Structure::new(alloc, depth).read_on(marks)
    }

    /// Reads these tokens too, which follow its own. It takes the structure by value, since only some of the tokens
    /// were read when out of memory.
    pub(crate) fn read_on(self, marks: &[Mark]) -> Result<Structure, AllocError>
        requires behind { MayFollow self marks.now }
        ensures depth { IfOk result (λ f. f.depth ≡ self.depth) }
        ensures reads { IfOk result (λ f. (e : Expect) (s : List Holder) → length s ≤ self.depth → answer f e s ≡ read self.depth marks.now (answer self e s)) }
        ensures offsets { IfOk result (λ f. (low high : ℕ) → SpansIn low high self → EachIn (λ m. (low ≤ m.at) × (m.at < high)) marks.now → SpansIn low high f) }
    {
        let Structure {
            alloc,
            depth,
            string,
            rest,
        } = self;
        match rest {
            Some(rest) => {
                let rest = Some(rest.read_on(marks)?);
                Ok(Structure {
                    alloc,
                    depth,
                    string,
                    rest,
                })
            }
            None => {
                let (string, more) = split_string(string, marks);
                let rest = begun(alloc, more, depth)?;
                Ok(Structure {
                    alloc,
                    depth,
                    string,
                    rest,
                })
            }
        }
    }

    /// The structure that is made so far.
    pub(crate) fn of_making(alloc: Global, depth: Depth, making: Making) -> Structure
        requires sound { IsSound (of_making depth making) }
        ensures { result ≡ of_making depth making }
    {
        let Making {
            string,
            first,
            levels,
        } = making;
        let rest = match first {
            Some(mark) => Some(Rest {
                mark,
                tail: Reduced::with_levels(depth, levels),
            }),
            None => None,
        };
        Structure {
            alloc,
            depth,
            string,
            rest,
        }
    }

    /// The structure in the making, where more tokens are read one by one.
    pub(crate) fn into_making(self) -> Making
        ensures same { of_making self.depth result ≡ self }
        ensures sound { IsSound self }
        ensures waits { Waits result }
    {
        let Structure {
            alloc,
            string,
            rest,
            ..
        } = self;
        match rest {
            Some(Rest { mark, tail }) => Making {
                string,
                first: Some(mark),
                levels: tail.into_levels(),
            },
            None => Making {
                string,
                first: None,
                levels: Levels::nowhere(alloc),
            },
        }
    }

    /// Where its memory comes from.
    pub(crate) fn allocator(&self) -> Global {
        self.alloc
    }

    /// The number of containers that may stand open at once.
    pub fn depth(&self) -> Depth
        ensures { result ≡ self.now.depth }
    {
        self.depth
    }

    /// The view of the tokens from this expectation.
    pub fn entry(&self, expect: Expect) -> EntryView<'_>
        ensures entry { result ≡ record { structure = self.now; expect = expect } }
        ensures size { IsSmall self.now.depth self.now }
    {
        // Shows the proof what every structure keeps.
        let _ = &self.depth;
        EntryView {
            structure: self,
            expect,
        }
    }

    /// The outcome of the tokens from this expectation over these open containers, outermost first and none of them
    /// `Bottom`. The earlier of two offsets is answered, and `Stopped` where they are equal. It fails only when out of
    /// memory.
    pub fn act(&self, expect: Expect, holders: &[Holder]) -> Result<Outcome, AllocError>
        requires { length holders.now ≤ self.now.depth }
        ensures { IfOk result (λ o. reading_of o ≡ answer self.now expect (reverse holders.now)) }
    {
        let expect = match behind_string(self.string, expect) {
            Ok(expect) => expect,
            Err(at) => return Ok(Outcome::Stopped(at)),
        };
        match &self.rest {
            Some(rest) => rest.act(self.alloc, expect, holders),
            None => {
                let holders = Vec::from_slice(self.alloc, holders)?;
                Ok(Outcome::Went { expect, holders })
            }
        }
    }

    /// The outcome that `act` answers on the empty list, with the number of open containers in place of their list. It
    /// takes no memory.
    pub fn whole(&self, expect: Expect) -> Whole
        ensures { result ≡ whole_of (answer self.now expect []) }
    {
        let expect = match behind_string(self.string, expect) {
            Ok(expect) => expect,
            Err(at) => return Whole::Stopped(at),
        };
        match &self.rest {
            Some(rest) => rest.whole(expect),
            None => Whole::Went { expect, open: 0 },
        }
    }

    /// The form of the tokens from this expectation, which is made of the first tokens and of the form after them.
    pub fn reduced(&self, expect: Expect) -> Result<Reduced, AllocError>
        ensures depth { IfOk result (λ r. depth_of r ≡ self.now.depth) }
        ensures answers { IfOk result (λ r. (s : List Holder) → length s ≤ self.now.depth → answer_of r s ≡ answer self.now expect s) }
        ensures size { IfOk result (λ r. IsOfSize self.now.depth (form_in r)) }
    {
        // Shows the proof what every structure keeps.
        let _ = &self.depth;
        let reduced = self.from_entry(Entry::of(expect))?;
        Ok(reduced)
    }

    /// The form of the tokens from this entry.
    pub(crate) fn from_entry(&self, entry: Entry) -> Result<Reduced, AllocError>
        ensures depth { IfOk result (λ r. depth_of r ≡ self.now.depth) }
        ensures form { IfOk result (λ r. form_in r ≡ followed_by (of_nothing entry) self.now) }
    {
        Reduced::new(self.alloc, entry, self.depth).followed_by(self)
    }

    /// A value equal to this one. It fails only when out of memory.
    pub fn copy(&self) -> Result<Structure, AllocError>
        ensures { IfOk result (λ r. r ≡ self.now) }
    {
        let rest = copy_of(&self.rest)?;
        Ok(Structure {
            alloc: self.alloc,
            depth: self.depth,
            string: self.string,
            rest,
        })
    }

    /// The structure of the tokens of both sides, the right's after the left's. No token is looked at again. It takes
    /// the left by value, and fails only when out of memory.
    pub fn extended(self, right: &Structure) -> Result<Structure, AllocError>
        requires depth { self.depth ≡ right.now.depth }
        requires before { IsBefore self right.now }
        ensures depth { IfOk result (λ j. j.depth ≡ self.depth) }
        ensures joined { IfOk result (IsJoin self right.now) }
        ensures marks { IfOk result (λ j. (ms ns : List Mark) → IsOf ms self → IsOf ns right.now → IsOf (ms ++ ns) j) }
        ensures offsets { IfOk result (λ j. (low high : ℕ) → SpansIn low high self → SpansIn low high right.now → SpansIn low high j) }
    {
        // Shows the proof what holds of every right side.
        let _ = &right.depth;
        let Structure {
            alloc,
            depth,
            string,
            rest,
        } = self;
        match rest {
            Some(rest) => {
                let rest = Some(rest.followed_by(right)?);
                Ok(Structure {
                    alloc,
                    depth,
                    string,
                    rest,
                })
            }
            None => {
                let (string, rest) = behind_strings(alloc, string, right)?;
                Ok(Structure {
                    alloc,
                    depth,
                    string,
                    rest,
                })
            }
        }
    }

    /// The parts of the structure, borrowed.
    pub fn parts(&self) -> StructureRef<'_>
        ensures parts { borrowed_structure self.now.depth result ≡ self.now }
        ensures sound { IsSound self.now }
    {
        // Shows the proof what every structure keeps.
        let _ = &self.depth;
        StructureRef {
            string: self.string,
            rest: parts_of(&self.rest),
        }
    }

    /// The structure that has these parts, where they are sound: the string is before the token, and the token before
    /// all offsets of the form, which is within the depth. It takes no memory.
    pub fn of_parts(alloc: Global, depth: Depth, parts: StructureParts) -> Option<Structure>
        ensures { SomeIff result (IsSound (structure_of_parts depth parts)) (structure_of_parts depth parts) }
    {
        let StructureParts { string, rest } = parts;
        match rest {
            Some(rest) => {
                let rest = Some(Rest::of_parts(depth, string, rest)?);
                Some(Structure {
                    alloc,
                    depth,
                    string,
                    rest,
                })
            }
            None => Some(Structure {
                alloc,
                depth,
                string,
                rest: None,
            }),
        }
    }

    /// Whether each offset that is kept is below this one.
    pub fn lies_below(&self, end: usize) -> bool
        ensures { IsTrue result ↔ SpansIn 0 end self.now }
    {
        if !Bound::Below(end).has_fault(self.string) {
            return false;
        }
        ends_below(&self.rest, end)
    }

    /// The structure of the same tokens so many bytes further on. It takes no memory.
    pub fn shifted(self, by: usize) -> Structure
        requires fits { SpansIn 0 (2 ^ 64 - by) self }
        ensures depth { result.depth ≡ self.depth }
        ensures answers { (expect : Expect) (holders : List Holder) → length holders ≤ self.depth → answer result expect holders ≡ shifted by (answer self expect holders) }
        ensures offsets { (low high : ℕ) → SpansIn low high self → SpansIn (by + low) (by + high) result }
    {
        let Structure {
            alloc,
            depth,
            string,
            rest,
        } = self;
        Structure {
            alloc,
            depth,
            string: string.shifted(by),
            rest: moved(rest, by),
        }
    }
}
