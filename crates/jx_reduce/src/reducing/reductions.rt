// The structure of a list of tokens, from each expectation.

ghost use Rattle.std.specs.Prelude.{◌≡◌, ◌≤◌, ◌<◌, ◌++◌, ◌+◌, ◌-◌, ◌^◌, ℕ, List, [], length, map, replicate, OnOk, OnErr, IfOk, IfErr};
ghost use Rattle.jx_reduce.specs.Offsets.{RisingFrom, EachIn};
ghost use Rattle.jx_reduce.specs.Fits.{IsOfSize};
ghost use Rattle.jx_reduce.specs.Reduced.{depth_of, form_in};
ghost use Rattle.jx_reduce.specs.Reductions.{answer, form_at, entry_of, IsJoin, IsBefore, IsOf, SpansIn};
ghost use Rattle.jx_reduce.specs.inside.Follow.{followed, IsReady, AreReady};
ghost use Rattle.jx_reduce.specs.Structure as one;
ghost use Rattle.jx_reduce.specs.Shift.{shifted};
ghost use Rattle.jx_reduce.specs.declared.table.expect.Expect.{Expect};
ghost use Rattle.jx_reduce.specs.declared.table.holder.Holder.{Holder};
ghost use Rattle.jx_lex.specs.declared.alphabet.mark.Mark.{Mark};

use crate::forms::entry::Entry;
use crate::forms::structure::Structure;
use crate::reducing::reduced::Reduced;
use crate::table::expect::Expect;
use jx_lex::{Depth, JoinFault, Mark};
use std::alloc::{AllocError, Global};
use std::array;
use std::marker::Model;

/// The forms of a list of tokens from each of the six expectations, for every list of open containers at entry that is
/// no longer than the depth. It keeps two further entries, for what follows a comma whose container is not known.
#[derive(Drop)]
pub struct Reductions {
    depth: Depth,
    /// From each entry, in the order of `Entry::ALL`.
    forms: [Reduced; 8],
}

impl Model for Reductions {
    ghost use Rattle.jx_reduce.specs.Reductions.{Forms, IsSound};

    ghost Value = { Forms };

    ghost use Rattle.jx_reduce.specs.inside.View.{forms_of, AreOfDepth};

    ghost view = { forms_of };

    ghost invariant = { λ a. IsSound (forms_of a) × AreOfDepth a };
}

impl Reductions {
    /// The structure of no tokens. It takes no memory.
    pub fn new(alloc: Global, depth: Depth) -> Reductions
        ensures depth { result.depth ≡ depth }
        ensures reads { IsOf [] result }
        ensures offsets { (low high : ℕ) → SpansIn low high result }
    {
        Reductions {
            depth,
            forms: array::from_fn(|at| Reduced::new(alloc, Entry::ALL[at], depth)),
        }
    }

    /// The structure of these tokens. After the first token that is no string, or after a second string, all entries
    /// that go on stand at the same one. So the tokens after it are read once, for all of them. It fails only when out
    /// of memory.
    pub fn of(alloc: Global, marks: &[Mark], depth: Depth) -> Result<Reductions, AllocError>
        requires rising { RisingFrom 0 marks.now }
        ensures depth { IfOk result (λ f. f.depth ≡ depth) }
        ensures reads { IfOk result (λ f. IsOf marks.now f) }
        ensures offsets { IfOk result (λ f. (low high : ℕ) → EachIn (λ m. (low ≤ m.at) × (m.at < high)) marks.now → SpansIn low high f) }
    {
        let structure = Structure::of(alloc, marks, depth)?;
        Reductions::of_structure(&structure)
    }

    /// The form of a structure from each entry. It fails only when out of memory.
    pub fn of_structure(structure: &Structure) -> Result<Reductions, AllocError>
        ensures depth { IfOk result (λ f. f.depth ≡ structure.now.depth) }
        ensures answers { IfOk result (λ f. (e : Expect) (s : List Holder) → length s ≤ f.depth → answer f e s ≡ one.answer structure.now e s) }
        ensures offsets { IfOk result (λ f. (low high : ℕ) → one.SpansIn low high structure.now → SpansIn low high f) }
    {
        // Shows the proof what every structure keeps.
        let depth = structure.depth;
        let Reductions { mut forms, .. } = Reductions::new(structure.allocator(), depth);
        for entry in Entry::ALL {
            forms[entry.index()] = structure.from_entry(entry)?;
        }
        Ok(Reductions { depth, forms })
    }

    /// The number of containers that may stand open at once.
    pub fn depth(&self) -> Depth
        ensures { result ≡ self.now.depth }
    {
        self.depth
    }

    /// The form of the tokens from this expectation.
    pub fn entry(&self, expect: Expect) -> &Reduced
        ensures depth { depth_of result.now ≡ self.now.depth }
        ensures form { form_in result.now ≡ form_at self.now (entry_of expect) }
        ensures size { IsOfSize self.now.depth (form_in result.now) }
    {
        self.at(Entry::of(expect))
    }

    /// The form of the tokens from this entry.
    fn at(&self, entry: Entry) -> &Reduced
        ensures depth { depth_of result.now ≡ self.now.depth }
        ensures form { form_in result.now ≡ form_at self.now entry }
    {
        &self.forms[entry.index()]
    }

    /// Makes room on the left for the form that follows it here.
    fn reserve_left(&self, left: &mut Reduced) -> Result<(), AllocError>
        ensures depth { depth_of left.new ≡ depth_of left.old }
        ensures same { form_in left.new ≡ form_in left.old }
        ensures ok { OnOk result (IsReady left.new self.now) }
    {
        if let Some(entry) = left.exit() {
            left.reserve(self.at(entry))?;
        }
        Ok(())
    }

    /// Extends the left by the form that follows it here. There is room for it.
    fn extend_left(&self, left: &mut Reduced)
        requires depth { depth_of left.old ≡ self.now.depth }
        requires ready { IsReady left.old self.now }
        ensures depth { depth_of left.new ≡ depth_of left.old }
        ensures form { form_in left.new ≡ followed (depth_of left.old) (form_in left.old) self.now }
    {
        if let Some(entry) = left.exit() {
            left.extend_reserved(self.at(entry));
        }
    }

    /// Makes room in each of these for the form that follows it here.
    fn reserve_lefts(&self, lefts: &mut [Reduced]) -> Result<(), AllocError>
        ensures depths { map depth_of lefts.new ≡ map depth_of lefts.old }
        ensures same { map form_in lefts.new ≡ map form_in lefts.old }
        ensures ok { OnOk result (AreReady lefts.new self.now) }
    {
        for left in lefts {
            self.reserve_left(left)?;
        }
        Ok(())
    }

    /// Extends each of these by the form that follows it here. There is room for it.
    fn extend_lefts(&self, lefts: &mut [Reduced])
        requires depths { map depth_of lefts.old ≡ replicate 8 self.now.depth }
        requires ready { AreReady lefts.old self.now }
        ensures depths { map depth_of lefts.new ≡ map depth_of lefts.old }
        ensures forms { map form_in lefts.new ≡ map (λ l. followed self.now.depth l self.now) (map form_in lefts.old) }
    {
        for left in lefts {
            self.extend_left(left);
        }
    }

    /// A value equal to this one. It fails only when out of memory.
    pub fn copy(&self) -> Result<Reductions, AllocError>
        ensures { IfOk result (λ r. r ≡ self.now) }
    {
        let alloc = self.at(Entry::Value).allocator();
        let Reductions { mut forms, .. } = Reductions::new(alloc, self.depth);
        for entry in Entry::ALL {
            forms[entry.index()] = self.at(entry).copy()?;
        }
        Ok(Reductions {
            depth: self.depth,
            forms,
        })
    }

    /// Extends the left by the tokens of the right, whose offsets lie after those of the left. No token is looked at
    /// again, and what the left holds is not copied. When out of memory the left stays as it was.
    pub fn extend(&mut self, right: &Reductions) -> Result<(), AllocError>
        requires depth { self.old.depth ≡ right.now.depth }
        requires before { IsBefore self.old right.now }
        ensures depth { self.new.depth ≡ self.old.depth }
        ensures joined { OnOk result (IsJoin self.old right.now self.new) }
        ensures marks { OnOk result ((ms ns : List Mark) → IsOf ms self.old → IsOf ns right.now → IsOf (ms ++ ns) self.new) }
        ensures offsets { OnOk result ((low high : ℕ) → SpansIn low high self.old → SpansIn low high right.now → SpansIn low high self.new) }
        ensures err { OnErr result (self.new ≡ self.old) }
    {
        // Shows the proof what holds of every right side.
        let _ = &right.depth;
        // All that can fail comes first.
        right.reserve_lefts(&mut self.forms)?;
        right.extend_lefts(&mut self.forms);
        Ok(())
    }

    /// The structure of the tokens of both sides, the right's after the left's. It fails only when out of memory, and
    /// then both sides are handed back as they were.
    pub fn join(self, right: Reductions) -> Result<Reductions, JoinFault<Reductions>>
        requires depth { self.depth ≡ right.depth }
        requires before { IsBefore self right }
        ensures depth { IfOk result (λ j. j.depth ≡ self.depth) }
        ensures joined { IfOk result (λ j. IsJoin self right j) }
        ensures marks { IfOk result (λ j. (ms ns : List Mark) → IsOf ms self → IsOf ns right → IsOf (ms ++ ns) j) }
        ensures offsets { IfOk result (λ j. (low high : ℕ) → SpansIn low high self → SpansIn low high right → SpansIn low high j) }
        ensures err { IfErr result (λ e. (e.left ≡ self) × (e.right ≡ right)) }
    {
        let mut left = self;
        match left.extend(&right) {
            Ok(()) => Ok(left),
            Err(AllocError) => Err(JoinFault { left, right }),
        }
    }

    /// The structure of the same tokens so many bytes further on. It takes no memory.
    pub fn shifted(self, by: usize) -> Reductions
        requires fits { SpansIn 0 (2 ^ 64 - by) self }
        ensures depth { result.depth ≡ self.depth }
        ensures answers { (expect : Expect) (holders : List Holder) → length holders ≤ self.depth → answer result expect holders ≡ shifted by (answer self expect holders) }
        ensures offsets { (low high : ℕ) → SpansIn low high self → SpansIn (by + low) (by + high) result }
    {
        let Reductions { depth, mut forms } = self;
        for form in &mut forms {
            form.shift(by);
        }
        Reductions { depth, forms }
    }
}
