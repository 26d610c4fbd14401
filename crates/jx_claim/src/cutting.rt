ghost use Rattle.std.specs.Prelude.{◌≡◌, ◌*◌, ◌<◌, ◌≤◌, ◌↔◌, [], ◌∷◌, ◌++◌, length, Some, slice_get, IsOk, IfOk, IfErr};
ghost use Rattle.std.specs.Int.{div_ceil};
ghost use Rattle.jx_claim.specs.Cut.{CuttingValue, Tiles, OfSize, behind, meetings};
ghost use Rattle.jx_claim.specs.CutFaults.{AreSound, Refuses};

use crate::cut_fault::CutFault;
use crate::piece_list::PieceList;
use jx_crew::PieceNo;
use jx_summary::Span;
use std::alloc::{AllocError, Global};
use std::marker::Model;

/// A text of a known length, cut into chunks. They are not empty, stand in order and cover the text from its front on.
/// The front is 0 unless `without_front` set it. There are at most 4,294,967,295 of them, and none where nothing is
/// left to cover.
#[derive(Debug, Drop)]
pub struct Cutting {
    len: usize,
    front: usize,
    // How many parts end at the front or before it.
    skipped: usize,
    pieces: PieceList,
}

impl Model for Cutting {
    ghost use Rattle.std.specs.Prelude.{◌<◌, ◌≤◌, length};
    ghost use Rattle.jx_claim.specs.Cut.{CuttingValue, Tiles, behind};
    ghost use Rattle.jx_claim.specs.inside.Listed.{listed, IsRegular, AreEnded};

    ghost Value = { CuttingValue };

    ghost view = { λ c. record { len = c.len; front = c.front; pieces = behind c.front (listed c.len c.pieces) } };

    ghost invariant = { λ c. Tiles 0 (listed c.len c.pieces) c.len × (length (listed c.len c.pieces) < 4294967296) × IsRegular c.len c.pieces × (c.front ≤ c.len) × AreEnded c.front c.skipped (listed c.len c.pieces) };
}

impl Cutting {
    /// Chunks of `size` bytes each, but the last may have fewer. It takes no memory, and is refused with
    /// `TooManyPieces` exactly where there would be more than 4,294,967,295 chunks.
    pub fn every(len: usize, size: usize) -> Result<Cutting, CutFault>
        requires { 1 ≤ size }
        ensures len { IfOk result (λ c. c.len ≡ len) }
        ensures front { IfOk result (λ c. c.front ≡ 0) }
        ensures covers { IfOk result (λ c. Tiles 0 c.pieces len) }
        ensures sizes { IfOk result (λ c. OfSize size c.pieces) }
        ensures count { IfOk result (λ c. length c.pieces ≡ div_ceil len size) }
        ensures few { IsOk result ↔ (len ≤ 4294967295 * size) }
        ensures fault { IfErr result (λ f. f ≡ CutFault.TooManyPieces) }
    {
        let count = len.div_ceil(size);
        if count > u32::MAX as usize {
            return Err(CutFault::TooManyPieces);
        }
        let count = count as u32;
        Ok(Cutting {
            len,
            front: 0,
            skipped: 0,
            pieces: PieceList::Every { size, count },
        })
    }

    /// Chunks that meet exactly at these cuts, which are byte offsets. Each must be above 0, below the length
    /// (`Outside`) and above the one before it (`NotRising`); where they are, more than 4,294,967,295 chunks are
    /// `TooManyPieces`, and `Memory` comes last.
    pub fn at(alloc: Global, len: usize, cuts: &[usize]) -> Result<Cutting, CutFault>
        ensures len { IfOk result (λ c. c.len ≡ len) }
        ensures front { IfOk result (λ c. c.front ≡ 0) }
        ensures covers { IfOk result (λ c. Tiles 0 c.pieces len) }
        ensures meet { IfOk result (λ c. meetings c.pieces ≡ cuts.now) }
        ensures fault { IfErr result (λ f. Refuses len cuts.now f) }
    {
        check(len, cuts)?;
        if cuts.len() >= u32::MAX as usize {
            return Err(CutFault::TooManyPieces);
        }
        if len == 0 {
            return Ok(Cutting {
                len,
                front: 0,
                skipped: 0,
                pieces: PieceList::At {
                    ends: Vec::new(alloc),
                },
            });
        }
        let Ok(ends) = ends_at(alloc, len, cuts) else {
            return Err(CutFault::Memory);
        };
        Ok(Cutting {
            len,
            front: 0,
            skipped: 0,
            pieces: PieceList::At { ends },
        })
    }

    /// A copy of the division. It takes memory where the chunks were given by their cuts, and none where they were
    /// given by a size.
    pub fn copy(&self, alloc: Global) -> Result<Cutting, AllocError>
        ensures { IfOk result (λ c. c ≡ self.now) }
    {
        Ok(Cutting {
            len: self.len,
            front: self.front,
            skipped: self.skipped,
            pieces: self.pieces.copy(alloc)?,
        })
    }

    /// The division without the first `front` bytes of the text: chunks that end there or before it are left out, and
    /// one that goes on after it begins there. It takes no memory.
    pub fn without_front(self, front: usize) -> Cutting
        requires from { self.front ≤ front }
        requires within { front ≤ self.len }
        ensures len { result.len ≡ self.len }
        ensures front { result.front ≡ front }
        ensures pieces { result.pieces ≡ behind front self.pieces }
        ensures covers { Tiles front result.pieces self.len }
    {
        let Cutting {
            len,
            front: _,
            skipped: _,
            pieces,
        } = self;
        let skipped = pieces.ended(len, front);
        Cutting {
            len,
            front,
            skipped,
            pieces,
        }
    }

    /// The length of the text, in bytes.
    pub fn len(&self) -> usize
        ensures len { result ≡ self.now.len }
        ensures covers { Tiles self.now.front self.now.pieces self.now.len }
    {
        self.len
    }

    /// The offset at which the first chunk begins, in bytes from the start of the text; the length, where there is no
    /// chunk.
    pub fn front(&self) -> usize
        ensures front { result ≡ self.now.front }
        ensures within { result ≤ self.now.len }
    {
        self.front
    }

    /// The number of chunks.
    pub fn count(&self) -> u32
        ensures count { result ≡ length self.now.pieces }
        ensures none { self.now.len ≡ 0 → result ≡ 0 }
    {
        (self.pieces.count() - self.skipped) as u32
    }

    /// The chunk of this number, which is below the count.
    pub fn piece(&self, piece: PieceNo) -> Span
        requires { piece.0 < length self.now.pieces }
        ensures piece { slice_get self.now.pieces piece.0 ≡ Some result }
        ensures filled { result.start < result.end }
        ensures behind { self.now.front ≤ result.start }
        ensures within { result.end ≤ self.now.len }
    {
        let whole = self.pieces.piece(self.len, self.skipped + piece.0 as usize);
        Span {
            start: whole.start.max(self.front),
            end: whole.end,
        }
    }
}

/// The first fault of the cuts, if they have one.
fn check(len: usize, cuts: &[usize]) -> Result<(), CutFault>
    ensures ok { IfOk result (λ _. AreSound len cuts.now (length cuts.now)) }
    ensures err { IfErr result (λ f. Refuses len cuts.now f) }
{
    let mut before = 0;
    for index in 0..cuts.len() {
        let cut = cuts[index];
        if cut == 0 || len <= cut {
            return Err(CutFault::Outside { index });
        }
        if cut <= before {
            return Err(CutFault::NotRising { index });
        }
        before = cut;
    }
    Ok(())
}

/// Where the chunks end that meet at these cuts.
fn ends_at(alloc: Global, len: usize, cuts: &[usize]) -> Result<Vec<usize>, AllocError>
    ensures { IfOk result (λ v. v.items ≡ cuts.now ++ len ∷ []) }
{
    let mut ends = Vec::with_capacity(alloc, cuts.len() + 1)?;
    ends.extend_from_slice(cuts)?;
    ends.push(len)?;
    Ok(ends)
}
