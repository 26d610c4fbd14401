// Reading the first bytes of a block by words of bits.
ghost use Rattle.std.specs.Prelude.{◌≡◌, ◌≤◌, ◌<◌, ◌+◌, ◌^◌, IfSome, length, slice_range};
ghost use Rattle.jx_lex.specs.declared.alphabet.state.LexState.TheVariants.{Gap};
ghost use Rattle.jx_lex.specs.Lex as reading;
ghost use Rattle.jx_lex.specs.Lex.{lex};
ghost use Rattle.jx_block.specs.Kinds.{AreKinds};
ghost use Rattle.jx_block.specs.Listed.{marks_of};

use crate::cutting::{first_bits, last_boundary};
use crate::kinds::kinds_of;
use crate::masks::Masks;
use crate::planes::{backslashes, blanks, letters_where, others, quotes, structurals};
use crate::scalars::judged_scalars;
use crate::strings::{behind_odd_runs, prefix_xor};
use std::simd::prelude::*;

/// How many bytes are looked at.
pub(crate) const BLOCK: usize = 64;

/// Reads the first bytes of the 64 that follow an offset, from between tokens to between tokens: at most 63.
///
/// It gives nothing where fewer than 64 bytes follow, where the first byte is one that it leaves to [`jx_lex::scan`],
/// and where the first token is a string that does not end among them. It stops before a byte above 7F, a control
/// character, a `\u` escape, a fault, a scalar that touches the end of the block or has no comma, closing bracket,
/// space or line's end after it.
pub fn read_tokens(text: &[u8], at: usize) -> Option<Masks>
    requires { at ≤ length text.now }
    ensures bounds { IfSome result (λ masks. (0 < masks.len) × (masks.len < 64) × (at + masks.len ≤ length text.now)) }
    ensures marks { IfSome result (λ masks. (lex Gap at (slice_range text.now at (at + masks.len))).marks ≡ marks_of masks.starts 0 at (slice_range text.now at (at + masks.len))) }
    ensures exit { IfSome result (λ masks. (lex Gap at (slice_range text.now at (at + masks.len))).exit ≡ reading.state Gap) }
    ensures few { IfSome result (λ masks. masks.starts < 2 ^ masks.len) }
    ensures kinds { IfSome result (λ masks. AreKinds text.now at masks.starts masks.kinds) }
{
    if text.len() - at < BLOCK {
        return None;
    }
    let block = u8x64::from_slice(&text[at..]);
    let (quotes, backslashes) = (quotes(block), backslashes(block));
    let (blanks, structurals) = (blanks(block), structurals(block));
    let escaped = behind_odd_runs(backslashes);
    let real = !escaped & quotes;
    // Bit k says that a string goes on after byte k, or begins with it.
    let inside = prefix_xor(real);
    let before = inside << 1;
    let scalars = !(before | blanks | structurals | quotes);
    let firsts = scalars & !(scalars << 1);
    let judged = judged_scalars(text, at, block, scalars, firsts);
    // The results of sums and shifts are checked once more, bit by bit, so that all that follows rests on this alone.
    let wrong = (inside ^ (before ^ real))
        | ((escaped >> 1) ^ (!escaped & backslashes))
        | (escaped & !(letters_where(block, escaped) & before))
        | (before & others(block) & !(escaped | quotes | backslashes))
        | judged.wrong;
    let len = last_boundary(escaped | (scalars << 1) | before, wrong);
    if len == 0 {
        return None;
    }
    let all = (!before & structurals) | (real & inside) | firsts;
    let starts = first_bits(all, len);
    let kinds = kinds_of(block, starts)?;
    Some(Masks {
        len,
        starts,
        kinds,
        one_by_one: judged.one_by_one,
    })
}
