// Open containers, one bit each.

ghost use Rattle.std.specs.Prelude.{◌≡◌, ◌+◌, ◌<◌, ◌≤◌, ◌^◌, ◌++◌, [], ◌∷◌, OnOk, OnErr, IfOk, length, reverse};
ghost use Rattle.jx_reduce.specs.Bits.{holder_of};

use crate::stack::containers::{Containers, Innermost};
use crate::table::holder::Holder;
use std::alloc::{AllocError, Global};
use std::marker::Model;

/// How many containers one word holds.
const WORD: usize = 64;

/// The open containers, innermost first: an array is a bit 0, an object a bit 1. The first 64 take no memory.
#[derive(Drop)]
pub(crate) struct OpenContainers {
    /// The innermost containers, the innermost lowest.
    bits: u64,
    /// How many containers `bits` holds.
    count: usize,
    /// The full words around it, the outermost first.
    words: Vec<u64>,
}

impl Model for OpenContainers {
    ghost use Rattle.std.specs.Prelude.{List};
    ghost use Rattle.jx_reduce.specs.declared.table.holder.Holder.{Holder};

    ghost Value = { List Holder };

    ghost use Rattle.jx_reduce.specs.inside.OpenContainers.{holders_in, IsPacked};

    ghost view = { holders_in };

    ghost invariant = { IsPacked };
}

/// The bit of a container.
#[inline(always)]
fn bit_of(holder: Holder) -> u64
    requires { holder ≡ Holder.Bottom → ⊥ }
    ensures within { result < 2 }
    ensures holder { holder_of result ≡ holder }
{
    match holder {
        Holder::Array => 0,
        Holder::Object => 1,
        Holder::Bottom => unreachable!(),
    }
}

/// Keeps one more full word.
#[cold]
fn push_word(words: &mut Vec<u64>, word: u64) -> Result<(), AllocError>
    ensures ok { OnOk result (words.new.items ≡ words.old.items ++ word ∷ []) }
    ensures err { OnErr result (words.new.items ≡ words.old.items) }
{
    words.push(word)?;
    Ok(())
}

impl Containers for OpenContainers {
    ghost list = { λ stack. stack };

    #[inline(always)]
    fn top(&self) -> Holder {
        if self.count == 0 {
            Holder::Bottom
        } else if self.bits % 2 == 0 {
            Holder::Array
        } else {
            Holder::Object
        }
    }

    #[inline(always)]
    fn len(&self) -> usize {
        self.words.len() * WORD + self.count
    }

    #[inline(always)]
    fn push(&mut self, holder: Holder) -> Result<(), AllocError> {
        let bit = bit_of(holder);
        if self.count < WORD {
            self.bits = self.bits * 2 + bit;
            self.count += 1;
            Ok(())
        } else {
            push_word(&mut self.words, self.bits)?;
            self.bits = bit;
            self.count = 1;
            Ok(())
        }
    }

    #[inline(always)]
    fn pop(&mut self) {
        if self.count > 1 {
            self.bits /= 2;
            self.count -= 1;
        } else {
            match self.words.pop() {
                Some(word) => {
                    self.bits = word;
                    self.count = WORD;
                }
                None => {
                    self.bits = 0;
                    self.count = 0;
                }
            }
        }
    }

    #[inline(always)]
    fn inner(&self) -> Option<Innermost> {
        if self.count == 0 {
            return None;
        }
        Some(Innermost {
            bits: self.bits,
            count: self.count,
        })
    }

    #[inline(always)]
    fn put_inner(&mut self, inner: Innermost) -> bool {
        self.bits = inner.bits;
        self.count = inner.count;
        true
    }
}

impl OpenContainers {
    /// A list with nothing open. It takes no memory.
    pub fn new(alloc: Global) -> OpenContainers
        ensures { result ≡ [] }
    {
        OpenContainers {
            bits: 0,
            count: 0,
            words: Vec::new(alloc),
        }
    }

    /// Closes all containers, and lists them outermost first.
    pub fn take_all(&mut self) -> Result<Vec<Holder>, AllocError>
        requires few { length self.old < 2 ^ 32 }
        ensures all { IfOk result (λ holders. self.old ≡ reverse holders.items) }
        ensures fewer { length self.new ≤ length self.old }
    {
        let mut holders = Vec::new(*self.words.allocator());
        while self.len() > 0 {
            holders.push(self.top())?;
            self.pop();
        }
        holders.reverse();
        Ok(holders)
    }

    /// Opens these containers, the outermost first. They are refused, as when out of memory, where one of them is
    /// `Bottom`.
    pub fn push_all(&mut self, holders: &[Holder]) -> Result<(), AllocError>
        ensures ok { OnOk result (self.new ≡ reverse holders.now ++ self.old) }
        ensures more { length self.new ≤ length holders.now + length self.old }
    {
        for holder in holders {
            if matches!(holder, Holder::Bottom) {
                return Err(AllocError);
            }
            self.push(*holder)?;
        }
        Ok(())
    }

    /// Closes all containers. The memory stays.
    pub fn clear(&mut self)
        ensures { self.new ≡ [] }
    {
        self.bits = 0;
        self.count = 0;
        self.words.clear();
    }
}
