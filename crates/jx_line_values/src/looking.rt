// Pointers that are made ready once, to be looked up in each line.
ghost use Rattle.std.specs.Prelude.{All, map, string_bytes, IfOk};
ghost use Rattle.jx_index.specs.Pointers.{IsPointer};
ghost use Rattle.jx_find.specs.PointerTrie.{IsTrieOf};

use crate::pointers::read_all;
use jx_find::PointerTrie;
use std::alloc::{AllocError, Global};

/// Strings that are pointers, made ready. Fails only when out of memory.
pub(crate) fn trie_of_all<'p>(
    alloc: Global,
    spelt: &'p [String],
) -> Result<PointerTrie<'p>, AllocError>
    requires { All IsPointer (map string_bytes spelt.now) }
    ensures { IfOk result (IsTrieOf (map string_bytes spelt.now)) }
{
    let pointers = read_all(alloc, spelt)?;
    let trie = PointerTrie::of(alloc, pointers)?;
    Ok(trie)
}
