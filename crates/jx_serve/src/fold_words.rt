// Lines of a document that can be folded, in messages.
ghost use Rattle.std.specs.Prelude.{◌≡◌, [], true, IfOk, OnOk};
ghost use Rattle.jx_serve.specs.inside.Sound.{AddsValue, IsWhole};

use crate::plain::is_plain_value;
use crate::symbols::{Outline, Symbol};
use crate::value_words::{add_comma, add_number, begin_list};
use jx_lex::Kind;
use std::alloc::AllocError;

/// The first line of a container and the last one before its closing bracket, where these are two.
fn lines_of(symbol: &Symbol) -> Option<(usize, usize)> {
    let (Kind::Object | Kind::Array) = symbol.row.kind else {
        return None;
    };
    let first = symbol.start.line;
    let last = symbol.end.line.saturating_sub(1);
    if first < last {
        Some((first, last))
    } else {
        None
    }
}

/// Adds lines as a `FoldingRange`.
fn add_fold(out: &mut Vec<u8>, first: usize, last: usize) -> Result<(), AllocError>
    ensures { OnOk result (AddsValue 510 out.old.items out.new.items) }
{
    out.extend_from_slice(b"{\"startLine\":")?;
    add_number(out, first)?;
    out.extend_from_slice(b",\"endLine\":")?;
    add_number(out, last)?;
    out.extend_from_slice(b"}")?;
    Ok(())
}

/// Adds the answer that lists which lines can be folded. Of containers that begin in one line only the outermost is listed. Returns
/// whether it is known to be a JSON text that repeats no name.
pub(crate) fn add_folded(
    out: &mut Vec<u8>,
    id: &[u8],
    outline: &Outline,
) -> Result<bool, AllocError>
    requires { out.old.items ≡ [] }
    ensures { IfOk result (λ known. known ≡ true → IsWhole 512 out.new.items) }
{
    begin_list(out, id)?;
    let mut told = None;
    for symbol in outline.symbols.iter() {
        let Some((first, last)) = lines_of(symbol) else {
            continue;
        };
        if told != Some(first) {
            add_comma(out, told.is_none())?;
            add_fold(out, first, last)?;
            told = Some(first);
        }
    }
    out.extend_from_slice(b"]}")?;
    Ok(is_plain_value(id))
}
