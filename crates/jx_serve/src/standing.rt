// Where a reading stands in a document.
ghost use Rattle.std.specs.Prelude.{IfOk, IfSome};
ghost use Rattle.jx_serve.specs.Standing.{StandsIn};

use jx_edit::{Document, Stand};
use jx_sentence::{Standing, innermost};
use std::alloc::AllocError;

/// The standing of a reading of a document's text at an offset; none where the bytes before it do not begin a text. It is known after a verdict of
/// the document. What it says of the last token is ignored.
pub fn standing_in(document: &Document, at: usize) -> Result<Option<Standing>, AllocError>
    ensures { IfOk result (λ found. IfSome found (StandsIn document.now.settings document.now.bytes at)) }
{
    let Some(stand) = document.stand(at)? else {
        return Ok(None);
    };
    let Stand {
        state,
        expect,
        holders,
    } = stand;
    Ok(Some(Standing {
        state,
        expect,
        top: innermost(holders),
        token: at,
    }))
}
