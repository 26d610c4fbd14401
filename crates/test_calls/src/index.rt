// The calls of jx_index.
pub(crate) mod answers;
pub(crate) mod fed;
pub(crate) mod nodes;
pub(crate) mod pauses;
pub(crate) mod pointers;
pub(crate) mod readings;
pub(crate) mod unique;

use crate::claim;
use test_words::Line;

/// Makes the call of this name, or one of jx_claim or of a crate above.
pub(crate) fn make(name: &str, line: &mut Line<'_>) {
    match name {
        "rows" => readings::rows(line),
        "text" => answers::text(line),
        "judged" => answers::judged(line),
        "find" => pointers::find(line),
        "children" => nodes::children(line),
        "names" => nodes::names(line),
        "repeated" => nodes::repeated(line),
        "unique" => unique::unique(line),
        _ => claim::make(name, line),
    }
}
