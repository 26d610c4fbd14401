// The calls of jx_run.
pub(crate) mod elements;
pub(crate) mod entries;
pub(crate) mod fronts;
pub(crate) mod joins;
pub(crate) mod parts;
pub(crate) mod readers;
pub(crate) mod verdicts;

use crate::index;
use test_words::Line;

/// Makes the call of this name, or one of jx_index or of a crate above.
pub(crate) fn make(name: &str, line: &mut Line<'_>) {
    match name {
        "verdict" => verdicts::verdict(line),
        "cuts" => verdicts::cuts(line),
        "reader" => readers::reader(line),
        "slices" => readers::slices(line),
        "follows" => readers::follows(line),
        "run" => entries::run(line),
        "started" => entries::started(line),
        "moved" => entries::moved(line),
        "parts" => parts::parts(line),
        "elements" => elements::elements(line),
        "behind" => elements::behind(line),
        "front" => fronts::fronted(line),
        _ => index::make(name, line),
    }
}
