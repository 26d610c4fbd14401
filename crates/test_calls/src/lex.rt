// The calls of jx_lex.
pub(crate) mod joins;
pub(crate) mod maps;
pub(crate) mod scans;
pub(crate) mod steps;
pub(crate) mod track;
pub(crate) mod views;

use crate::reduce;
use test_words::Line;

/// Makes the call of this name, or one of jx_reduce or of a crate above.
pub(crate) fn make(name: &str, line: &mut Line<'_>) {
    match name {
        "class" => steps::class(line),
        "step" => steps::step(line),
        "steps" => steps::steps(line),
        "map" => maps::map(line),
        "shown" => maps::shown(line),
        "kept" => joins::kept(line),
        "cut" => maps::cut(line),
        "maps" => views::maps(line),
        "views" => views::views(line),
        "grown" => views::grown(line),
        "upto" => views::upto(line),
        "beginning" => views::beginning(line),
        "scan" => scans::scan(line),
        _ => reduce::make(name, line),
    }
}
