// The calls of jx_reduce.
pub(crate) mod entries;
pub(crate) mod joins;
pub(crate) mod marks;
pub(crate) mod outcomes;
pub(crate) mod stacks;

use crate::run;
use test_words::Line;

/// Makes the call of this name, or one of jx_run or of a crate above.
pub(crate) fn make(name: &str, line: &mut Line<'_>) {
    match name {
        "reduce" => entries::reduce(line),
        "act" => entries::act(line),
        "further" => entries::further(line),
        "joins" => joins::joins(line),
        "stack" => stacks::stack(line),
        _ => run::make(name, line),
    }
}
