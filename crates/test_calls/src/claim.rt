// The calls of jx_claim.
pub(crate) mod cuttings;
pub(crate) mod draws;

use test_words::Line;

/// Makes the call of this name.
pub(crate) fn make(name: &str, line: &mut Line<'_>) {
    match name {
        "every" => cuttings::every(line),
        "at" => cuttings::at(line),
        "workers" => cuttings::workers(line),
        "draws" => draws::draws(line),
        "seats" => draws::seats(line),
        _ => line.refuse(),
    }
}
