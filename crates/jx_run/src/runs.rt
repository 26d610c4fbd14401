// Partial results ("runs") of parts of a text or of a sequence.
pub(crate) mod elements_run;
pub(crate) mod joins;
pub(crate) mod marked;
pub(crate) mod outcome_run;
pub(crate) mod part_run;
pub(crate) mod parted;
pub(crate) mod piece;
pub(crate) mod reduce;
pub(crate) mod rest;
pub(crate) mod seq_run;
pub(crate) mod shape;
pub(crate) mod text_run;
pub(crate) mod transition;
