// The workers: each reads chunks and hands its run over, until nothing is left or a gate stops it.
pub(crate) mod errand;
pub(crate) mod reading;
pub(crate) mod worker;
