// Inputs that are read batch by batch: the reader goes on with each, and several workers share it.
pub(crate) mod asking;
pub(crate) mod element_cuts;
pub(crate) mod front;
pub(crate) mod judging;
pub(crate) mod naming;
pub(crate) mod reading;
