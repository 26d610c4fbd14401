// Tests that cross crates: cuts, depths, stops and failed allocations, and the inputs and answers that are compared.
mod answers;
mod calls;
mod cuts;
mod deep_texts;
mod gathered;
mod growths;
mod inputs;
mod stops;
