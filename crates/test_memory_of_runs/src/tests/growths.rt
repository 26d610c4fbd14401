// Each call that takes memory, written so that the test passes whether or not one growth of the run is refused: a call that was
// refused is made once more, and has to succeed then.
mod books;
mod claims;
mod cuts;
mod indexes;
mod maps;
mod reductions;
mod runs;
mod texts;
