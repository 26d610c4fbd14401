// Tests that take two threads at least.
mod draws;
mod meeting;
mod pointers;
mod reports;
mod shelf;
mod workers;
