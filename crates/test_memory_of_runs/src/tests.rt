// Growths that are refused in turn, and lists by chance.
mod checks;
mod growths;
mod likeness;
mod marks;
