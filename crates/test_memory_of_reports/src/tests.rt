// Commands and reports that are out of memory, and those whose workers stop.
mod commands;
mod growths;
mod stops;
