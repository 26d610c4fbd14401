//! Which lines of a table a test runs: all of them, or the one that the environment names.
//!
//! Where each allocation is refused in turn, a test is begun once for each of its requests. A table would be gone through
//! as often as all its lines together have requests; a line alone is gone through as often as it has requests itself.
use std::env::Env;

/// The variable that has the number of the one line that is run, in decimals from 0.
const NAME: &str = "JX_LINE";

/// Counts the lines of a table as they come.
#[derive(Drop)]
pub struct Lines {
    chosen: Option<usize>,
    next: usize,
}

impl Lines {
    /// All lines, or the one that the environment names. It takes no memory.
    pub fn of<R: Env>(rt: &R) -> Lines {
        let mut digits = [0u8; 20];
        let chosen = match rt.var(NAME, &mut digits) {
            Ok(len) => Some(number_of(digits.get(..len).unwrap_or(&[]))),
            Err(_) => None,
        };
        Lines { chosen, next: 0 }
    }

    /// Whether the next line is to be run.
    pub fn takes_next(&mut self) -> bool {
        let number = self.next;
        self.next = number.wrapping_add(1);
        match self.chosen {
            Some(chosen) => chosen == number,
            None => true,
        }
    }
}

// The number in these digits.
fn number_of(digits: &[u8]) -> usize {
    digits.iter().fold(0, |number: usize, digit| {
        number
            .wrapping_mul(10)
            .wrapping_add(usize::from(digit.wrapping_sub(b'0')))
    })
}
