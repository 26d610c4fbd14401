// The numbers of a column. From row to row they mostly share all but their last four digits, so the others are kept as text.
ghost use Rattle.std.specs.Prelude.{◌≡◌, ◌+◌, ◌/◌, ◌<◌, ◌≤◌, ◌^◌, ◌++◌, decimal, drop, length};

use crate::line_end::put_bytes;
use itoa::write_digits;

/// The least number with more than four digits.
const LOW: usize = 10_000;

/// The digits that the last number of a column had before its last four.
#[derive(Drop)]
pub(crate) struct Column {
    high: usize,
    digits: [u8; 16],
    start: usize,
    ghost within: { start ≤ 16 },
    ghost kept: { drop start digits ≡ decimal high },
}

impl Column {
    /// A column without numbers so far.
    pub(crate) fn new() -> Column {
        Column {
            high: 0,
            digits: [b'0'; 16],
            start: 15,
        }
    }

    /// Keeps these digits.
    #[inline(always)]
    fn keep(&mut self, high: usize)
        requires { high < 10 ^ 16 }
        ensures { self.new.high ≡ high }
    {
        if high == self.high {
            return;
        }
        self.start = write_digits(high as u64, &mut self.digits, 16);
        self.high = high;
    }

    /// Puts a number of more than four digits, whose first ones are kept, in front of what a line has from a place on.
    #[inline(always)]
    #[tactic(auto, using(crate::proofs::Columns::length_low))]
    fn put_long(&self, line: &mut [u8], end: usize, number: usize) -> usize
        requires long { LOW ≤ number }
        requires kept { self.now.high ≡ number / LOW }
        requires room { (20 ≤ end) × (end ≤ length line.old) }
        ensures words { drop result line.new ≡ decimal number ++ drop end line.old }
        ensures room { (result ≤ end) × (end ≤ result + 20) }
    {
        let one = write_digits((LOW + number % LOW) as u64, line, end);
        put_bytes(line, one + 1, &self.digits) + self.start
    }

    /// Puts a number in front of what a line has from a place on, and answers where it begins.
    #[tactic(auto, using(crate::proofs::Columns::length_short))]
    pub(crate) fn put(&mut self, line: &mut [u8], end: usize, number: usize) -> usize
        requires { (20 ≤ end) × (end ≤ length line.old) }
        ensures words { drop result line.new ≡ decimal number ++ drop end line.old }
        ensures room { (result ≤ end) × (end ≤ result + 20) }
    {
        if number < LOW {
            return write_digits(number as u64, line, end);
        }
        self.keep(number / LOW);
        self.put_long(line, end, number)
    }
}
