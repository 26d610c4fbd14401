// How bytes are written in a word.
ghost use Rattle.std.specs.Prelude.{◌<◌, IfSome};

use crate::line::LineFault;
use std::alloc::Global;

/// The next part of a word.
enum Piece {
    Byte(u8),
    /// The byte after it stands so many times.
    Times(usize),
    /// The bytes after it up to the end of the part stand so many times.
    Open(usize),
    /// The end of such a part.
    Close,
}

/// The value of a hexadecimal digit.
fn digit_of(byte: u8) -> Option<u8>
    ensures { IfSome result (λ digit. digit < 16) }
{
    match byte {
        b'0'..=b'9' => Some(byte - b'0'),
        b'A'..=b'F' => Some(byte - b'A' + 10),
        b'a'..=b'f' => Some(byte - b'a' + 10),
        _ => None,
    }
}

/// A number that a semicolon ends, and what follows that.
fn count_of(rest: &[u8]) -> Option<(usize, &[u8])> {
    let (digits, after) = std::str::from_utf8(rest).ok()?.split_once(';')?;
    let count = digits.parse::<usize>().ok()?;
    Some((count, after.as_bytes()))
}

/// The next part of the rest of a word, and what follows that.
fn next_piece(rest: &[u8]) -> Option<(Piece, &[u8])> {
    let (byte, after) = rest.split_first()?;
    if *byte == b'\\' {
        escaped_piece(after)
    } else {
        Some((Piece::Byte(*byte), after))
    }
}

/// The next bytes of a word after a backslash, and what follows them.
fn escaped_piece(rest: &[u8]) -> Option<(Piece, &[u8])> {
    let (letter, after) = rest.split_first()?;
    match letter {
        b'x' => byte_piece(after),
        b'*' => {
            let (count, after) = count_of(after)?;
            Some((Piece::Times(count), after))
        }
        b'(' => {
            let (count, after) = count_of(after)?;
            Some((Piece::Open(count), after))
        }
        b')' => Some((Piece::Close, after)),
        _ => None,
    }
}

/// The byte of two hexadecimal digits.
fn byte_piece(rest: &[u8]) -> Option<(Piece, &[u8])> {
    let [high, low, after @ ..] = rest else {
        return None;
    };
    let byte = digit_of(*high)? * 16 + digit_of(*low)?;
    Some((Piece::Byte(byte), after))
}

/// The bytes that a word has written so far.
#[derive(Drop)]
struct Spelt {
    /// The bytes outside of an unended part.
    bytes: Vec<u8>,
    /// The bytes of an unended part.
    part: Vec<u8>,
    /// How many times an unended part stands.
    open: Option<usize>,
    /// How many times the next byte stands.
    times: usize,
}

impl Spelt {
    fn new(alloc: Global) -> Spelt {
        Spelt {
            bytes: Vec::new(alloc),
            part: Vec::new(alloc),
            open: None,
            times: 1,
        }
    }

    fn add(&mut self, piece: Piece) -> Result<(), LineFault> {
        match piece {
            Piece::Byte(byte) => self.add_byte(byte),
            Piece::Times(count) => {
                self.times = count;
                Ok(())
            }
            Piece::Open(count) => match self.open.replace(count) {
                None => Ok(()),
                Some(_) => Err(LineFault::NoSuchCall),
            },
            Piece::Close => self.close(),
        }
    }

    fn add_byte(&mut self, byte: u8) -> Result<(), LineFault> {
        let times = self.times;
        let spelt = match self.open {
            Some(_) => &mut self.part,
            None => &mut self.bytes,
        };
        for _ in 0..times {
            spelt.push(byte)?;
        }
        self.times = 1;
        Ok(())
    }

    fn close(&mut self) -> Result<(), LineFault> {
        let count = self.open.take().ok_or(LineFault::NoSuchCall)?;
        for _ in 0..count {
            self.bytes.extend_from_slice(&self.part)?;
        }
        self.part.clear();
        Ok(())
    }

    fn finish(self) -> Result<Vec<u8>, LineFault> {
        if self.open.is_none() && self.times == 1 {
            Ok(self.bytes)
        } else {
            Err(LineFault::NoSuchCall)
        }
    }
}

/// The bytes in a word.
pub fn bytes_of(alloc: Global, word: &str) -> Result<Vec<u8>, LineFault> {
    if word == "\\-" {
        return Ok(Vec::new(alloc));
    }
    let mut spelt = Spelt::new(alloc);
    let mut rest = word.as_bytes();
    for _ in 0..word.len() {
        if rest.is_empty() {
            break;
        }
        let (piece, after) = next_piece(rest).ok_or(LineFault::NoSuchCall)?;
        spelt.add(piece)?;
        rest = after;
    }
    spelt.finish()
}

/// The text in a word, which has to be UTF-8.
pub fn text_of(alloc: Global, word: &str) -> Result<String, LineFault> {
    let bytes = bytes_of(alloc, word)?;
    String::from_utf8(bytes).ok().ok_or(LineFault::NoSuchCall)
}

/// The texts in words.
pub fn texts_of(alloc: Global, words: &[&str]) -> Result<Vec<String>, LineFault> {
    let mut texts = Vec::new(alloc);
    for word in words {
        texts.push(text_of(alloc, word)?)?;
    }
    Ok(texts)
}
