ghost use Rattle.std.specs.Prelude.{◌≡◌, ◌≤◌, ◌<◌, ◌*◌, [], IfOk, OnOk, OnErr, length, take};
ghost use Rattle.jx_wire.specs.Frames.{start, step, read_on, bodies, ended_in, end_of_head, entered, fault_of, head_with, part_behind};
ghost use Rattle.jx_wire.specs.declared.frame_reader.Part.TheVariants.{Head, Body, Broken};

use crate::field::field_of;
use crate::frame_fault::FrameFault;
use std::alloc::{AllocError, Global};
use std::marker::Model;
use std::mem;

/// The greatest number of bytes of a header's line, its carriage return with them.
const LONGEST_LINE: usize = 1024;

/// In which part of a frame a reader stands.
#[derive(Clone, Copy, Debug, PartialEq, Eq)]
pub enum Part {
    /// In a line of the header, after lines that give this length.
    Head { length: Option<usize> },
    /// In the body, of which so many bytes are missing.
    Body { missing: usize },
    /// Nowhere.
    Broken { fault: FrameFault },
}

/// The result of reading some bytes.
#[derive(Debug, Drop)]
pub struct Fed {
    /// How many of them were read.
    pub taken: usize,
    /// The body that the last of these ended.
    pub body: Option<Vec<u8>>,
}

/// A stream of frames that is read as its bytes come. A frame is a header and a body. A header is a list of fields, each ended
/// by CR LF, and an empty line. The field `Content-Length` gives how many bytes the body has.
#[derive(Debug, Drop)]
pub struct FrameReader {
    alloc: Global,
    part: Part,
    // of the line or of the body, what was read of it
    held: Vec<u8>,
}

impl Model for FrameReader {
    ghost use Rattle.jx_wire.specs.Frames.{Reading};

    ghost Value = { Reading };

    ghost view = { λ r. record { part = r.part; held = r.held.items } };

    ghost use Rattle.jx_wire.specs.inside.Parts.{IsMissing};

    ghost invariant = { λ r. IsMissing r.part };
}

/// Where a line of a header leads, given without its line feed.
fn part_behind(length: Option<usize>, line: &[u8]) -> Part
    ensures { result ≡ part_behind length line.now }
{
    let [field @ .., b'\r'] = line else {
        return Part::Broken {
            fault: FrameFault::BareLineFeed,
        };
    };
    if field.is_empty() {
        return end_of_head(length);
    }
    match field_of(field) {
        Err(fault) => Part::Broken { fault },
        Ok(None) => Part::Head { length },
        Ok(Some(given)) => head_with(length, given),
    }
}

/// Where the empty line leads.
fn end_of_head(length: Option<usize>) -> Part
    ensures { result ≡ end_of_head length }
{
    match length {
        Some(missing) => Part::Body { missing },
        None => Part::Broken {
            fault: FrameFault::NoLength,
        },
    }
}

/// Where a field that gives a length leads.
fn head_with(length: Option<usize>, given: usize) -> Part
    ensures { result ≡ head_with length given }
{
    match length {
        Some(before) if before != given => Part::Broken {
            fault: FrameFault::TwoLengths,
        },
        _ => Part::Head {
            length: Some(given),
        },
    }
}

impl FrameReader {
    /// A reader in front of the first frame. It takes no memory.
    pub fn new(alloc: Global) -> FrameReader
        ensures { result ≡ start }
    {
        FrameReader {
            alloc,
            part: Part::Head { length: None },
            held: Vec::new(alloc),
        }
    }

    /// The fault for which the stream cannot be read on, if there is one.
    pub fn fault(&self) -> Option<FrameFault>
        ensures { result ≡ fault_of self.now }
    {
        match self.part {
            Part::Broken { fault } => Some(fault),
            Part::Head { .. } | Part::Body { .. } => None,
        }
    }

    /// Reads a beginning of the bytes: at most up to the end of a body. After a fault all bytes are skipped. When out of
    /// memory nothing is read.
    pub fn feed(&mut self, bytes: &[u8]) -> Result<Fed, AllocError>
        ensures within { IfOk result (λ fed. fed.taken ≤ length bytes.now) }
        ensures progress { IfOk result (λ fed. 0 < length bytes.now → 0 < fed.taken) }
        ensures read { IfOk result (λ fed. self.new ≡ read_on self.old (take fed.taken bytes.now)) }
        ensures body { IfOk result (λ fed. bodies self.old (take fed.taken bytes.now) ≡ ended_in fed.body) }
        ensures err { OnErr result (self.new ≡ self.old) }
    {
        match self.part {
            Part::Broken { .. } => Ok(Fed {
                taken: bytes.len(),
                body: None,
            }),
            Part::Body { missing } => self.feed_body(missing, bytes),
            Part::Head { length } => match bytes {
                [] => Ok(Fed {
                    taken: 0,
                    body: None,
                }),
                [byte, ..] => {
                    let body = self.feed_head(length, *byte)?;
                    Ok(Fed { taken: 1, body })
                }
            },
        }
    }

    /// Reads a byte of a header.
    fn feed_head(&mut self, length: Option<usize>, byte: u8) -> Result<Option<Vec<u8>>, AllocError>
        requires { self.old.part ≡ Head length }
        ensures read { OnOk result (self.new ≡ (step self.old byte).to) }
        ensures body { IfOk result (λ body. (step self.old byte).ended ≡ ended_in body) }
        ensures err { OnErr result (self.new ≡ self.old) }
    {
        if byte == b'\n' {
            let part = part_behind(length, &self.held);
            self.held.clear();
            return Ok(self.enter(part));
        }
        if self.held.len() < LONGEST_LINE {
            self.held.push(byte)?;
            return Ok(None);
        }
        self.held.clear();
        self.part = Part::Broken {
            fault: FrameFault::LongLine,
        };
        Ok(None)
    }

    /// Goes to another part of a frame. A body without a byte is whole at once.
    fn enter(&mut self, part: Part) -> Option<Vec<u8>>
        requires { self.old.held ≡ [] }
        ensures read { self.new ≡ (entered part).to }
        ensures body { (entered part).ended ≡ ended_in result }
    {
        match part {
            Part::Body { missing: 0 } => {
                self.part = Part::Head { length: None };
                Some(Vec::new(self.alloc))
            }
            _ => {
                self.part = part;
                None
            }
        }
    }

    /// Reads bytes of a body.
    fn feed_body(&mut self, missing: usize, bytes: &[u8]) -> Result<Fed, AllocError>
        requires missing { 0 < missing }
        requires part { self.old.part ≡ Body missing }
        ensures within { IfOk result (λ fed. fed.taken ≤ length bytes.now) }
        ensures progress { IfOk result (λ fed. 0 < length bytes.now → 0 < fed.taken) }
        ensures read { IfOk result (λ fed. self.new ≡ read_on self.old (take fed.taken bytes.now)) }
        ensures body { IfOk result (λ fed. bodies self.old (take fed.taken bytes.now) ≡ ended_in fed.body) }
        ensures err { OnErr result (self.new ≡ self.old) }
    {
        let taken = missing.min(bytes.len());
        self.held.extend_from_slice(&bytes[..taken])?;
        if taken < missing {
            self.part = Part::Body {
                missing: missing - taken,
            };
            return Ok(Fed { taken, body: None });
        }
        self.part = Part::Head { length: None };
        let body = mem::replace(&mut self.held, Vec::new(self.alloc));
        Ok(Fed {
            taken,
            body: Some(body),
        })
    }
}
