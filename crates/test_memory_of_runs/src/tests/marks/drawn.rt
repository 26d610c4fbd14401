// A random list of token starts while it is made, one token start at a time.
use crate::tests::marks::lists::kind_of;
use jx_reduce::{Expect, Holder, next};
use std::alloc::{AllocError, Global};
use test_words::follow;

/// The bytes of the token starts, what may follow them, and the containers that they leave open.
#[derive(Drop)]
pub(crate) struct Drawn {
    text: Vec<u8>,
    expect: Expect,
    open: Vec<Holder>,
}

impl Drawn {
    /// No token starts, with this expectation after them.
    pub(crate) fn new(alloc: Global, expect: Expect) -> Drawn {
        Drawn {
            text: Vec::new(alloc),
            expect,
            open: Vec::new(alloc),
        }
    }

    /// The tokens that may stand next.
    pub(crate) fn expect(&self) -> Expect {
        self.expect
    }

    /// The innermost open container, or else the one around the list.
    pub(crate) fn top(&self, around: Holder) -> Holder {
        self.open.last().copied().unwrap_or(around)
    }

    /// How many containers stand open.
    pub(crate) fn depth(&self) -> usize {
        self.open.len()
    }

    /// One more token start, after which this may stand.
    pub(crate) fn add(&mut self, byte: u8, then: Expect) -> Result<(), AllocError> {
        self.text.push(byte)?;
        self.expect = then;
        follow(&mut self.open, kind_of(byte))
    }

    /// One more token start. At a fault the list goes on as if it were not there.
    pub(crate) fn try_add(&mut self, byte: u8, around: Holder) -> Result<(), AllocError> {
        match next(kind_of(byte), self.expect, self.top(around)) {
            Some(then) => self.add(byte, then),
            None => Ok(self.text.push(byte)?),
        }
    }

    /// The bytes of the token starts.
    pub(crate) fn into_text(self) -> Vec<u8> {
        self.text
    }
}
