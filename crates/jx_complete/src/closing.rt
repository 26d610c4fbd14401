// Fixed bytes that end a text which was begun.
ghost use Rattle.std.specs.Prelude.{◌≡◌, ◌++◌, OnOk, reverse};
ghost use Rattle.jx_run.specs.inside.Closing.{completion, fill, finish, shut};

use jx_lex::LexState;
use jx_reduce::{Expect, Holder};
use std::alloc::AllocError;

/// Bytes that end the token that a state is in. A number ends before the space.
fn finish(state: LexState) -> &'static [u8]
    ensures { result.now ≡ finish state }
{
    match state {
        LexState::Gap => b"",
        LexState::Str => b"\"",
        LexState::Esc => b"n\"",
        LexState::Hex4 => b"0000\"",
        LexState::Hex3 => b"000\"",
        LexState::Hex2 => b"00\"",
        LexState::Hex1 => b"0\"",
        LexState::Tail1 => b"\x80\"",
        LexState::Tail2 => b"\x80\x80\"",
        LexState::Tail3 => b"\x80\x80\x80\"",
        LexState::AfterE0 => b"\xa0\x80\"",
        LexState::AfterEd => b"\x80\x80\"",
        LexState::AfterF0 => b"\x90\x80\x80\"",
        LexState::AfterF4 => b"\x80\x80\x80\"",
        LexState::Minus => b"0 ",
        LexState::Zero => b" ",
        LexState::Int => b" ",
        LexState::Dot => b"0 ",
        LexState::Frac => b" ",
        LexState::E => b"0 ",
        LexState::ESign => b"0 ",
        LexState::Exp => b" ",
        LexState::T => b"rue",
        LexState::Tr => b"ue",
        LexState::Tru => b"e",
        LexState::F => b"alse",
        LexState::Fa => b"lse",
        LexState::Fal => b"se",
        LexState::Fals => b"e",
        LexState::N => b"ull",
        LexState::Nu => b"ll",
        LexState::Nul => b"l",
    }
}

/// Bytes that complete a value from this expectation on.
fn fill(expect: Expect) -> &'static [u8]
    ensures { result.now ≡ fill expect }
{
    match expect {
        Expect::Value => b"0 ",
        Expect::ArrayFirst => b"0 ",
        Expect::ObjectFirst => b"\"\":0 ",
        Expect::Name => b"\"\":0 ",
        Expect::Colon => b":0 ",
        Expect::After => b"",
    }
}

/// Adds the closing brackets of open containers, which stand outermost first.
fn shut(out: &mut Vec<u8>, mut holders: Vec<Holder>) -> Result<(), AllocError>
    ensures { OnOk result (out.new.items ≡ out.old.items ++ shut (reverse holders.items)) }
{
    while let Some(holder) = holders.pop() {
        match holder {
            Holder::Array => out.push(b']')?,
            Holder::Object => out.push(b'}')?,
            Holder::Bottom => return Ok(()),
        }
    }
    Ok(())
}

/// Adds fixed bytes that end a text, after bytes whose reading led to this.
pub(crate) fn end_text(
    out: &mut Vec<u8>,
    state: LexState,
    expect: Expect,
    holders: Vec<Holder>,
) -> Result<(), AllocError>
    ensures { OnOk result (out.new.items ≡ out.old.items ++ completion state expect (reverse holders.items)) }
{
    out.extend_from_slice(finish(state))?;
    out.extend_from_slice(fill(expect))?;
    shut(out, holders)
}
