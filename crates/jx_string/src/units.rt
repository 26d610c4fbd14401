ghost use Rattle.std.proofs.Props.{props};
ghost use Rattle.std.specs.Prelude.{◌<◌, IfSome};

/// The UTF-16 code units of a string (RFC 8259, section 7) that are to come.
#[derive(Clone, Copy, Debug)]
pub struct Units<'a> {
    pub(crate) rest: &'a [u8],
    pub(crate) pending: Option<u32>,
    ghost small: { IfSome pending (λ unit. unit < 0x11_0000) } by { Prim.hlevel props },
}
