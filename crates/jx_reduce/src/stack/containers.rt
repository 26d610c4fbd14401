// Open containers, wherever their words lie.
ghost use Rattle.std.specs.Prelude.{◌≡◌, ◌<◌, ◌^◌, ◌++◌, ◌∷◌, List, OnOk, OnErr, IfSome, IsFalse, IsTrue, length};
ghost use Rattle.jx_reduce.specs.Bits.{in_word};
ghost use Rattle.jx_reduce.specs.Containers.{IsInner, outer};
ghost use Rattle.jx_reduce.specs.Read.{top, without_top};
ghost use Rattle.jx_reduce.specs.declared.table.holder.Holder.{Holder as Container};

use crate::table::holder::Holder;
use std::alloc::AllocError;

/// The innermost open containers, at least one and at most 64: an array is a bit 0, an object a bit 1, the innermost lowest.
#[derive(Clone, Copy)]
pub struct Innermost {
    pub bits: u64,
    pub count: usize,
}

/// The open containers of a text that is read from its start. Tokens are read over any type that holds them.
pub trait Containers {
    // the open containers, the innermost first
    ghost list: { Self → List Container };

    /// The innermost container.
    fn top(&self) -> Holder
        ensures { result ≡ top (list self.now) };

    /// How many containers are open.
    fn len(&self) -> usize
        requires { length (list self.now) < 2 ^ 32 }
        ensures { result ≡ length (list self.now) };

    /// Opens one more container. Where there is no memory for it, nothing changes.
    fn push(&mut self, holder: Holder) -> Result<(), AllocError>
        requires { holder ≡ Holder.Bottom → ⊥ }
        ensures ok { OnOk result (list self.new ≡ holder ∷ list self.old) }
        ensures err { OnErr result (list self.new ≡ list self.old) };

    /// Closes the innermost container, if one is open.
    fn pop(&mut self)
        ensures { list self.new ≡ without_top (list self.old) };

    /// The innermost word of containers. `None` where none is open, and where the type gives none.
    fn inner(&self) -> Option<Innermost>
        ensures inner { IfSome result (λ r. IsInner r) }
        ensures list { IfSome result (λ r. list self.now ≡ in_word r.count r.bits ++ outer (list self.now)) };

    /// Puts these containers in the place of the innermost word. Returns whether there is room for them: where there is
    /// none, nothing changes.
    fn put_inner(&mut self, inner: Innermost) -> bool
        requires { IsInner inner }
        ensures put { IsTrue result → list self.new ≡ in_word inner.count inner.bits ++ outer (list self.old) }
        ensures kept { IsFalse result → list self.new ≡ list self.old };
}
