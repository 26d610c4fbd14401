// Buffers of the caller's, which are filled from their start.
ghost use Rattle.std.specs.Prelude.{◌≡◌};
ghost use Rattle.jx_c.specs.Buffers.{IsFilled};

/// A value that has another form for C.
pub trait Seen: Copy {
    type Form: Copy;

    ghost form: { Self → Self.Form };

    /// Gives it as C sees it.
    fn seen(self) -> Self::Form
        ensures { result ≡ form self };
}

/// Puts the values into the buffer as C sees them, as many as it has room for.
pub fn fill<T: Seen>(buffer: &mut [T::Form], from: &[T])
    ensures { IsFilled T.form buffer.old buffer.new from.now }
{
    let count = buffer.len().min(from.len());
    for at in 0..count {
        buffer[at] = from[at].seen();
    }
}
