// A summary that keeps a copy of its bytes.
use jx_lex::{Depth, JoinFault, Span};
use jx_run::Summary;
use std::alloc::{AllocError, Global};
use std::marker::Model;

#[derive(Debug, Drop)]
pub struct Copied {
    bytes: Vec<u8>,
    span: Span,
    depth: Depth,
}

impl Copied {
    pub fn bytes(&self) -> &[u8] {
        self.bytes.as_slice()
    }
}

impl Model for Copied {
    ghost use Rattle.std.specs.Prelude.{ℕ, List};
    ghost use Rattle.jx_summary.specs.declared.span.Span.{Span};

    ghost Value = { List ℕ × (Span × ℕ) };

    ghost view = { λ s. (s.bytes.items, (s.span, s.depth)) };
}

impl Summary for Copied {
    ghost use Rattle.std.specs.Prelude.{◌≡◌};

    ghost span = { λ s. s.1.0 };

    ghost depth = { λ s. s.1.1 };

    ghost is_of = { λ s xs. s.0 ≡ xs };

    fn of(
        alloc: Global,
        text: &[u8],
        start: usize,
        end: usize,
        depth: Depth,
    ) -> Result<Copied, AllocError> {
        let bytes = Vec::from_slice(alloc, &text[start..end])?;
        Ok(Copied {
            bytes,
            span: Span { start, end },
            depth,
        })
    }

    fn join(self, right: Copied) -> Result<Copied, JoinFault<Copied>> {
        let Copied {
            mut bytes,
            span,
            depth,
        } = self;
        match bytes.extend_from_slice(right.bytes.as_slice()) {
            Ok(()) => Ok(Copied {
                bytes,
                span: Span {
                    start: span.start,
                    end: right.span.end,
                },
                depth,
            }),
            Err(_) => Err(JoinFault {
                left: Copied { bytes, span, depth },
                right,
            }),
        }
    }

    fn span(&self) -> Span {
        self.span
    }

    fn depth(&self) -> Depth {
        self.depth
    }
}
