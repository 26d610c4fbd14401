// A summary that keeps nothing, whose allocations fail at offset 2 and at each join.
use jx_lex::{Depth, JoinFault, Span};
use jx_run::Summary;
use std::alloc::{AllocError, Global};
use std::marker::Model;

#[derive(Drop)]
pub struct Scarce {
    span: Span,
    depth: Depth,
}

impl Model for Scarce {
    ghost use Rattle.std.specs.Prelude.{ℕ};
    ghost use Rattle.jx_summary.specs.declared.span.Span.{Span};

    ghost Value = { Span × ℕ };

    ghost view = { λ s. (s.span, s.depth) };
}

impl Summary for Scarce {
    ghost use Rattle.std.specs.Prelude.{⊤};

    ghost span = { λ s. s.0 };

    ghost depth = { λ s. s.1 };

    ghost is_of = { λ s xs. ⊤ };

    fn of(
        _alloc: Global,
        _text: &[u8],
        start: usize,
        end: usize,
        depth: Depth,
    ) -> Result<Scarce, AllocError> {
        if start == 2 {
            return Err(AllocError);
        }
        Ok(Scarce {
            span: Span { start, end },
            depth,
        })
    }

    fn join(self, right: Scarce) -> Result<Scarce, JoinFault<Scarce>> {
        Err(JoinFault { left: self, right })
    }

    fn span(&self) -> Span {
        self.span
    }

    fn depth(&self) -> Depth {
        self.depth
    }
}
