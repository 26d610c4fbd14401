ghost use Rattle.std.specs.Prelude.{◌≡◌, false, IfErr, IfOk};

use crate::file_fault::FileFault;
use crate::reason::Reason;
use jx_ends::Source;
use jx_parallel::SharedAt;

/// Opens what words name.
pub trait Opener<S: Source, F: SharedAt<Fault = Reason>> {
    ghost use Rattle.std.specs.Prelude.{ℕ, List, Result};
    ghost use Rattle.jx_files.specs.declared.file_fault.FileFault.{FileFault};
    ghost use Rattle.jx_files.specs.declared.reason.Reason.{Reason};

    /// The results that opening an argument may give.
    ghost opens: { Self → List ℕ → Result S FileFault → Type 0 };

    /// Why the last read of an input failed, of one that has failed.
    ghost why: { Self → S → Reason };

    /// An input may be shared for reads at offsets.
    ghost shares: { Self → S → Type 0 };

    /// A read of an input at an offset may fail for this reason.
    ghost may_fail: { Self → S → Reason → Type 0 };

    /// Opens what the word names.
    fn open(&self, word: &str) -> Result<S, FileFault>
        ensures gives { opens self.now word.now result }
        ensures unfailed { IfOk result (λ s. S.has_failed s ≡ false) };

    /// Why the last read of what was opened failed, if it failed.
    fn why(&self, input: &S) -> Reason
        ensures { result ≡ why self.now input.now };

    /// Returns what was opened, of which nothing was read, for reads at offsets; or the input as it was where it has none, as a pipe.
    fn share(&self, input: S) -> Result<F, S>
        ensures shares { IfOk result (λ _. shares self.now input) }
        ensures content { IfOk result (λ shared. F.content shared ≡ S.remaining input) }
        ensures fault { IfOk result (λ shared. (reason : Reason) → F.may_fail shared reason → may_fail self.now input reason) }
        ensures back { IfErr result (λ back. back ≡ input) };
}
