// Faults of files, told by a line each.
ghost use Rattle.std.specs.Prelude.{◌≡◌, ◌++◌, true, false, is_err, OnOk};
ghost use Rattle.std.specs.Io.KnownBytes.{Appends};
ghost use Rattle.jx_files.specs.Faults.{fault_head, fault_line, fault_reason, fault_tail};

use crate::file_fault::FileFault;
use jx_ends::{ReportFault, Sink, write_whole};
use jx_words::write_shown;

/// Writes the words of a fault.
fn write_words<E: Sink>(errors: &mut E, fault: FileFault) -> Result<(), ReportFault>
    requires { E.has_failed errors.old ≡ false }
    ensures ok { OnOk result (Appends (E.contents errors.old) (E.contents errors.new) (fault_head fault ++ fault_tail (fault_reason fault))) }
    ensures failed { E.has_failed errors.new ≡ is_err result }
{
    write_whole(errors, fault.head().as_bytes())?;
    write_whole(errors, fault.tail().as_bytes())
}

/// Writes the line for a fault.
fn write_fault<E: Sink>(errors: &mut E, name: &str, fault: FileFault) -> Result<(), ReportFault>
    requires { E.has_failed errors.old ≡ false }
    ensures ok { OnOk result (Appends (E.contents errors.old) (E.contents errors.new) (fault_line name.now fault)) }
    ensures failed { E.has_failed errors.new ≡ is_err result }
{
    write_whole(errors, b"jx: ")?;
    write_shown(errors, name)?;
    write_whole(errors, b": ")?;
    write_words(errors, fault)?;
    write_whole(errors, b"\n")
}

/// Writes a line on a fault of what a name stands for, `jx: NAME: FAULT`, unless such a write has failed before.
pub fn tell<E: Sink>(errors: &mut E, name: &str, fault: FileFault)
    ensures told { E.has_failed errors.new ≡ false → Appends (E.contents errors.old) (E.contents errors.new) (fault_line name.now fault) }
    ensures failed { E.has_failed errors.old ≡ true → E.has_failed errors.new ≡ true }
{
    if !errors.failed() {
        let _ = write_fault(errors, name, fault);
    }
}
