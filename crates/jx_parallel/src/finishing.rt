// The work that is left when the workers have ended.
ghost use Rattle.std.specs.Prelude.{◌≡◌, ◌<◌, IfErr, IfOk, vec_len};
ghost use Rattle.jx_parallel.specs.Faults.{ReadFailsBy};
ghost use Rattle.jx_parallel.specs.Verdict.{IsVerdictOn};
ghost use Rattle.jx_parallel.specs.inside.Lead.{IsVerdictOnFirst};
ghost use Rattle.jx_parallel.specs.Offsets.{EndsBefore};

use crate::book::next_run;
use crate::check_fault::CheckFault;
use crate::kept::Kept;
use crate::known::Known;
use crate::lead::Lead;
use crate::reading::lead_there;
use crate::shared_at::SharedAt;
use jx_run::Verdict;
use std::sync::Wait;

/// The verdict where the reader has read to the end of the text.
fn judged<F: SharedAt, K: Known>(_file: &F, lead: Lead<K>) -> Verdict
    requires text { K.text ≡ F.content _file.now }
    requires end { EndsBefore (F.content _file.now) lead.count }
    ensures { IsVerdictOn (F.content _file.now) K.settings result }
{
    lead.verdict()
}

/// The verdict on the text: the runs are followed, and what is missing is read.
pub(crate) fn finish<F: SharedAt, K: Known, R: Wait>(
    rt: &R,
    file: &F,
    runs: Vec<Kept<K>>,
    buffer: Vec<u8>,
    lead: Lead<K>,
) -> Result<Verdict, CheckFault<F::Fault>>
    requires text { K.text ≡ F.content file.now }
    requires room { 0 < vec_len buffer }
    ensures ok { IfOk result (IsVerdictOn (F.content file.now) K.settings) }
    ensures fault { IfErr result (ReadFailsBy (F.may_fail file.now)) }
{
    let mut runs = runs;
    let mut buffer = buffer;
    let mut lead = lead;
    for _ in rt.forever() {
        if let Some(verdict) = lead.decided() {
            return Ok(verdict);
        }
        match next_run(&mut runs, &lead) {
            Some(run) => lead = lead.follow(&run)?,
            None => {
                let (further, count) = lead_there::<F, K>(file, buffer.as_mut_slice(), lead)?;
                if count == 0 {
                    return Ok(judged::<F, K>(file, further));
                }
                lead = further;
            }
        }
    }
    unreachable!()
}
