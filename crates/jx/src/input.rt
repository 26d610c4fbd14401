// Inputs, and the reports on those that cannot be read.
ghost use Rattle.std.specs.Prelude.{◌≡◌, ⊤, false, IfErr, IfOk};

use crate::arguments::is_marked;
use crate::fault::Fault;
use crate::output::{Writer, fault_of_write};
use crate::progress::{Watch, watch_of};
use crate::shared_file::{SharedFile, share};
use jx_command::{Input, ShowProgress, input_of};
use jx_ends::{End, ReportFault};
use jx_explain::Explainer;
use jx_files::{FileFault, Opener, Reason, tell};
use std::alloc::AllocError;
use std::fs::File;
use std::io;
use std::io::{Read, Stdin};

/// The origin of the bytes of an input.
#[derive(Drop)]
enum Origin {
    Standard(Stdin),
    File(File),
}

/// An input that is open, why the last read of it failed, if it failed, the watch that shows how far it was read, and what explains it.
#[derive(Drop)]
pub struct Opened<'r> {
    origin: Origin,
    pub why: Reason,
    watch: Option<Watch<'r>>,
    /// It is fed all that is read.
    pub explainer: Option<Explainer>,
}

/// Gives a watch, if there is one, the result of a read. Where nothing was read, nothing is left.
fn note(watch: &mut Option<Watch<'_>>, read: &io::Result<usize>) {
    if let Some(watch) = watch {
        match read {
            Ok(0) | Err(_) => watch.end(),
            Ok(count) => watch.count(*count),
        }
    }
}

/// Feeds what explains an input, if anything does, the bytes that a read gave.
fn explain(explainer: &mut Option<Explainer>, read: &io::Result<usize>, bytes: &[u8]) {
    if let Some(explainer) = explainer {
        if let Ok(count) = read {
            explainer.feed(bytes.get(..*count).unwrap_or(bytes));
        }
    }
}

impl<'r> Read for Opened<'r> {
    fn read(&mut self, buf: &mut [u8]) -> io::Result<usize> {
        let result = match &mut self.origin {
            Origin::Standard(stdin) => stdin.read(buf),
            Origin::File(file) => file.read(buf),
        };
        if let Err(error) = &result {
            self.why = Reason::of(error);
        }
        note(&mut self.watch, &result);
        explain(&mut self.explainer, &result, buf);
        result
    }
}

/// The reader of a report.
pub type Reader<'r> = End<Opened<'r>>;

/// Why a file did not open.
fn unopened_by(error: &io::Error) -> FileFault {
    match error.kind() {
        io::ErrorKind::OutOfMemory => FileFault::Memory,
        _ => FileFault::Open(Reason::of(error)),
    }
}

/// Opens a file. A directory opens too, and is reported with the system's message. A name that is not UTF-8 is that of no file.
pub fn file_of(rt: &HostRuntime, path: &str) -> Result<File, FileFault> {
    if is_marked(path) {
        return Err(FileFault::Open(Reason::Invalid));
    }
    match File::open(rt, path) {
        Err(error) => Err(unopened_by(&error)),
        Ok(file) => match file.metadata() {
            Ok(found) if found.is_dir() => Err(FileFault::Folder),
            _ => Ok(file),
        },
    }
}

/// The size of what is read, where that is known.
fn size_of(origin: &Origin) -> Option<u64> {
    match origin {
        Origin::Standard(_) => None,
        Origin::File(file) => match file.metadata() {
            Ok(found) if found.is_file() => Some(found.len()),
            _ => None,
        },
    }
}

fn reader_of<'r>(
    rt: &'r HostRuntime,
    input: Input<'_>,
    progress: ShowProgress,
) -> Result<Reader<'r>, FileFault>
    ensures { IfOk result (λ reader. reader.failed ≡ false) }
{
    let origin = match input {
        Input::Standard => Origin::Standard(rt.stdin()),
        Input::File(path) => Origin::File(file_of(rt, path)?),
    };
    let watch = watch_of(rt, progress, size_of(&origin));
    Ok(End::new(Opened {
        origin,
        why: Reason::Other,
        watch,
        explainer: None,
    }))
}

/// How many bytes a file has at least that is read at offsets. One thread alone reads as many first, and buffers for that cost a
/// shorter file more than they gain.
const LEAST_SHARED: u64 = 1024 * 1024;

/// Whether several threads may gain by reading a regular file.
fn is_long(origin: &Origin) -> bool {
    match size_of(origin) {
        Some(size) => size >= LEAST_SHARED,
        None => false,
    }
}

/// The file that a reader reads from, where it is a regular one, of a MiB at least, and no progress is shown nor the text explained;
/// else the reader.
pub fn file_in<'r>(reader: Reader<'r>) -> Result<File, Reader<'r>>
    ensures { IfErr result (λ back. back ≡ reader.entry) }
{
    let is_followed = reader.inner.watch.is_some() || reader.inner.explainer.is_some();
    if is_followed || !is_long(&reader.inner.origin) {
        return Err(reader);
    }
    let End { inner, failed } = reader;
    let Opened {
        origin,
        why,
        watch,
        explainer,
    } = inner;
    match origin {
        Origin::File(file) => Ok(file),
        origin => Err(End {
            inner: Opened {
                origin,
                why,
                watch,
                explainer,
            },
            failed,
        }),
    }
}

/// The name of an input.
pub fn name_of<'a>(input: Input<'a>) -> &'a str {
    match input {
        Input::Standard => "-",
        Input::File(name) => name,
    }
}

/// Reports a fault of an input.
pub fn told_of(rt: &HostRuntime, input: Input<'_>, fault: FileFault) -> Fault {
    tell(&mut End::new(rt.stderr()), name_of(input), fault);
    Fault::Told
}

/// Opens an input, or reports why it does not open.
pub fn open<'r>(rt: &'r HostRuntime, input: Input<'_>) -> Result<Reader<'r>, Fault>
    ensures { IfOk result (λ reader. reader.failed ≡ false) }
{
    open_watched(rt, input, ShowProgress::Never)
}

/// Opens an input that is explained while it is read, or reports why it does not open.
pub fn open_explained<'r>(
    rt: &'r HostRuntime,
    input: Input<'_>,
    explainer: Explainer,
) -> Result<Reader<'r>, Fault>
    ensures { IfOk result (λ reader. reader.failed ≡ false) }
{
    let opened = open(rt, input)?.inner;
    Ok(End::new(Opened {
        explainer: Some(explainer),
        ..opened
    }))
}

/// Opens an input, or reports why it does not open. Its progress may be shown.
pub fn open_watched<'r>(
    rt: &'r HostRuntime,
    input: Input<'_>,
    progress: ShowProgress,
) -> Result<Reader<'r>, Fault>
    ensures { IfOk result (λ reader. reader.failed ≡ false) }
{
    match reader_of(rt, input, progress) {
        Ok(reader) => Ok(reader),
        Err(FileFault::Memory) => Err(Fault::Memory(AllocError)),
        Err(fault) => Err(told_of(rt, input, fault)),
    }
}

/// The fault of a report on an input. A fault of the input is reported; where the reader of the output has gone, there is
/// nothing to report.
pub fn fault_of_report(
    rt: &HostRuntime,
    input: Input<'_>,
    reader: &Reader<'_>,
    writer: &Writer,
    fault: ReportFault,
) -> Fault {
    if let Some(watch) = &reader.inner.watch {
        watch.leave();
    }
    match fault {
        ReportFault::Read => told_of(rt, input, FileFault::Read(reader.inner.why)),
        ReportFault::Pieces => told_of(rt, input, FileFault::Pieces),
        ReportFault::Write => fault_of_write(writer),
        ReportFault::Memory => Fault::Report(fault),
    }
}

/// Opens what words name on the system.
#[derive(Drop)]
pub struct Desk<'a> {
    pub rt: &'a HostRuntime,
    pub progress: ShowProgress,
}

impl<'a> Opener<Reader<'a>, SharedFile> for Desk<'a> {
    // Nothing is claimed of what the system gives.
    ghost opens = { λ _ _ _. ⊤ };

    ghost why = { λ _ reader. reader.inner.why };

    ghost shares = { λ _ _. ⊤ };

    ghost may_fail = { λ _ _ _. ⊤ };

    fn open(&self, word: &str) -> Result<Reader<'a>, FileFault> {
        reader_of(self.rt, input_of(word), self.progress)
    }

    fn why(&self, input: &Reader<'a>) -> Reason {
        input.inner.why
    }

    fn share(&self, input: Reader<'a>) -> Result<SharedFile, Reader<'a>> {
        match share(input) {
            Ok(file) => Ok(file),
            Err(reader) => Err(reader),
        }
    }
}
