// The lines of many rows: each worker makes those of a page, and the calling thread writes the pages in order. It goes on alone
// where there is no memory for workers.
ghost use Rattle.std.specs.Prelude.{◌≡◌, ◌-◌, ◌*◌, ◌≤◌, ◌++◌, false, is_err, length, vec_capacity, All, IfOk, OnErr, IfErr};
ghost use Rattle.std.specs.Io.KnownBytes.{Appends};
ghost use Rattle.jx_ends.specs.Ends.{AppendsBeginning};
ghost use Rattle.jx_report.specs.RowWords.{row_lines};
ghost use Rattle.jx_report.specs.inside.Pages.{AreWritten, IsPageOf, lines_between, lines_from};
ghost use Rattle.jx_words.specs.inside.Room.{HasRoom};

use crate::page::{GREATEST_PAGE, LEAST_PAGE, Page};
use crate::row_words::{LONGEST_ROW, RowColumns};
use jx_crew::{Crew, Workers};
use jx_ends::{ReportFault, Sink, write_whole};
use jx_fork::call_each;
use jx_index::Row;
use std::alloc::{AllocError, Global};
use std::thread::Threads;

/// How many rounds pages are made for where there are enough rows. More rounds cost more threads, and fewer more memory.
const ROUNDS: usize = 8;

/// Appends the lines of the rows from one on, up to another.
fn push_rows(lines: &mut Vec<u8>, rows: &[Row], first: usize, next: usize)
    requires ordered { first ≤ next }
    requires within { next ≤ length rows.now }
    requires room { HasRoom lines.old ((next - first) * LONGEST_ROW) }
    ensures lines { lines.new.items ≡ lines.old.items ++ lines_between rows.now first next }
    ensures room { vec_capacity lines.old ≤ vec_capacity lines.new }
{
    let mut columns = RowColumns::new();
    for number in first..next {
        columns.push_row(lines, number, &rows[number]);
    }
}

impl Page {
    /// The page with the lines of its rows in a round that begins with a row.
    fn filled(self, rows: &[Row], from: usize) -> Page
        ensures { IsPageOf rows.now result }
    {
        let Page {
            mut lines,
            size,
            place,
            first: _,
            next: _,
        } = self;
        let first = from
            .saturating_add(place.saturating_mul(size))
            .min(rows.len());
        let next = first + size.min(rows.len() - first);
        lines.clear();
        push_rows(&mut lines, rows, first, next);
        Page {
            lines,
            size,
            place,
            first,
            next,
        }
    }
}

/// A page for each worker, as far as there are rows that fill it. No page where there would be one.
pub(crate) fn pages_for(
    alloc: Global,
    workers: Workers,
    rows: usize,
) -> Result<Vec<Page>, AllocError> {
    let most = workers.count() as usize;
    let size = (rows / most / ROUNDS).clamp(LEAST_PAGE, GREATEST_PAGE);
    let count = most.min(rows / size);
    let mut pages = Vec::new(alloc);
    if count < 2 {
        return Ok(pages);
    }
    for place in 0..count {
        let page = Page::new(alloc, size, place)?;
        pages.push(page)?;
    }
    Ok(pages)
}

/// Fills the pages of a round that begins with a row, each in a thread of its own where one can be made.
fn fill_each<R: Threads + Sync>(
    rt: &R,
    alloc: Global,
    pages: Vec<Page>,
    rows: &[Row],
    from: usize,
) -> Result<Vec<Page>, AllocError>
    ensures { IfOk result (λ v. All (IsPageOf rows.now) v.items) }
{
    call_each(
        rt,
        alloc,
        pages,
        &|page: Page| -> Page
            ensures { IsPageOf rows.entry.now result }
        { page.filled(rows, from) },
    )
}

/// Writes a page if it begins with the row that comes next, and answers which row comes then. So what is written is right
/// in whatever order pages come.
fn write_page<W: Sink>(
    writer: &mut W,
    page: &Page,
    rows: &[Row],
    next: usize,
) -> Result<usize, ReportFault>
    requires unfailed { W.has_failed writer.old ≡ false }
    requires within { next ≤ length rows.now }
    requires page { IsPageOf rows.now page.now }
    ensures ok { IfOk result (AreWritten rows.now (W.contents writer.old) (W.contents writer.new) next) }
    ensures err { OnErr result (AppendsBeginning (W.contents writer.old) (W.contents writer.new) (lines_from rows.now next)) }
    ensures fault { IfErr result (λ fault. fault ≡ ReportFault.Write) }
    ensures failed { W.has_failed writer.new ≡ is_err result }
{
    if page.first != next {
        return Ok(next);
    }
    write_whole(writer, &page.lines)?;
    Ok(page.next)
}

/// Writes the pages of a round, from a row on, and answers which row comes then.
fn write_pages<W: Sink>(
    writer: &mut W,
    pages: &[Page],
    rows: &[Row],
    from: usize,
) -> Result<usize, ReportFault>
    requires unfailed { W.has_failed writer.old ≡ false }
    requires within { from ≤ length rows.now }
    requires pages { All (IsPageOf rows.now) pages.now }
    ensures ok { IfOk result (AreWritten rows.now (W.contents writer.old) (W.contents writer.new) from) }
    ensures err { OnErr result (AppendsBeginning (W.contents writer.old) (W.contents writer.new) (lines_from rows.now from)) }
    ensures fault { IfErr result (λ fault. fault ≡ ReportFault.Write) }
    ensures failed { W.has_failed writer.new ≡ is_err result }
{
    let mut next = from;
    for page in pages {
        next = write_page(writer, page, rows, next)?;
    }
    Ok(next)
}

/// Writes the lines of the rows in rounds of pages, and answers which row comes then: one of those that are left where
/// there is no memory for a round.
pub(crate) fn write_in_rounds<R: Threads + Sync, G, W: Sink>(
    crew: &Crew<'_, R, G>,
    writer: &mut W,
    mut pages: Vec<Page>,
    rows: &[Row],
) -> Result<usize, ReportFault>
    requires unfailed { W.has_failed writer.old ≡ false }
    ensures ok { IfOk result (AreWritten rows.now (W.contents writer.old) (W.contents writer.new) 0) }
    ensures err { OnErr result (AppendsBeginning (W.contents writer.old) (W.contents writer.new) (row_lines 0 rows.now)) }
    ensures fault { IfErr result (λ fault. fault ≡ ReportFault.Write) }
    ensures failed { W.has_failed writer.new ≡ is_err result }
{
    let mut next = 0;
    for _ in 0..rows.len().div_ceil(LEAST_PAGE) {
        if next == rows.len() {
            break;
        }
        match fill_each(crew.rt, crew.alloc, pages, rows, next) {
            Ok(filled) => pages = filled,
            Err(_) => return Ok(next),
        }
        next = write_pages(writer, &pages, rows, next)?;
    }
    Ok(next)
}
