// Document 01, 'Job sheet and its program': the lines that are printed, in a lent buffer. An answer that is to be printed may come from
// anywhere, so it is tested. A sheet's own passes (`sheet_lines_free` in `proofs/Columns.antt`); then only the buffer can be too short.
ghost use Rattle.std.specs.Prelude.{◌≡◌, ◌+◌, ◌≤◌, length};
ghost use Rattle.leaves.specs.Reply.{reply_of, failed_by};
ghost use Rattle.leaves.specs.Tests.{first_of};
ghost use Rattle.sheet.specs.Fit.{numbered_of};
ghost use Rattle.sheet.specs.Lines.{fitted_lines, lines_of, column_tests, lines_tests, printed, lines_call, text_call};
ghost use Rattle.sheet.specs.inner.Handed.{put};

use crate::answer::{Answer, Fitted};
use crate::job::fit;
use crate::put::{count_lines, double_line, number_line, step_lines};
use leaves::reply::Refusal;
use leaves::sizes::filled;
use text::put::Page;

fn fitted_lines(f: Fitted, step: &[f64], page: &mut Page<'_>)
    requires step_value { first_of (column_tests f.columns (length step.now)) ≡ 0 }
    requires at_in_bounds { page.old.at + 794 ≤ length page.old.out.now }
    ensures out_after { (page.new.at, page.new.out.now) ≡ put (fitted_lines f step.now) page.old.at page.old.out.now }
    ensures upper_bound { page.new.at ≤ page.old.at + 794 }
    ensures same_out { page.new.out.ghost_name ≡ page.old.out.ghost_name }
{
    let n = f.columns;
    count_lines(f, page);
    step_lines(&step[..n], page);
}

fn answer_lines(a: Result<Answer, u8>, step: &[f64], page: &mut Page<'_>)
    requires step_value { first_of (lines_tests (numbered_of a) (length step.now)) ≡ 0 }
    requires in_bounds { page.old.at + 1024 ≤ length page.old.out.now }
    ensures out_after { (page.new.at, page.new.out.now) ≡ put (lines_of (numbered_of a) step.now) page.old.at page.old.out.now }
    ensures upper_bound { page.new.at ≤ page.old.at + 1024 }
    ensures same_out { page.new.out.ghost_name ≡ page.old.out.ghost_name }
{
    match a {
        Ok(Answer::Searched(f)) => fitted_lines(f, step, page),
        Ok(Answer::Started(t)) => {
            double_line(b"radius", t.radius, page);
            fitted_lines(t.fitted, step, page);
        }
        Err(k) => number_line(b"refused", k as u64, page),
    }
}

fn check_columns(f: Fitted, step: usize) -> Result<(), Refusal>
    ensures { failed_by result ≡ first_of (column_tests f.columns step) }
{
    let n = f.columns;
    if n == 0 {
        return Err(Refusal::Sizes);
    }
    if 16 < n {
        return Err(Refusal::Sizes);
    }
    if step < n {
        return Err(Refusal::Length);
    }
    Ok(())
}

fn check_lines(a: Result<Answer, u8>, step: usize) -> Result<(), Refusal>
    ensures { failed_by result ≡ first_of (lines_tests (numbered_of a) step) }
{
    match a {
        Ok(Answer::Searched(f)) => check_columns(f, step),
        Ok(Answer::Started(t)) => check_columns(t.fitted, step),
        Err(_) => Ok(()),
    }
}

fn print(source: &[u8], text: &mut [u8]) -> Result<usize, Refusal>
    ensures { (reply_of result, text.new) ≡ printed source.now text.old }
{
    let n = source.len();
    if text.len() < n {
        return Err(Refusal::Length);
    }
    let mut page = Page { out: text, at: 0 };
    page.bytes(source);
    Ok(n)
}

// An answer as the lines that `fitstep` prints.
//
// a: the answer, or the number of a refusal, whatever it is. step: the step that goes with it, only read. text: on exit the lines, from its start; what follows them is as it was.
// Answers how many bytes were written.
// Refused 2 where the answer's columns are not 1 to 16, 3 where step or text is too short; text is then as it was.
pub fn write_lines(a: Result<Answer, u8>, step: &[f64], text: &mut [u8]) -> Result<usize, Refusal>
    ensures { (reply_of result, text.new) ≡ lines_call (numbered_of a) step.now text.old }
{
    check_lines(a, step.len())?;
    let mut room: [u8; 1024] = filled(0);
    let mut page = Page {
        out: &mut room,
        at: 0,
    };
    answer_lines(a, step, &mut page);
    let n = page.at;
    print(&room[..n], text)
}

// What `fitstep` prints for a sheet: both in one.
//
// sheet: its bytes, only read. text: on exit the lines, from its start; what follows them is as it was.
// Answers how many bytes were written; a refused sheet has its line too.
// Refused 3 where text is too short (1,024 bytes always suffice); text is then as it was.
pub fn fit_lines(sheet: &[u8], text: &mut [u8]) -> Result<usize, Refusal>
    ensures { (reply_of result, text.new) ≡ text_call sheet.now text.old }
{
    let mut step: [f64; 16] = filled(0.0);
    let a = fit(sheet, &mut step).map_err(u8::from);
    write_lines(a, &step, text)
}
