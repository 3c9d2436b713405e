// Lines of text onto a page.
ghost use Rattle.std.specs.Prelude.{◌≡◌, [], ◌∷◌, ◌++◌, ◌+◌, ◌*◌, ◌≤◌, length};
ghost use Rattle.text.specs.Put.{decimal_of};
ghost use Rattle.sheet.specs.Lines.{line, double, step_word, step_lines, count_lines};
ghost use Rattle.sheet.specs.inner.Handed.{put};

use crate::answer::Fitted;
use text::double::bits_of;
use text::put::Page;

// A word and a space.
fn put_name(name: &[u8], page: &mut Page<'_>)
    requires { page.old.at + length name.now + 1 ≤ length page.old.out.now }
    ensures out_after { (page.new.at, page.new.out.now) ≡ put (name.now ++ (32 ∷ [])) page.old.at page.old.out.now }
    ensures value { page.new.at ≡ page.old.at + length name.now + 1 }
    ensures same_out { page.new.out.ghost_name ≡ page.old.out.ghost_name }
{
    page.bytes(name);
    page.bytes(b" ");
}

// A double and the end of the line.
fn put_double(x: f64, page: &mut Page<'_>)
    requires { page.old.at + 17 ≤ length page.old.out.now }
    ensures out_after { (page.new.at, page.new.out.now) ≡ put (double x ++ (10 ∷ [])) page.old.at page.old.out.now }
    ensures value { page.new.at ≡ page.old.at + 17 }
    ensures same_out { page.new.out.ghost_name ≡ page.old.out.ghost_name }
{
    page.word(bits_of(x));
    page.bytes(b"\n");
}

pub(crate) fn double_line(name: &[u8], x: f64, page: &mut Page<'_>)
    requires { page.old.at + length name.now + 18 ≤ length page.old.out.now }
    ensures out_after { (page.new.at, page.new.out.now) ≡ put (line name.now (double x)) page.old.at page.old.out.now }
    ensures value { page.new.at ≡ page.old.at + length name.now + 18 }
    ensures same_out { page.new.out.ghost_name ≡ page.old.out.ghost_name }
{
    put_name(name, page);
    put_double(x, page);
}

pub(crate) fn number_line(name: &[u8], n: u64, page: &mut Page<'_>)
    requires { page.old.at + length name.now + 22 ≤ length page.old.out.now }
    ensures out_after { (page.new.at, page.new.out.now) ≡ put (line name.now (decimal_of n)) page.old.at page.old.out.now }
    ensures upper_bound { page.new.at ≤ page.old.at + length name.now + 22 }
    ensures same_out { page.new.out.ghost_name ≡ page.old.out.ghost_name }
{
    put_name(name, page);
    page.decimal(n);
    page.bytes(b"\n");
}

// One column's line.
fn step_line(i: usize, x: f64, page: &mut Page<'_>)
    requires { page.old.at + 43 ≤ length page.old.out.now }
    ensures out_after { (page.new.at, page.new.out.now) ≡ put (line step_word (decimal_of i ++ (32 ∷ []) ++ double x)) page.old.at page.old.out.now }
    ensures upper_bound { page.new.at ≤ page.old.at + 43 }
    ensures same_out { page.new.out.ghost_name ≡ page.old.out.ghost_name }
{
    put_name(b"step", page);
    page.decimal(i as u64);
    page.bytes(b" ");
    put_double(x, page);
}

pub(crate) fn step_lines(step: &[f64], page: &mut Page<'_>)
    requires { page.old.at + 43 * length step.now ≤ length page.old.out.now }
    ensures out_after { (page.new.at, page.new.out.now) ≡ put (step_lines 0 step.now) page.old.at page.old.out.now }
    ensures upper_bound { page.new.at ≤ page.old.at + 43 * length step.now }
    ensures same_out { page.new.out.ghost_name ≡ page.old.out.ghost_name }
{
    for (i, x) in step.iter().enumerate() {
        step_line(i, *x, page);
    }
}

// The lines between the radius and the step.
pub(crate) fn count_lines(f: Fitted, page: &mut Page<'_>)
    requires { page.old.at + 106 ≤ length page.old.out.now }
    ensures out_after { (page.new.at, page.new.out.now) ≡ put (count_lines f) page.old.at page.old.out.now }
    ensures upper_bound { page.new.at ≤ page.old.at + 106 }
    ensures same_out { page.new.out.ghost_name ≡ page.old.out.ghost_name }
{
    double_line(b"lambda", f.lambda, page);
    double_line(b"norm", f.norm, page);
    number_line(b"trials", f.trials as u64, page);
    number_line(b"determined", f.determined as u64, page);
}
