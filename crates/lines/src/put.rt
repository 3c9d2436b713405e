// Words onto a page, each with a space before it.
ghost use Rattle.std.specs.Prelude.{◌≡◌};
ghost use Rattle.text.specs.Put.{hex_of};
ghost use Rattle.lines.specs.Put.{joined, space, double_at, row_from, refusing};

use text::double::bits_of;
use text::put::Page;

// A space and k in capital hex digits.
pub fn number(k: usize, page: &mut Page<'_>)
    ensures wrote { (page.new.at, page.new.out.now) ≡ joined space (hex_of k) page.old.at page.old.out.now }
    ensures same_out { page.new.out.ghost_name ≡ page.old.out.ghost_name }
{
    page.bytes(b" ");
    page.hex(k as u64);
}

// A space and the 16 hex digits of x.
pub fn double(x: f64, page: &mut Page<'_>)
    ensures wrote { (page.new.at, page.new.out.now) ≡ double_at x page.old.at page.old.out.now }
    ensures same_out { page.new.out.ghost_name ≡ page.old.out.ghost_name }
{
    page.bytes(b" ");
    page.word(bits_of(x));
}

// Each double of v as `double` puts it, one after the other.
pub fn row(v: &[f64], page: &mut Page<'_>)
    ensures wrote { (page.new.at, page.new.out.now) ≡ row_from v.now page.old.at page.old.out.now }
    ensures same_out { page.new.out.ghost_name ≡ page.old.out.ghost_name }
{
    for x in v {
        double(*x, page);
    }
}

// `refused` and its number, with no space before it. Any number: an enum would ask more of a caller.
pub fn refused(k: u8, page: &mut Page<'_>)
    ensures wrote { (page.new.at, page.new.out.now) ≡ joined refusing (hex_of k) page.old.at page.old.out.now }
    ensures same_out { page.new.out.ghost_name ≡ page.old.out.ghost_name }
{
    page.bytes(b"refused ");
    page.hex(k as u64);
}
