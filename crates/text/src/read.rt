// A hex number out of a line.
ghost use Rattle.std.specs.Prelude.{◌≡◌, ◌*◌, ◌<◌, drop};
ghost use Rattle.text.specs.Read.{number_ends, stopped, read_from};

use crate::digit::value;

// A number, and the place of what stands after its last digit.
#[derive(Clone, Copy)]
pub struct Found {
    pub value: u64,
    pub next: usize,
}

// What a number that began at `at` is when it ends at i: none without a digit.
#[tactic(auto, unfolding(crate::specs::Read::number_ends))]
fn end(at: usize, v: u64, i: usize) -> Option<Found>
    ensures { result ≡ number_ends at v i }
{
    if i == at {
        return None;
    }
    Some(Found { value: v, next: i })
}

// The same at a byte that is no digit: none unless it is a space or the end of a line.
#[tactic(auto, unfolding(crate::specs::Read::stopped))]
fn stop(at: usize, v: u64, i: usize, b: u8) -> Option<Found>
    ensures { result ≡ stopped at v i b }
{
    if b == b' ' {
        return end(at, v, i);
    }
    if b == b'\n' {
        return end(at, v, i);
    }
    None
}

// The number whose digits stand from `at` up to the next space, end of line or end of the bytes. None where it has no
// digit, or does not fit 64 bits.
pub fn number(s: &[u8], at: usize) -> Option<Found>
    ensures { result ≡ read_from at 0 at (drop at s.now) }
{
    let mut v: u64 = 0;
    for i in at..s.len() {
        let b = s[i];
        let Some(k) = value(b) else {
            return stop(at, v, i, b);
        };
        if v >= 0x1000_0000_0000_0000 {
            return None;
        }
        v = v * 16 + k;
    }
    end(at, v, at.max(s.len()))
}
