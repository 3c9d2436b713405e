// Text into a lent buffer from a place on.
ghost use Rattle.std.specs.Prelude.{◌≡◌, ◌+◌, ◌<◌, ◌≤◌, length};
ghost use Rattle.std.proofs.lemmas.List.Edits.{sets};
ghost use Rattle.text.specs.Put.{digits, places_of, hex_of, decimal_of, stored};
ghost use Rattle.text.specs.inner.Spelling.{put_from};

use crate::digit::capital;

// How many digits n has in base.
fn places(n: u64, base: u64) -> usize
    requires { 0 < base }
    ensures { (result ≡ places_of base n) × (result ≤ 20) }
{
    let mut rest = n;
    for k in 1..20 {
        if rest < base {
            return k;
        }
        rest = rest / base;
    }
    20
}

// The last k digits of n in base, from the last to the first.
fn spell(n: u64, base: u64, k: usize, out: &mut [u8], at: usize)
    requires base_nonzero { (0 < base) × (base ≤ 16) }
    requires k_in_bounds { at + k ≤ length out.old }
    ensures { out.new ≡ put_from base k n at out.old }
{
    let mut rest = n;
    for i in (0..k).rev() {
        out[at + i] = capital(rest % base);
        rest = rest / base;
    }
}

// A lent buffer that is written from a place on. What does not fit is not written, and the place stays.
#[derive(Drop)]
pub struct Page<'a> {
    pub out: &'a mut [u8],
    pub at: usize,
}

fn copy(src: &[u8], out: &mut [u8], at: usize)
    requires { at + length src.now ≤ length out.old }
    ensures { out.new ≡ sets out.old at src.now }
{
    out[at..at + src.len()].copy_from_slice(src);
}

impl Page<'_> {
    fn put_digits(&mut self, n: u64, base: u64, k: usize)
        requires base_nonzero { (0 < base) × (base ≤ 16) }
        requires k_bound { k ≤ 20 }
        ensures wrote { (self.new.at, self.new.out.now) ≡ stored (digits base k n) self.old.at self.old.out.now }
        ensures same_out { self.new.out.ghost_name ≡ self.old.out.ghost_name }
    {
        if self.out.len() < k {
            return;
        }
        if self.out.len() - k < self.at {
            return;
        }
        spell(n, base, k, self.out, self.at);
        self.at += k;
    }

    // n as 16 capital hex digits.
    pub fn word(&mut self, n: u64)
        ensures wrote { (self.new.at, self.new.out.now) ≡ stored (digits 16 16 n) self.old.at self.old.out.now }
        ensures same_out { self.new.out.ghost_name ≡ self.old.out.ghost_name }
    {
        self.put_digits(n, 16, 16);
    }

    // n as capital hex digits with no leading zeros.
    pub fn hex(&mut self, n: u64)
        ensures wrote { (self.new.at, self.new.out.now) ≡ stored (hex_of n) self.old.at self.old.out.now }
        ensures same_out { self.new.out.ghost_name ≡ self.old.out.ghost_name }
    {
        self.put_digits(n, 16, places(n, 16));
    }

    // n as decimal digits with no leading zeros.
    pub fn decimal(&mut self, n: u64)
        ensures wrote { (self.new.at, self.new.out.now) ≡ stored (decimal_of n) self.old.at self.old.out.now }
        ensures same_out { self.new.out.ghost_name ≡ self.old.out.ghost_name }
    {
        self.put_digits(n, 10, places(n, 10));
    }

    // src as it is.
    pub fn bytes(&mut self, src: &[u8])
        ensures wrote { (self.new.at, self.new.out.now) ≡ stored src.now self.old.at self.old.out.now }
        ensures same_out { self.new.out.ghost_name ≡ self.old.out.ghost_name }
    {
        if self.out.len() < src.len() {
            return;
        }
        if self.out.len() - src.len() < self.at {
            return;
        }
        copy(src, self.out, self.at);
        self.at += src.len();
    }
}
