// The doubles of a sheet, 64 bits each, most significant bit first.
ghost use Rattle.std.specs.Prelude.{◌≡◌, ◌+◌, ◌*◌, ◌<◌, ◌≤◌, ◌^◌, length, take, drop};
ghost use Rattle.sheet.specs.Sheet.{big, doubles};

use text::double::of_bits;

fn half_at(s: &[u8], at: usize) -> u64
    requires { at + 4 ≤ length s.now }
    ensures { (result ≡ big 0 (take 4 (drop at s.now))) × (result < 2 ^ 32) }
{
    s[at] as u64 * 16777216 + s[at + 1] as u64 * 65536 + s[at + 2] as u64 * 256 + s[at + 3] as u64
}

// The first half is the more significant one.
fn word_at(s: &[u8], at: usize) -> u64
    requires { at + 8 ≤ length s.now }
    ensures { result ≡ big 0 (take 8 (drop at s.now)) }
{
    let high = half_at(s, at);
    let low = half_at(s, at + 4);
    high * 4294967296 + low
}

// As many as out holds, from behind the head on.
pub(crate) fn doubles_into(s: &[u8], out: &mut [f64])
    requires { 3 + 8 * length out.old ≤ length s.now }
    ensures { out.new ≡ doubles (length out.old) (drop 3 s.now) }
{
    for (i, x) in out.iter_mut().enumerate() {
        *x = of_bits(word_at(s, 3 + 8 * i));
    }
}
