// 01, 'Leaf rules', square root. 02, #103: every bit of the answer comes from shifts, adds and compares of whole numbers, for a board whose
// 64-bit multiply is software. A difference is an add; what only moves bits (`to_bits`, `from_bits`) is not counted.
//
// A finite x above zero is n units of 2^-1074. Where n has z binary digits, n = t·2^z / 2^53 for a t of 53 digits. With j = (z + 969) / 2
//
//     n·2^1074 = S·4^j,   S = v·2^52,   v = t if z + 969 is even, 2t if it is odd,   2^104 <= S < 2^106,
//
// so x = S·4^k for k = j - 1074, and 01 asks for q·2^k, q the whole number nearest to √S. No tie can come: (q + 1/2)² is not whole. As
// √S is from 2^52 up to 2^53 and, v being at most 2^54 - 2, not within a half of 2^53, q has 53 digits. The answer is q·2^j units, and
// its pattern j·2^52 + q: q's leading digit is the one by which an exponent's field is above j. Nothing overflows or underflows.
//
// q from a root with one digit more. Let W be the whole root of 4S = v·2^54, which has 54 digits: W² <= 4S < (W + 1)². Then q is
// (W + 1) / 2 without its half. For where W is odd it is 2q - 1, and (2q - 1)² is not 4S, being odd; where W is even it is 2q. Either way 4S is
// strictly between (2q - 1)² and (2q + 1)², as 01 has it, and no remainder is compared.
//
// W by digits, the first worth 2^53. Let W be what the digits so far make, s = 2W, r what the next is worth, and rem what is left, in r's:
//
//     4S = W² + rem·r.
//
// The next digit is 1 where (W + r)² <= 4S, which is r·(2W + r) <= rem·r, or s + r <= rem; then rem becomes less by that s + r, and s more by
// 2r. The digit after it is worth half of r, and in halves rem counts twice:
//
//     start     s = 0, rem = 2v, r = 2^53
//     a digit   t = s + r;   where t <= rem: rem = rem - t, s = t + r;   then rem = 2·rem, r = r / 2
//
// (W + r + r)² stays above 4S, so that rem < 2s + 4r, and s + 4r <= 2^55: every number here is below 2^57. At the end q is (s + 2) / 4.
ghost use Rattle.std.specs.Prelude.{◌≡◌, ◌+◌, ◌*◌, ◌^◌, ◌≤◌, ◌<◌};
ghost use Rattle.leaves.specs.Root.{root_s, near_root};
ghost use Rattle.leaves.specs.inner.Parts.{Normed, Digit, packed, magnitude};

// t and z of the derivation: n has z digits, and t the same moved to 53.
#[derive(Clone, Copy)]
pub struct Norm {
    pub t: u64,
    pub z: u64,
}

// s and rem of the derivation.
#[derive(Clone, Copy)]
pub struct Going {
    pub s: u64,
    pub rem: u64,
}

// A subnormal's pattern is its n. One turn for each place that is missing: a `while`, since it ends on what t is and counts nothing.
fn raise(t: u64) -> Norm
    requires { (0 < t) × (t < 2 ^ 52) }
    ensures { Normed t result.t result.z }
{
    let mut m = t << 1;
    let mut z: u64 = 52;
    while m < 0x10_0000_0000_0000 {
        m = m << 1;
        z -= 1;
    }
    Norm { t: m, z }
}

// t and z from the pattern: above the subnormals the leading digit is not stored, and the field is z - 52. Up by 12 and down again, the
// field falls off at the top.
fn split(b: u64) -> Norm
    requires { (0 < b) × (b < 2047 * 2 ^ 52) }
    ensures { Normed (magnitude b) result.t result.z }
{
    if b < 0x10_0000_0000_0000 {
        raise(b)
    } else {
        Norm {
            t: ((b << 12) >> 12) + 0x10_0000_0000_0000,
            z: (b >> 52) + 52,
        }
    }
}

// A digit.
fn digit(s: u64, rem: u64, r: u64) -> Going
    requires { (rem < 2 * s + 4 * r) × (s + 4 * r ≤ 2 ^ 55) }
    ensures { Digit s rem r result.s result.rem }
{
    let t = s + r;
    if t <= rem {
        let d = rem - t;
        return Going {
            s: t + r,
            rem: d + d,
        };
    }
    Going { s, rem: rem + rem }
}

// q, by 54 digits: after the last, worth 1, nothing is left of r. A `while`: its r is the digit's worth and no index.
fn near_root(v: u64) -> u64
    requires { (2 ^ 52 ≤ v) × (v + 1 < 2 ^ 54) }
    ensures { (result ≡ near_root (v * 2 ^ 52)) × (2 ^ 52 ≤ result) × (result < 2 ^ 53) }
{
    let mut s: u64 = 0;
    let mut rem = v + v;
    let mut r: u64 = 0x20_0000_0000_0000;
    while r > 0 {
        let g = digit(s, rem, r);
        s = g.s;
        rem = g.rem;
        r = r >> 1;
    }
    (s + 2) >> 2
}

// j·2^52 + q. z + 969 is even where its half, twice, is the same again.
fn pattern(b: u64) -> u64
    requires { (0 < b) × (b < 2047 * 2 ^ 52) }
    ensures { result ≡ packed (magnitude b) }
{
    let n = split(b);
    let e = n.z + 969;
    let j = e >> 1;
    let v = if j << 1 == e { n.t } else { n.t << 1 };
    (j << 52) + near_root(v)
}

// 01: ±0 gives itself, below zero or NaN gives NaN, +infinity itself; else the nearest. The pattern is read only where x is no NaN: a
// NaN's bits are not promised. NaN is made by a difference of infinities, not by a quotient.
pub fn sqrt(x: f64) -> f64
    ensures { result ≡ root_s x }
{
    if x != x {
        return x;
    }
    if x == 0.0 {
        return x;
    }
    if x < 0.0 {
        let top = f64::from_bits(0x7ff0_0000_0000_0000);
        return top - top;
    }
    let b = f64::to_bits(x);
    if b >= 0x7ff0_0000_0000_0000 {
        return x;
    }
    f64::from_bits(pattern(b))
}
