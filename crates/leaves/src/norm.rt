// Document 01, 'Leaf rules', enorm: MINPACK-1's ENORM with document 01's limits. Sums of squares are kept apart for
// small, middle and large entries, so that no square overflows or is lost.
ghost use Rattle.std.specs.Prelude.{◌≡◌, ◌≤◌, length};
ghost use Rattle.leaves.specs.Norm.{large as large_of, small as small_of, step as step_of, finish as finish_of, norm as norm_of, ranges as ranges_in, neither as neither_of, either as either_of, enorm as enorm_of};
ghost use Rattle.leaves.specs.inner.Flags.{flags_of};
ghost use Rattle.leaves.specs.Reply.{measured_of};

use crate::number::abs;
use crate::reply::Refusal;
use crate::root::sqrt;

const RDWARF: f64 = 3.834e-20;

const RGIANT: f64 = 1.304e19;

// The sums of squares of large, middle and small entries, and the largest of the large and of the small ones.
#[derive(Clone, Copy)]
pub struct Sums {
    pub s1: f64,
    pub s2: f64,
    pub s3: f64,
    pub x1max: f64,
    pub x3max: f64,
}

fn large(t: Sums, v: f64) -> Sums
    ensures { result ≡ large_of t v }
{
    if t.x1max < v {
        let q = t.x1max / v;
        Sums {
            s1: 1.0 + t.s1 * (q * q),
            x1max: v,
            ..t
        }
    } else {
        let q = v / t.x1max;
        Sums {
            s1: t.s1 + q * q,
            ..t
        }
    }
}

fn small(t: Sums, v: f64) -> Sums
    ensures { result ≡ small_of t v }
{
    if t.x3max < v {
        let q = t.x3max / v;
        return Sums {
            s3: 1.0 + t.s3 * (q * q),
            x3max: v,
            ..t
        };
    }
    if v == 0.0 {
        return t;
    }
    let q = v / t.x3max;
    Sums {
        s3: t.s3 + q * q,
        ..t
    }
}

// Two-sided, so that the absolute value, whose sign of zero costs a division, is taken of small entries alone.
fn step(agiant: f64, t: Sums, x: f64) -> Sums
    ensures { result ≡ step_of agiant t x }
{
    if RDWARF < x {
        if x < agiant {
            return Sums {
                s2: t.s2 + x * x,
                ..t
            };
        }
        return large(t, x);
    }
    if x < -RDWARF {
        if -agiant < x {
            return Sums {
                s2: t.s2 + x * x,
                ..t
            };
        }
        return large(t, -x);
    }
    if x != x {
        return large(t, x);
    }
    small(t, abs(x))
}

// Which of the rule's ranges took part in a norm: an entry that is small and not zero, an entry that is large (02, #106).
#[derive(Clone, Copy)]
pub struct Ranges {
    pub small: bool,
    pub large: bool,
}

// The sums tell it for nothing: the largest small entry is not zero, or the sum of the large ones is not.
fn seen_in(t: Sums) -> Ranges
    ensures { result ≡ flags_of t }
{
    Ranges {
        small: t.x3max != 0.0,
        large: t.s1 != 0.0,
    }
}

fn finish(t: Sums) -> f64
    ensures { result ≡ finish_of t }
{
    if t.s1 != 0.0 {
        return t.x1max * sqrt(t.s1 + t.s2 / t.x1max / t.x1max);
    }
    if t.s2 != 0.0 {
        if t.s2 >= t.x3max {
            return sqrt(t.s2 * (1.0 + t.x3max / t.s2 * (t.x3max * t.s3)));
        }
        return sqrt(t.x3max * (t.s2 / t.x3max + t.x3max * t.s3));
    }
    t.x3max * sqrt(t.s3)
}

// A norm, or a number taken from one, and the ranges that took part.
#[derive(Clone, Copy)]
pub struct Normed {
    pub value: f64,
    pub seen: Ranges,
}

fn sum_up(v: &[f64]) -> Normed
    requires { length v.now ≤ 128 }
    ensures value_value { result.value ≡ norm_of v.now }
    ensures seen_value { result.seen ≡ ranges_in v.now }
{
    let agiant = RGIANT / (v.len() as f64);
    let mut t = Sums {
        s1: 0.0,
        s2: 0.0,
        s3: 0.0,
        x1max: 0.0,
        x3max: 0.0,
    };
    for &x in v {
        t = step(agiant, t, x);
    }
    Normed {
        value: finish(t),
        seen: seen_in(t),
    }
}

// Of a call that works out no norm, and before the first.
pub fn neither() -> Ranges
    ensures { result ≡ neither_of }
{
    Ranges {
        small: false,
        large: false,
    }
}

// What one norm saw, or another.
pub fn either(a: Ranges, b: Ranges) -> Ranges
    ensures { result ≡ either_of a b }
{
    Ranges {
        small: a.small | b.small,
        large: a.large | b.large,
    }
}

// The Euclidean norm of v, and which ranges took part in it: small where an entry was above zero and at most 3.834e-20, large where one
// was 1.304e19 over the number of entries or more, infinite or NaN. Zeros are neither. The flags change nothing about the number.
//
// v: at most 128 numbers, only read. Of none the norm is +0.
// Refused 2 for more.
// The sum is called at two places, or it would be built in here and the answer go through memory (docs/DECISIONS.md, D74).
pub fn enorm(v: &[f64]) -> Result<Normed, Refusal>
    ensures { measured_of result ≡ enorm_of v.now }
{
    if v.len() > 128 {
        return Err(Refusal::Sizes);
    }
    if v.len() <= 16 {
        return Ok(sum_up(v));
    }
    Ok(sum_up(v))
}
