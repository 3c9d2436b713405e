// Document 01, 'Leaf rules': the helpers on one or two numbers, and the constants. Max and min test their first operand alone for NaN: a NaN
// compares with nothing, so the first is kept where the second is one.
ghost use Rattle.std.specs.Prelude.{◌≡◌};
ghost use Rattle.std.specs.Float.Ieee.{lt, le};
ghost use Rattle.leaves.specs.Number.{is_negative, abs_of, max_of, min_of, square_of, is_finite, epsmch as epsmch_of, dwarf as dwarf_of};

// 2^-52.
const EPSMCH: f64 = 2.220446049250313e-16;

// 2^-1022.
const DWARF: f64 = 2.2250738585072014e-308;

// 2^−52: the distance from 1 to the next double. Refuses nothing.
pub fn epsmch() -> f64
    ensures { result ≡ epsmch_of }
{
    EPSMCH
}

// 2^−1022: the least normal double. Refuses nothing.
pub fn dwarf() -> f64
    ensures { result ≡ dwarf_of }
{
    DWARF
}

// Whether the sign bit of x is set, of a zero too; a NaN counts as not negative. A zero shows its sign only in a quotient. Refuses nothing.
pub fn is_negative(x: f64) -> bool
    ensures { result ≡ is_negative x }
{
    if x == 0.0 { 1.0 / x < 0.0 } else { x < 0.0 }
}

// The absolute value of x: −x where its sign bit is set. Refuses nothing.
pub fn abs(x: f64) -> f64
    ensures { result ≡ abs_of x }
{
    if is_negative(x) { -x } else { x }
}

// The larger of a and b: the other where one is NaN, a where they are equal. Refuses nothing.
pub fn max(a: f64, b: f64) -> f64
    ensures { result ≡ max_of a b }
{
    if a != a {
        return b;
    }
    if a < b { b } else { a }
}

// The lesser of a and b: the other where one is NaN, a where they are equal. Refuses nothing.
pub fn min(a: f64, b: f64) -> f64
    ensures { result ≡ min_of a b }
{
    if a != a {
        return b;
    }
    if b < a { b } else { a }
}

// x·x, rounded once. Refuses nothing.
pub fn square(x: f64) -> f64
    ensures { result ≡ square_of x }
{
    x * x
}

// Whether x is neither NaN nor infinite. Refuses nothing.
pub fn is_finite(x: f64) -> bool
    ensures { result ≡ is_finite x }
{
    let top = f64::from_bits(0x7ff0_0000_0000_0000);
    if -top < x { x < top } else { false }
}

// Whether |x| < a. Two-sided, because the absolute value's sign of zero costs a division. Refuses nothing.
pub fn abs_below(x: f64, a: f64) -> bool
    ensures { result ≡ lt (abs_of x) a }
{
    if -a < x { x < a } else { false }
}

// Whether |x| ≤ a, two-sided too. Refuses nothing. Two functions: a comparison as a parameter would say more than both of them.
pub fn abs_within(x: f64, a: f64) -> bool
    ensures { result ≡ le (abs_of x) a }
{
    if -a <= x { x <= a } else { false }
}
