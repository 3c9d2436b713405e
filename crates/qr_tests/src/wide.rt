// The tests of qr.rs on wide matrices: a problem of 2 rows and 4 columns has the outcome of the same with two zero rows more. Both
// problems' whole rooms are compared: the square, qt_b, the norms, l_diag and work, 32 numbers.
use crate::near::default_epsilon;
use crate::side::Side;
use crate::{near, problem, side};

const WIDE: [f64; 8] = [6.0, 4.0, 4.0, 0.0, 9.0, 8.0, 8.0, 7.0];

const FULL: [f64; 16] = [
    6.0, 4.0, 0.0, 0.0, 4.0, 0.0, 0.0, 0.0, 9.0, 8.0, 0.0, 0.0, 8.0, 7.0, 0.0, 0.0,
];

// With one column that is not zero.
const WIDE_THIN: [f64; 8] = [6.0, 4.0, 0.0, 0.0, 0.0, 0.0, 0.0, 0.0];

const FULL_THIN: [f64; 16] = [
    6.0, 4.0, 0.0, 0.0, 0.0, 0.0, 0.0, 0.0, 0.0, 0.0, 0.0, 0.0, 0.0, 0.0, 0.0, 0.0,
];

// The wide problem takes the first two.
const B: [f64; 4] = [7.0, -5.0, 0.0, 0.0];

// Both problems, and whether all that was compared so far is alike: a flag, since the problems go on either way.
#[derive(Clone, Copy)]
struct Pair {
    one: Side,
    two: Side,
    good: bool,
}

fn near_all(a: &[f64], b: &[f64]) -> bool {
    near::all(a, 0, b, default_epsilon())
}

// The problems' whole stores, and their order lists.
fn rooms_alike(one: Side, two: Side) -> bool {
    near_all(&one.store, &two.store) & near::places(&one.order, &two.order)
}

// What the last calls wrote is alike, and neither was refused.
fn pair_of(one: Side, two: Side, good: bool) -> Pair {
    Pair {
        one,
        two,
        good: good & one.good & two.good & near_all(&one.out, &two.out),
    }
}

fn alike(wide: &[f64], full: &[f64]) -> bool {
    let p = problem::lls(2, 4, wide, &B);
    let q = problem::lls(4, 4, full, &B);
    p.good & q.good & rooms_alike(p, q)
}

// test_wide_matrix
pub(crate) fn test_wide_matrix() -> bool {
    alike(&WIDE, &FULL) & alike(&WIDE_THIN, &FULL_THIN)
}

// test_lls_wide_matrix
const C: [f64; 4] = [23.0, -1.0, 0.0, 0.0];

const DIAG_1: [f64; 4] = [1.0, 2.0, 8.0, 0.5];

const RHS_1: [f64; 4] = [0.6301, 0.1611, 0.9104, 0.8998];

const DIAG_2: [f64; 4] = [0.1, 20.0, 8.2, 1.5];

const RHS_2: [f64; 4] = [0.851, 0.21, 0.629, 0.714];

// The product, with the rooms as they were before it: nothing of them but work changes.
fn multiplied(p: Pair) -> Pair {
    let rooms = rooms_alike(p.one, p.two);
    pair_of(
        side::multiplied(p.one),
        side::multiplied(p.two),
        p.good & rooms,
    )
}

// A damped solve and what it holds.
fn damping(p: Pair, diag: &[f64], rhs: &[f64]) -> Pair {
    let q = pair_of(side::damped(p.one, diag), side::damped(p.two, diag), p.good);
    multiplied(pair_of(side::solved(q.one, rhs), side::solved(q.two, rhs), q.good))
}

// The zero solve and what it holds.
fn ending(p: Pair) -> bool {
    multiplied(pair_of(side::zero(p.one), side::zero(p.two), p.good)).good
}

pub(crate) fn test_lls_wide_matrix() -> bool {
    let p = Pair {
        one: problem::lls(2, 4, &WIDE, &C),
        two: problem::lls(4, 4, &FULL, &C),
        good: true,
    };
    ending(damping(damping(p, &DIAG_1, &RHS_1), &DIAG_2, &RHS_2))
}
