// The tests of qr.rs on the zero solve and on a triangle that is held.
use crate::near::default_epsilon;
use crate::{near, problem, side};
use factor::cholesky::{mul_qt_b, solve};
use factor::state::{Held, State};
use leaves::sizes::filled;
use measures::measures::is_non_singular;

// test_lls_zero_diagonal
const STEP: [f64; 3] = [87.0, -38.0, 10.0];

pub(crate) fn test_lls_zero_diagonal() -> bool {
    let p = problem::third();
    let mut store = p.store;
    let t = is_non_singular(p.state, &mut store);
    let q = side::zero(p);
    t.answer.unwrap_or(false) & near::all(&q.out, 0, &STEP, default_epsilon())
}

// The two tests of the Rust's `CholeskyFactor` build one by hand: here the store is written by hand. Behind the square stand qt_b, the
// norms, l_diag and work; the norms and work are not read.
fn lower() -> [f64; 21] {
    [
        -1.0e10, 1.0, 1.0, 100.0, 1.0e8, 0.5, -1.0, 0.5, 100.0, 1.0, 2.0, 0.5, 0.0, 0.0, 0.0, 2.0,
        1.5, 0.1, 0.0, 0.0, 0.0,
    ]
}

fn upper() -> [f64; 21] {
    [
        4.0, 123.0, 34.0, 7.0, 6.0, 34455.0, 1.0, 8.0, 9.0, 1.0, 2.0, 0.5, 0.0, 0.0, 0.0, 1234.0,
        -1.5, -1e120, 0.0, 0.0, 0.0,
    ]
}

fn of_three(held: Held) -> State {
    State { m: 3, n: 3, held }
}

// Of both tests.
const RHS: [f64; 3] = [1.0, 2.0, 0.5];

// `mul_qt_b`, then `solve`.
fn both(
    held: Held,
    by_hand: [f64; 21],
    order: &[usize],
    product: &[f64],
    solution: &[f64],
) -> bool {
    let st = of_three(held);
    let mut store = by_hand;
    let mut out: [f64; 64] = filled(0.0);
    mul_qt_b(st, &mut store, &mut out);
    let a = near::all(&out, 0, product, default_epsilon());
    solve(st, &mut store, order, &RHS, &mut out);
    a & near::all(&out, 0, solution, default_epsilon())
}

// test_cholesky_lower
const LOWER_ORDER: [usize; 3] = [1, 0, 2];

const LOWER_PRODUCT: [f64; 3] = [2.0, 4.0, 2.05];

const LOWER_SOLUTION: [f64; 3] = [1.0, 0.0, -5.0];

pub(crate) fn test_cholesky_lower() -> bool {
    both(
        Held::Damped,
        lower(),
        &LOWER_ORDER,
        &LOWER_PRODUCT,
        &LOWER_SOLUTION,
    )
}

// test_cholesky_upper
const UPPER_ORDER: [usize; 3] = [2, 1, 0];

const UPPER_PRODUCT: [f64; 3] = [4.0, 19.0, 21.5];

const UPPER_SOLUTION: [f64; 3] = [0.125, 0.1875, -0.06944444444444445];

pub(crate) fn test_cholesky_upper() -> bool {
    both(
        Held::Zero,
        upper(),
        &UPPER_ORDER,
        &UPPER_PRODUCT,
        &UPPER_SOLUTION,
    )
}
