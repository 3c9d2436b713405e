// Problems that several tests of qr.rs share, and the calls as the tests make them.
use crate::side::Side;
use leaves::sizes::filled;

// The Jacobian of test_pivoted_qr and test_into_lls, 4 by 3.
const SMALL: [f64; 12] = [2.0, 0.0, 0.0, 1.0, 1.0, 10.0, 4.0, 0.0, 4.0, -1.0, 0.5, 0.0];

// Of `default_lls(1)`.
const FIRST: [f64; 12] = [0.0, 1.0, 2.0, 3.0, 4.0, 5.0, 6.0, 7.0, 8.0, 9.0, 10.0, 11.0];

// Of `default_lls(2)` and of test_pivoted_qr_more_branches, which was made to take each way of the partial column norms.
const SECOND: [f64; 12] = [
    30.0, 43.0, 34.0, 26.0, 30.0, 43.0, 34.0, 26.0, 24.0, 39.0, -10.0, -34.0,
];

// Of `default_lls(3)`.
const THIRD: [f64; 12] = [1.0, 0.0, 0.0, 0.0, 2.0, 1.0, 0.0, 0.0, -1.0, 4.0, 0.5, 0.0];

// Of `default_lls`, and of test_into_lls.
const RESIDUALS: [f64; 4] = [1.0, 2.0, 5.0, 4.0];

// PivotedQR::new with into_least_squares_diagonal_problem. A refusal leaves the empty state, which every later call refuses.
pub(crate) fn lls(m: usize, n: usize, jacobian: &[f64], residuals: &[f64]) -> Side {
    let mut store: [f64; 64] = filled(0.0);
    let mut order: [usize; 8] = filled(0);
    let mut bench: [f64; 64] = filled(0.0);
    let t = factor::pivoted_qr::pivoted_qr(
        m, n, jacobian, residuals, &mut store, &mut order, &mut bench,
    );
    Side {
        state: t.state,
        store,
        order,
        out: filled(0.0),
        good: t.answer.is_ok(),
    }
}

pub(crate) fn small() -> Side {
    lls(4, 3, &SMALL, &RESIDUALS)
}

pub(crate) fn first() -> Side {
    lls(4, 3, &FIRST, &RESIDUALS)
}

pub(crate) fn second() -> Side {
    lls(4, 3, &SECOND, &RESIDUALS)
}

pub(crate) fn third() -> Side {
    lls(4, 3, &THIRD, &RESIDUALS)
}
