// The tests of qr.rs on one damped solve.
use crate::near::default_epsilon;
use crate::{near, problem, side};

const DIAG_1: [f64; 3] = [1.0, 0.5, 0.0];

// test_elimate_diag_and_l. R on and above the diagonal, and the strict lower part of L below it; L's diagonal stands in l_diag,
// behind the square, qt_b and the norms. The right-hand side that `eliminate_diag` answers is not shown; test_lls_x_1 looks at the
// step that comes of it.
const L_DIAG: [f64; 3] = [-19.131126469708992, 2.120676250530203, 0.666641352293790];

const R_AND_L: [f64; 9] = [
    -19.131126469708992,
    -3.240791915633763,
    -11.185959192671376,
    -3.240791915633763,
    1.870098328848738,
    0.824564277241393,
    -11.185959192671376,
    0.935049164424371,
    -0.000000000000001,
];

pub(crate) fn test_elimate_diag_and_l() -> bool {
    let p = side::damped(problem::first(), &DIAG_1);
    let e = default_epsilon();
    near::all(&p.store, 15, &L_DIAG, e) & near::all(&p.store, 0, &R_AND_L, e)
}

// test_lls_x_1
const STEP_1: [f64; 3] = [0.459330143540669, 0.918660287081341, -0.287081339712919];

pub(crate) fn test_lls_x_1() -> bool {
    let p = side::damped(problem::first(), &DIAG_1);
    near::all(&p.out, 0, &STEP_1, 1e-14)
}

// test_lls_x_2: R is singular, L is not.
const SINGULAR: [f64; 12] = [
    14.0, -12.0, 20.0, -11.0, 19.0, 38.0, -4.0, -11.0, -14.0, 12.0, -20.0, 11.0,
];

const RESIDUALS_2: [f64; 4] = [-5.0, 3.0, -2.0, 7.0];

const R_DIAG_2: [f64; 3] = [-44.068129073061407, 29.147349299100057, 0.0];

const DIAG_2: [f64; 3] = [2.772724292099739, 0.536656314599949, 0.089442719099992];

const STEP_2: [f64; 3] = [-0.000277544878320, -0.046225239392197, 0.266720628065249];

pub(crate) fn test_lls_x_2() -> bool {
    let p = problem::lls(4, 3, &SINGULAR, &RESIDUALS_2);
    let r = near::diagonal(&p.store, &R_DIAG_2, default_epsilon());
    let q = side::damped(p, &DIAG_2);
    r & near::all(&q.out, 0, &STEP_2, 1e-14)
}
