// The tests of qr.rs on the gradient's measure and on the norm of Ax.
use crate::near::default_epsilon;
use crate::{near, problem};
use measures::measures::{a_x_norm, max_a_t_b_scaled};

// test_column_max_norm. Its second Jacobian has a NaN, for which the Rust answers None: here the factoring refuses it with 6 and
// there is no measure to look at. The other two are run. The zero Jacobian's measure is compared with `assert_eq!`, so the bound is 0.
const B: [f64; 4] = [1.0, 2.0, 3.0, 4.0];

const SINGULAR: [f64; 12] = [
    14.0, -12.0, 20.0, -11.0, 19.0, 38.0, -4.0, -11.0, -14.0, 12.0, -20.0, 11.0,
];

const ZERO: [f64; 12] = [0.0, 0.0, 0.0, 0.0, 0.0, 0.0, 0.0, 0.0, 0.0, 0.0, 0.0, 0.0];

fn gradient_is(jacobian: &[f64], expected: f64, epsilon: f64) -> bool {
    let p = problem::lls(4, 3, jacobian, &B);
    let mut store = p.store;
    let t = max_a_t_b_scaled(p.state, &mut store, &p.order, 1.0);
    t.answer
        .is_ok_and(|x| near::relative_eq(x, expected, epsilon))
}

pub(crate) fn test_column_max_norm() -> bool {
    gradient_is(&SINGULAR, 0.88499332, 1e-8) & gradient_is(&ZERO, 0.0, 0.0)
}

// test_a_x_norm. The Rust's square root of 6710 and the one here are both the correctly rounded one.
const A: [f64; 12] = [3.0, 7.0, 2.0, 5.0, 6.0, 4.0, 0.0, 1.0, 2.0, 3.0, 4.0, 6.0];

const NO_RESIDUALS: [f64; 4] = [0.0, 0.0, 0.0, 0.0];

const X: [f64; 3] = [1.0, 8.0, 3.0];

pub(crate) fn test_a_x_norm() -> bool {
    let p = problem::lls(4, 3, &A, &NO_RESIDUALS);
    let mut store = p.store;
    let t = a_x_norm(p.state, &mut store, &p.order, &X);
    t.answer.is_ok_and(|x| {
        near::relative_eq(x.value, leaves::root::sqrt(6710.0), default_epsilon())
    })
}
