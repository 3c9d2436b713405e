// The problems of the tests, from call to call.
use factor::cholesky::{mul_qt_b, solve};
use factor::least_squares::{solve_with_diagonal, solve_with_zero_diagonal};
use factor::state::State;
use leaves::sizes::filled;

// A problem with its rooms, which goes from call to call by value: a call that is lent many slices at once takes the proof check long. The
// largest problem is 10 by 5: a store of 45 numbers, a bench of 60. `out` is what the last call wrote, and `good` whether it was not
// refused: a flag, since what a refused call left is looked at too.
#[derive(Clone, Copy)]
pub(crate) struct Side {
    pub(crate) state: State,
    pub(crate) store: [f64; 64],
    pub(crate) order: [usize; 8],
    pub(crate) out: [f64; 64],
    pub(crate) good: bool,
}

pub(crate) fn damped(p: Side, diag: &[f64]) -> Side {
    let mut store = p.store;
    let mut out: [f64; 64] = filled(0.0);
    let t = solve_with_diagonal(p.state, &mut store, &p.order, diag, &mut out);
    Side {
        state: t.state,
        store,
        out,
        good: t.answer.is_ok(),
        ..p
    }
}

pub(crate) fn zero(p: Side) -> Side {
    let mut store = p.store;
    let mut out: [f64; 64] = filled(0.0);
    let t = solve_with_zero_diagonal(p.state, &mut store, &p.order, &mut out);
    Side {
        state: t.state,
        store,
        out,
        good: t.answer.is_ok(),
        ..p
    }
}

pub(crate) fn solved(p: Side, rhs: &[f64]) -> Side {
    let mut store = p.store;
    let mut out: [f64; 64] = filled(0.0);
    let t = solve(p.state, &mut store, &p.order, rhs, &mut out);
    Side {
        state: t.state,
        store,
        out,
        good: t.answer.is_ok(),
        ..p
    }
}

pub(crate) fn multiplied(p: Side) -> Side {
    let mut store = p.store;
    let mut out: [f64; 64] = filled(0.0);
    let t = mul_qt_b(p.state, &mut store, &mut out);
    Side {
        state: t.state,
        store,
        out,
        good: t.answer.is_ok(),
        ..p
    }
}
