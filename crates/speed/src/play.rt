// One problem after the other, all in the same rooms.
use crate::away::put_away;
use crate::make::fill;
use calls::state::State;
use leaves::sizes::filled;
use lines::part::within;
use std::num::{wrapping_add_usize, wrapping_sub_usize};

// How many problems are made. Of the drawn columns the first n are factored, those with a mark frozen. mode: a number, since every number does
// something.
#[derive(Clone, Copy)]
pub(crate) struct Task {
    pub(crate) m: usize,
    pub(crate) n: usize,
    pub(crate) drawn: usize,
    pub(crate) marks: u16,
    pub(crate) mode: usize,
    pub(crate) count: usize,
}

#[derive(Clone, Copy)]
pub(crate) struct Tally {
    pub(crate) seed: u64,
    pub(crate) sum: f64,
}

// Of sizes that fit the rooms; else 0.
fn product(a: usize, b: usize) -> usize {
    if 128 < a {
        return 0;
    }
    if 128 < b {
        return 0;
    }
    a * b
}

pub(crate) fn at(v: &[f64], i: usize) -> f64 {
    if i < v.len() { v[i] } else { 0.0 }
}

fn entry_of(norm: f64) -> f64 {
    if norm == 0.0 { 1.0 } else { norm }
}

// The first scaling: the column norm, or 1 where it is zero.
fn scale(n: usize, store: &[f64], diag: &mut [f64]) {
    let from = wrapping_add_usize(product(n, n), n);
    for (i, d) in diag.iter_mut().enumerate() {
        *d = entry_of(at(store, wrapping_add_usize(from, i)));
    }
}

fn multiply(v: &mut [f64], diag: &[f64]) {
    for (i, x) in v.iter_mut().enumerate() {
        *x = *x * at(diag, i);
    }
}

// A tenth of the undamped scaled norm.
fn radius_of(st: State, store: &mut [f64], order: &[usize], diag: &[f64], step: &mut [f64]) -> f64 {
    calls::least_squares::solve_with_zero_diagonal(st, store, order, step);
    multiply(step, diag);
    leaves::norm::enorm(step).map_or(0.0, |s| s.value * 0.1)
}

fn seek(
    st: State,
    store: &mut [f64],
    order: &[usize],
    diag: &[f64],
    radius: f64,
    step: &mut [f64],
) -> f64 {
    let told = calls::trust_region::determine_lambda_and_parameter_update(
        st, store, order, diag, radius, 0.0, step,
    );
    told.answer.map_or(0.0, |(a, _)| a.lambda + at(step, 0))
}

// The gradient; or whether it is above zero, which is 1 for yes. A refusal is 0.
fn asked(mode: usize, st: State, store: &mut [f64], order: &[usize]) -> f64 {
    if mode == 5 {
        let g = calls::measure::max_a_t_b_scaled(st, store, order, 1.0);
        return g.answer.unwrap_or(0.0);
    }
    let t = calls::above::above_limit(st, store, order, 1.0, 0.0);
    if t.answer.unwrap_or(false) { 1.0 } else { 0.0 }
}

// What comes after the factoring.
fn further(
    mode: usize,
    st: State,
    store: &mut [f64],
    order: &[usize],
    diag: &mut [f64],
    step: &mut [f64],
) -> f64 {
    if mode == 1 {
        return 0.0;
    }
    if 4 < mode {
        return asked(mode, st, store, order);
    }
    scale(st.n, store, diag);
    if mode == 4 {
        calls::least_squares::solve_with_diagonal(st, store, order, diag, step);
        return at(step, 0);
    }
    let radius = radius_of(st, store, order, diag, step);
    if mode == 3 {
        return radius;
    }
    seek(st, store, order, diag, radius, step)
}

// R's last diagonal entry and qt_b's first.
fn corner(n: usize, store: &[f64]) -> f64 {
    let whole = product(n, n);
    at(store, wrapping_sub_usize(whole, 1)) + at(store, whole)
}

fn factored(
    t: Task,
    jacobian: &[f64],
    residuals: &[f64],
    store: &mut [f64],
    order: &mut [usize],
    bench: &mut [f64],
    diag: &mut [f64],
    step: &mut [f64],
) -> f64 {
    let told = calls::pivoted_qr::pivoted_qr(
        t.m, t.n, t.marks, jacobian, residuals, store, order, bench,
    );
    let x = corner(t.n, store);
    if 6 < t.mode {
        return x + put_away(t.mode, told.state, store, order);
    }
    x + further(t.mode, told.state, store, order, diag, step)
}

fn one(
    t: Task,
    y: Tally,
    jacobian: &mut [f64],
    residuals: &mut [f64],
    store: &mut [f64],
    order: &mut [usize],
    bench: &mut [f64],
    diag: &mut [f64],
    step: &mut [f64],
) -> Tally {
    let seed = fill(residuals, fill(jacobian, y.seed));
    if t.mode == 0 {
        return Tally {
            seed,
            sum: y.sum + at(jacobian, 0),
        };
    }
    let x = factored(t, jacobian, residuals, store, order, bench, diag, step);
    Tally {
        seed,
        sum: y.sum + x,
    }
}

fn in_rooms(
    t: Task,
    y: Tally,
    jacobian: &mut [f64],
    residuals: &mut [f64],
    store: &mut [f64],
    order: &mut [usize],
    bench: &mut [f64],
    diag: &mut [f64],
    step: &mut [f64],
) -> f64 {
    let mut z = y;
    for _ in 0..t.count {
        z = one(t, z, jacobian, residuals, store, order, bench, diag, step);
    }
    z.sum
}

// In rooms for the largest problem: 128 rows, 16 columns.
pub(crate) fn all(t: Task, y: Tally) -> f64 {
    let mut jacobian: [f64; 2048] = filled(0.0);
    let mut residuals: [f64; 128] = filled(0.0);
    let mut store: [f64; 320] = filled(0.0);
    let mut order: [usize; 16] = filled(0);
    let mut bench: [f64; 2176] = filled(0.0);
    let mut diag: [f64; 16] = filled(0.0);
    let mut step: [f64; 16] = filled(0.0);
    let a = within(&jacobian, product(t.m, t.drawn));
    let b = within(&residuals, t.m);
    let c = within(&diag, t.n);
    let d = within(&step, t.n);
    in_rooms(
        t,
        y,
        &mut jacobian[..a],
        &mut residuals[..b],
        &mut store,
        &mut order,
        &mut bench,
        &mut diag[..c],
        &mut step[..d],
    )
}
