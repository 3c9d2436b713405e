// Document 01, module 6: the gradient, the norm of Jx, determined, and whether A has rank n, each with all its tests.
// After a call that passed its checks work is +0, and nothing else of the store is changed. The last two take no order list: no test 4.
ghost use Rattle.std.specs.Prelude.{◌≡◌, [], ◌∷◌, ◌++◌, ◌<◌, ◌≤◌, length};
ghost use Rattle.leaves.specs.Reply.{reply_of, failed_by, measured_of};
ghost use Rattle.measures.specs.Determined.{limit_of};
ghost use Rattle.factor.specs.Outcome.{told};
ghost use Rattle.measures.specs.Measures.{gradient_call, jx_call, determined_call, non_singular_call};
ghost use Rattle.factor.specs.Tests.{solve_tests, room_tests, order_test, finite_test, finite_number, not_above};
ghost use Rattle.leaves.specs.Tests.{first_of};
ghost use Rattle.measures.specs.inner.Counted.{counted_of};

use crate::problem::LinearLeastSquaresDiagonalProblem;
use factor::check::{ordered, room};
use factor::parts::{diagonal, rest};
use factor::pivot_order::full_rank;
use factor::state::State;
use leaves::norm::Normed;
use leaves::number::{abs, epsmch, is_finite};
use leaves::reply::{Refusal, Told};
use leaves::sizes::filled;
use leaves::vector::all_finite;

// The order list is the one slice that holds a number for each column.
fn check_gradient(st: State, store: usize, order: &[usize], bnorm: f64) -> Result<(), Refusal>
    ensures { failed_by result ≡ first_of (room_tests st store (length order.now) ++ (order_test st order.now ∷ finite_number bnorm ∷ (not_above bnorm, 7) ∷ [])) }
{
    ordered(st.held, st.m, st.n, store, order.len(), order)?;
    if !is_finite(bnorm) {
        return Err(Refusal::NotFinite);
    }
    if bnorm <= 0.0 {
        return Err(Refusal::Range);
    }
    Ok(())
}

// The gradient's measure (`max_a_t_b_scaled`): the largest of |column of J · residuals| over the column's norm and the residual norm.
//
// st: a state of the problem. store: R, qt_b and the column norms are read; on exit work is +0. order: read. bnorm: the residual norm.
// Hands the state back as it came.
// Refused 5 for an empty state, 2 for its sizes, 3 for a slice that is too short, 4 for an order list that is none, 6 and 7 for a residual
// norm that is not finite, or not above 0: all as it was. Refused 8 where a measure is NaN or the largest is not finite: work +0.
pub fn max_a_t_b_scaled(
    st: State,
    store: &mut [f64],
    order: &[usize],
    bnorm: f64,
) -> Told<f64, State>
    ensures { told (reply_of result.answer) result.state store.new ≡ gradient_call st order.now bnorm store.old }
{
    if let Err(no) = check_gradient(st, store.len(), order, bnorm) {
        return Told {
            answer: Err(no),
            state: st,
        };
    }
    let n = st.n;
    let mut b: [f64; 16] = filled(0.0);
    let mut s: [f64; 16] = filled(0.0);
    let problem = LinearLeastSquaresDiagonalProblem {
        n,
        store: &*store,
        permutation: order,
    };
    let answer = problem.max_a_t_b_scaled(bnorm, &mut b[..n], &mut s[..n]);
    rest(n, store).unwrap();
    Told { answer, state: st }
}

fn check_jx(st: State, store: usize, order: &[usize], x: &[f64]) -> Result<(), Refusal>
    ensures { failed_by result ≡ first_of (solve_tests st store order.now (length x.now) ++ (finite_test st x.now ∷ [])) }
{
    let n = st.n;
    ordered(st.held, st.m, n, store, x.len(), order)?;
    if all_finite(&x[..n]) {
        Ok(())
    } else {
        Err(Refusal::NotFinite)
    }
}

// The norm of J·x (`a_x_norm`), and the ranges that took part in it (02, #106).
//
// st: a state of the problem. store: R is read; on exit work is +0. order: read. x: the first n, each at its column, read.
// Hands the state back as it came.
// Refused 5 for an empty state, 2 for its sizes, 3 for a slice that is too short, 4 for an order list that is none, 6 for an entry of x that
// is not finite: all as it was. Refused 8 where the norm is not finite: work +0.
pub fn a_x_norm(st: State, store: &mut [f64], order: &[usize], x: &[f64]) -> Told<Normed, State>
    ensures { told (measured_of result.answer) result.state store.new ≡ jx_call st order.now x.now store.old }
{
    if let Err(no) = check_jx(st, store.len(), order, x) {
        return Told {
            answer: Err(no),
            state: st,
        };
    }
    let n = st.n;
    let mut w: [f64; 16] = filled(0.0);
    let problem = LinearLeastSquaresDiagonalProblem {
        n,
        store: &*store,
        permutation: order,
    };
    let answer = problem.a_x_norm(x, &mut w[..n]);
    rest(n, store).unwrap();
    Told { answer, state: st }
}

// ((max(m, n) · 2^−52) · |R_00|), in that order, of m rows and n columns (02, #104).
fn limit_of(m: usize, n: usize, r00: f64) -> f64
    requires { (m ≤ 128) × (n ≤ 16) }
    ensures { result ≡ limit_of m n r00 }
{
    if m < n {
        return n as f64 * epsmch() * abs(r00);
    }
    m as f64 * epsmch() * abs(r00)
}

// The leading places above the limit, of the first m at most: place m fails where m < n. A NaN is above nothing.
fn determined_of(diag: &[f64], m: usize) -> usize
    requires { (0 < length diag.now) × (length diag.now ≤ 16) × (m ≤ 128) }
    ensures { result ≡ counted_of m diag.now }
{
    let limit = limit_of(m, diag.len(), diag[0]);
    diag.iter().take(m).take_while(|d| limit < abs(**d)).count()
}

// How many parameters are determined: the leading places whose diagonal of R is above ((max(m, n) · 2^−52) · |R_00|) in absolute value. The
// solves go by exact zeros still (`rank`), so that this is at most their rank.
//
// st: a state of the problem. store: R's diagonal is read; on exit work is +0. No other slice holds a number for each column, so the shortest
// is none too short.
// Hands the state back as it came.
// Refused 5 for an empty state, 2 for its sizes, 3 for a store that is too short: all as it was.
pub fn determined(st: State, store: &mut [f64]) -> Told<usize, State>
    ensures { told (reply_of result.answer) result.state store.new ≡ determined_call st store.old }
{
    let m = st.m;
    let n = st.n;
    if let Err(no) = room(st.held, m, n, store.len(), n) {
        return Told {
            answer: Err(no),
            state: st,
        };
    }
    let mut d: [f64; 16] = filled(0.0);
    diagonal(n, store, &mut d[..n]).unwrap();
    let k = determined_of(&d[..n], m);
    rest(n, store).unwrap();
    Told {
        answer: Ok(k),
        state: st,
    }
}

// Whether A has rank n (`is_non_singular`): no diagonal entry of R is zero, and m is at least n.
//
// st, store, refusals and state as for `determined`.
pub fn is_non_singular(st: State, store: &mut [f64]) -> Told<bool, State>
    ensures { told (reply_of result.answer) result.state store.new ≡ non_singular_call st store.old }
{
    let m = st.m;
    let n = st.n;
    if let Err(no) = room(st.held, m, n, store.len(), n) {
        return Told {
            answer: Err(no),
            state: st,
        };
    }
    let answer = full_rank(m, n, store);
    rest(n, store).unwrap();
    Told { answer, state: st }
}
