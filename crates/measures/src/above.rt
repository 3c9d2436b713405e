// 02, #105: whether the gradient is above a limit, without working it out to the end.
ghost use Rattle.std.specs.Prelude.{◌≡◌};
ghost use Rattle.leaves.specs.Reply.{reply_of, failed_by};
ghost use Rattle.leaves.specs.Tests.{first_of};
ghost use Rattle.factor.specs.Outcome.{told};
ghost use Rattle.measures.specs.Measures.{above_tests, above_call};

use crate::problem::LinearLeastSquaresDiagonalProblem;
use factor::check::ordered;
use factor::parts::rest;
use factor::state::State;
use leaves::number::is_finite;
use leaves::reply::{Refusal, Told};
use leaves::sizes::filled;

// The gradient's tests; a limit of −0 is not below zero.
fn check_above(
    st: State,
    store: usize,
    order: &[usize],
    bnorm: f64,
    limit: f64,
) -> Result<(), Refusal>
    ensures { failed_by result ≡ first_of (above_tests st store order.now bnorm limit) }
{
    ordered(st.held, st.m, st.n, store, order.len(), order)?;
    if !is_finite(bnorm) {
        return Err(Refusal::NotFinite);
    }
    if !is_finite(limit) {
        return Err(Refusal::NotFinite);
    }
    if bnorm <= 0.0 {
        return Err(Refusal::Range);
    }
    if limit < 0.0 {
        Err(Refusal::Range)
    } else {
        Ok(())
    }
}

// Whether the gradient's measure is greater than a limit. It agrees with `max_a_t_b_scaled` wherever that is answered, and ends at the first
// column above the limit: so it may say yes where the gradient is refused 8 for a later column.
//
// st: a state of the problem. store: R, qt_b and the column norms are read; on exit work is +0. order: read. bnorm: the residual norm.
// limit: what the measure is held to; −0 asks what +0 asks.
// Hands the state back as it came.
// Refused 5 for an empty state, 2 for its sizes, 3 for a slice that is too short, 4 for an order list that is none, 6 for a residual norm or
// limit that is not finite, 7 for a residual norm not above 0 or a limit below 0: all as it was. Refused 8 where a column's measure is not
// finite and none before it, in pivot order, is above the limit: work +0.
pub fn above_limit(
    st: State,
    store: &mut [f64],
    order: &[usize],
    bnorm: f64,
    limit: f64,
) -> Told<bool, State>
    ensures { told (reply_of result.answer) result.state store.new ≡ above_call st order.now bnorm limit store.old }
{
    if let Err(no) = check_above(st, store.len(), order, bnorm, limit) {
        return Told {
            answer: Err(no),
            state: st,
        };
    }
    let n = st.n;
    let mut b: [f64; 16] = filled(0.0);
    let mut s: [f64; 16] = filled(0.0);
    let problem = LinearLeastSquaresDiagonalProblem {
        n,
        store: &*store,
        permutation: order,
    };
    let answer = problem.above_limit(bnorm, limit, &mut b[..n], &mut s[..n]);
    rest(n, store).unwrap();
    Told { answer, state: st }
}
