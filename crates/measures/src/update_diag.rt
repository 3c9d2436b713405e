// Document 01, module 6: the scaling as callers see it, with all its tests. The lent scaling holds n numbers in every mode, else it is
// refused 3; the parameters x in the first modes only, which alone read them.
ghost use Rattle.std.specs.Prelude.{◌≡◌, [], ◌∷◌, ◌++◌, length};
ghost use Rattle.leaves.specs.Reply.{failed_by};
ghost use Rattle.measures.specs.Answers.{scaling_of};
ghost use Rattle.factor.specs.Outcome.{ended};
ghost use Rattle.measures.specs.Rescale.{first_tests, scaling_tests, scaling_call};
ghost use Rattle.leaves.specs.Tests.{first_of};
ghost use Rattle.factor.specs.Tests.{room_tests, finite_test};

use crate::scaling::{Mode, Scaling, rescale};
use factor::check::room;
use factor::parts::{norms, rest};
use factor::state::State;
use leaves::number::is_finite;
use leaves::reply::{Refusal, Told};
use leaves::sizes::{filled, least};
use leaves::vector::all_finite;

// The first call reads the parameters and the step bound.
fn check_first(st: State, store: usize, diag: &[f64], x: &[f64], bound: f64) -> Result<(), Refusal>
    ensures { failed_by result ≡ first_of (first_tests st store diag.now x.now bound) }
{
    let n = st.n;
    room(st.held, st.m, n, store, least(diag.len(), x.len()))?;
    if !all_finite(&x[..n]) {
        return Err(Refusal::NotFinite);
    }
    if !is_finite(bound) {
        return Err(Refusal::NotFinite);
    }
    if bound <= 0.0 {
        return Err(Refusal::Range);
    }
    Ok(())
}

// A later scaled call reads the lent scaling.
fn check_later(st: State, store: usize, diag: &[f64]) -> Result<(), Refusal>
    ensures { failed_by result ≡ first_of (room_tests st store (length diag.now) ++ (finite_test st diag.now ∷ [])) }
{
    let n = st.n;
    room(st.held, st.m, n, store, diag.len())?;
    if all_finite(&diag[..n]) {
        Ok(())
    } else {
        Err(Refusal::NotFinite)
    }
}

fn check_scaling(
    st: State,
    mode: Mode,
    store: usize,
    diag: &[f64],
    x: &[f64],
    bound: f64,
) -> Result<(), Refusal>
    ensures { failed_by result ≡ first_of (scaling_tests st mode store diag.now x.now bound) }
{
    match mode {
        Mode::FirstScaled => check_first(st, store, diag, x, bound),
        Mode::FirstUnscaled => check_first(st, store, diag, x, bound),
        Mode::LaterScaled => check_later(st, store, diag),
        Mode::LaterUnscaled => room(st.held, st.m, st.n, store, diag.len()),
    }
}

// The scaling (`update_diag`), and from its first call xnorm and the radius; with the ranges that took part in xnorm (02, #106), neither from
// a later call, which works out no norm.
//
// st: a state of the problem. store: the column norms are read; on exit work is +0. mode: first or later call, scaled or not. diag: the
// scaling, read by a later scaled call; on exit of a scaled call its first n are the new entries. x, bound: the parameters and the step
// bound, read by the first call alone.
// Hands the state back as it came.
// Refused 5 for an empty state, 2 for its sizes, 3 for a slice that is too short, 6 for a number read that is not finite, 7 for a step bound
// not above 0: all as it was. Refused 8 where a new entry, xnorm or radius is not finite, or the radius is rounded to zero: diag as it was,
// work +0.
pub fn update_diag(
    st: State,
    store: &mut [f64],
    mode: Mode,
    diag: &mut [f64],
    x: &[f64],
    bound: f64,
) -> Told<Scaling, State>
    ensures { ended (scaling_of result.answer) result.state store.new diag.new ≡ scaling_call st mode diag.old x.now bound store.old }
{
    if let Err(no) = check_scaling(st, mode, store.len(), diag, x, bound) {
        return Told {
            answer: Err(no),
            state: st,
        };
    }
    let n = st.n;
    let mut s: [f64; 16] = filled(0.0);
    norms(n, store, &mut s[..n]).unwrap();
    let answer = rescale(mode, n, &s[..n], diag, x, bound);
    rest(n, store).unwrap();
    Told { answer, state: st }
}
