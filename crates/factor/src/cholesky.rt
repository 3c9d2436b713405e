// Document 01, 'Lent room': the held calls (`CholeskyFactor`), with what the last solve left in the store. Each stands once, on a store that
// is only read; the call on a lent store is that, and work cleared. The Rust's `solve` hands the memory of its right side back as the
// answer; here the right side is only read and the answer goes to a lent output, so that a refusal leaves both as they were.
ghost use Rattle.std.specs.Prelude.{◌≡◌, [], ◌∷◌, ◌++◌, min, length, IfOk};
ghost use Rattle.leaves.specs.Reply.{reply_of, failed_by};
ghost use Rattle.leaves.specs.Tests.{first_of};
ghost use Rattle.factor.specs.Tests.{room_tests, held_test, finite_test, solve_tests};
ghost use Rattle.factor.specs.Outcome.{ended, read, read_of};
ghost use Rattle.factor.specs.HeldCalls.{solve_call, mul_call};
ghost use Rattle.factor.specs.State.{is_empty, is_nothing};
ghost use Rattle.factor.specs.inner.Rooms.{held_as};

use crate::check::{ordered, room};
use crate::holding::{mul_into, solve_into};
use crate::room::rest_room;
use crate::state::{Held, State};
use crate::store::{CholeskyFactor, LinearLeastSquaresDiagonalProblem, Store};
use leaves::lent::Order;
use leaves::reply::{Refusal, Told};
use leaves::sizes::least;
use leaves::vector::all_finite;

// ---- the tests, which tell whose solve's it is that is held

// Whether a damped solve's is held, which left L below the diagonal, or a zero one's.
fn lower_held(holds: Held) -> Result<bool, Refusal>
    ensures failed { failed_by result ≡ first_of ((is_empty holds, 5) ∷ (is_nothing holds, 5) ∷ []) }
    ensures value { IfOk result (λ b. holds ≡ held_as b) }
{
    match holds {
        Held::Empty => Err(Refusal::NotHeld),
        Held::Nothing => Err(Refusal::NotHeld),
        Held::Zero => Ok(false),
        Held::Damped => Ok(true),
    }
}

fn check_held(
    st: State,
    store: usize,
    order: &[usize],
    rhs: usize,
    out: usize,
) -> Result<bool, Refusal>
    ensures value { IfOk result (λ b. st.held ≡ held_as b) }
    ensures failed { failed_by result ≡ first_of (solve_tests st store order.now (min rhs out) ++ (held_test st ∷ [])) }
{
    ordered(st.held, st.m, st.n, store, least(rhs, out), order)?;
    lower_held(st.held)
}

fn check_solve(
    st: State,
    store: usize,
    order: &[usize],
    rhs: &[f64],
    out: usize,
) -> Result<bool, Refusal>
    ensures value { IfOk result (λ b. st.held ≡ held_as b) }
    ensures failed { failed_by result ≡ first_of (solve_tests st store order.now (min (length rhs.now) out) ++ (held_test st ∷ finite_test st rhs.now ∷ [])) }
{
    let lower = check_held(st, store, order, rhs.len(), out)?;
    let n = st.n;
    if all_finite(&rhs[..n]) {
        Ok(lower)
    } else {
        Err(Refusal::NotFinite)
    }
}

fn check_mul(st: State, store: usize, out: usize) -> Result<bool, Refusal>
    ensures value { IfOk result (λ b. st.held ≡ held_as b) }
    ensures failed { failed_by result ≡ first_of (room_tests st store out ++ (held_test st ∷ [])) }
{
    room(st.held, st.m, st.n, store, out)?;
    lower_held(st.held)
}

// ---- with a store that is only read

// The held solve (`CholeskyFactor::solve`) on a store that is only read: as `solve`, but that work stays as it was.
pub fn solve_read(
    st: State,
    store: &[f64],
    order: &[usize],
    rhs: &[f64],
    out: &mut [f64],
) -> Result<(), Refusal>
    ensures { read (reply_of result) out.new ≡ read_of (solve_call st order.now rhs.now store.now out.old) }
{
    let lower = check_solve(st, store.len(), order, rhs, out.len())?;
    let n = st.n;
    let store = Store { n, cells: store };
    if solve_into(
        CholeskyFactor { store, lower },
        Order { n, places: order },
        rhs,
        out,
    ) {
        return Ok(());
    }
    Err(Refusal::Overflow)
}

// The held product (`CholeskyFactor::mul_qt_b`) on a store that is only read: as `mul_qt_b`, but that work stays as it was.
pub fn mul_read(st: State, store: &[f64], out: &mut [f64]) -> Result<(), Refusal>
    ensures { read (reply_of result) out.new ≡ read_of (mul_call st store.now out.old) }
{
    let lower = check_mul(st, store.len(), out.len())?;
    let n = st.n;
    let store = Store { n, cells: store };
    if mul_into(CholeskyFactor { store, lower }, out) {
        return Ok(());
    }
    Err(Refusal::Overflow)
}

// ---- the calls

// Solves L·x = rhs with the L that the last solve left (`CholeskyFactor::solve`).
//
// st: a state of the problem, with a solve held. store: R after a zero solve, L after a damped one, is read; on exit work is +0. order:
// read. rhs: the first n, each at its column, read. out: on exit its first n are the answer, in pivot order.
// Hands the state back as it came.
// Refused 5 for an empty state, 2 for its sizes, 3 for a slice that is too short, 4 for an order list that is none, 5 where nothing is held,
// 6 for an entry of rhs that is not finite: all as it was. Refused 8 where a number of the answer is not finite: out as it was, work +0.
pub fn solve(
    st: State,
    store: &mut [f64],
    order: &[usize],
    rhs: &[f64],
    out: &mut [f64],
) -> Told<(), State>
    ensures { ended (reply_of result.answer) result.state store.new out.new ≡ solve_call st order.now rhs.now store.old out.old }
{
    let lower = match check_solve(st, store.len(), order, rhs, out.len()) {
        Ok(lower) => lower,
        Err(no) => {
            return Told {
                answer: Err(no),
                state: st,
            };
        }
    };
    let n = st.n;
    let held = Store { n, cells: store };
    let factor = CholeskyFactor { store: held, lower };
    let good = solve_into(factor, Order { n, places: order }, rhs, out);
    rest_room(&mut LinearLeastSquaresDiagonalProblem { n, cells: store });
    if good {
        return Told {
            answer: Ok(()),
            state: st,
        };
    }
    Told {
        answer: Err(Refusal::Overflow),
        state: st,
    }
}

// L·qt_b with the L that the last solve left (`CholeskyFactor::mul_qt_b`).
//
// st: a state of the problem, with a solve held. store: qt_b is read, and R after a zero solve, L after a damped one; on exit work is +0.
// out: on exit its first n are the product, in pivot order.
// Hands the state back as it came.
// Refused 5 for an empty state, 2 for its sizes, 3 for a slice that is too short, 5 where nothing is held: all as it was. Refused 8 where a
// number of the product is not finite: out as it was, work +0.
pub fn mul_qt_b(st: State, store: &mut [f64], out: &mut [f64]) -> Told<(), State>
    ensures { ended (reply_of result.answer) result.state store.new out.new ≡ mul_call st store.old out.old }
{
    let lower = match check_mul(st, store.len(), out.len()) {
        Ok(lower) => lower,
        Err(no) => {
            return Told {
                answer: Err(no),
                state: st,
            };
        }
    };
    let n = st.n;
    let held = Store { n, cells: store };
    let good = mul_into(CholeskyFactor { store: held, lower }, out);
    rest_room(&mut LinearLeastSquaresDiagonalProblem { n, cells: store });
    if good {
        return Told {
            answer: Ok(()),
            state: st,
        };
    }
    Told {
        answer: Err(Refusal::Overflow),
        state: st,
    }
}
