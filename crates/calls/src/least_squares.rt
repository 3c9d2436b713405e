// Document 01, modules 4 and 5, with 02, #108: the solves.
ghost use Rattle.std.specs.Prelude.{◌≡◌, [], ◌∷◌, ◌++◌, ◌≤◌, min, length, take};
ghost use Rattle.leaves.specs.Reply.{reply_of, failed_by};
ghost use Rattle.leaves.specs.Square.{zeros};
ghost use Rattle.leaves.specs.Tests.{first_of};
ghost use Rattle.factor.specs.State.{store_need};
ghost use Rattle.factor.specs.Tests.{finite_test};
ghost use Rattle.factor.specs.Solves as plain;
ghost use Rattle.calls.specs.State.{whole as whole_state, without_frozen as reduced_state, cols};
ghost use Rattle.calls.specs.Tests.{marked_solve_tests, free_test};
ghost use Rattle.calls.specs.Outcome.{marked_ended, narrowed_in, emptied_store, emptied_by, widened_store, widened_by};
ghost use Rattle.calls.specs.Solves.{marked_zero, marked_damped};

use crate::check::{ordered, some_free};
use crate::lent::FrozenProblem;
use crate::room::{room320, step_into};
use crate::state::{State, marked, whole, with_held};
use crate::widen::widen_in;
use factor::pivot_order::empty;
use frozen::marks::free_count;
use leaves::reply::{Refusal, Told};
use leaves::sizes::{filled, least};
use leaves::vector::all_finite;

fn check_zero(st: State, store: usize, order: &[usize], out: usize) -> Result<(), Refusal>
    ensures { failed_by result ≡ first_of (marked_solve_tests st store order.now out ++ (free_test st ∷ [])) }
{
    ordered(st, store, out, order)?;
    some_free(st)
}

impl FrozenProblem<'_> {
    // A zero solve; the store is yet to be emptied. order: that of the reduced problem.
    fn solve_with_zero_diagonal(&self, order: &[usize], out: &mut [f64]) -> Told<(), State>
        requires { self.now.st.n ≤ length out.old }
        ensures { marked_ended (reply_of result.answer) result.state (emptied_store self.now.st self.now.store.now) out.new ≡ emptied_by self.now.st self.now.store.now out.old (plain.zero_call (reduced_state self.now.st) order.now (narrowed_in self.now.st self.now.store.now) (zeros (cols self.now.st))) }
    {
        let st = self.st;
        let n = st.n;
        let mut small = room320();
        self.narrow(&mut small);
        let need = self.need();
        let mut room = self.fresh();
        let x = &mut room[..self.free];
        let t = factor::least_squares::solve_with_zero_diagonal(
            self.reduced(),
            &mut small[..need],
            order,
            x,
        );
        if t.answer.is_ok() {
            step_into(n, st.marks, x, &mut out[..n]);
        }
        Told {
            answer: t.answer,
            state: with_held(st, t.state.held),
        }
    }
}

// The least squares step of a factored problem (`solve_with_zero_diagonal`).
//
// st: a state of the problem. store: R and qt_b are read; on exit strict lower part, l_diag and work are +0. order: read. out: on exit its
// first n are the step, each entry at its column, +0 at a frozen one.
// Hands back the state with a zero solve held.
// Refused 5 for an empty state, 2 for its sizes or a mark past n, 3 for a slice that is too short, 4 for an order list that is none, 9 where
// no column is free: all as it was. Refused 8 where an entry of the step is not finite: the store as after an answer, out as it was, nothing
// held.
pub fn solve_with_zero_diagonal(
    st: State,
    store: &mut [f64],
    order: &[usize],
    out: &mut [f64],
) -> Told<(), State>
    ensures { marked_ended (reply_of result.answer) result.state store.new out.new ≡ marked_zero st order.now store.old out.old }
{
    let marks = st.marks;
    if marks == 0 {
        let t = factor::least_squares::solve_with_zero_diagonal(whole(st), store, order, out);
        return Told {
            answer: t.answer,
            state: marked(marks, t.state),
        };
    }
    if let Err(no) = check_zero(st, store.len(), order, out.len()) {
        return Told {
            answer: Err(no),
            state: st,
        };
    }
    let n = st.n;
    let free = free_count(n, marks);
    let p = FrozenProblem {
        st,
        free,
        store: &*store,
    };
    let told = p.solve_with_zero_diagonal(&order[..free], out);
    empty(n, store).unwrap();
    told
}

// 6 for the diagonal comes after the tests of every solve, 9 last.
fn check_damped(
    st: State,
    store: usize,
    order: &[usize],
    diag: &[f64],
    out: usize,
) -> Result<(), Refusal>
    ensures { failed_by result ≡ first_of (marked_solve_tests st store order.now (min (length diag.now) out) ++ (finite_test (whole_state st) diag.now ∷ free_test st ∷ [])) }
{
    ordered(st, store, least(diag.len(), out), order)?;
    let n = st.n;
    if !all_finite(&diag[..n]) {
        return Err(Refusal::NotFinite);
    }
    some_free(st)
}

impl FrozenProblem<'_> {
    // The same for a damped solve; the store is yet to be given L. ds: the reduced problem's diagonal. small: room for its store.
    fn solve_with_diagonal(
        &self,
        order: &[usize],
        ds: &[f64],
        small: &mut [f64; 320],
        out: &mut [f64],
    ) -> Told<(), State>
        requires { self.now.st.n ≤ length out.old }
        ensures { marked_ended (reply_of result.answer) result.state (widened_store self.now.st (take (store_need self.now.free) small.new) self.now.store.now) out.new ≡ widened_by self.now.st self.now.store.now out.old (plain.damped_call (reduced_state self.now.st) ds.now order.now (narrowed_in self.now.st self.now.store.now) (zeros (cols self.now.st))) }
    {
        let st = self.st;
        let n = st.n;
        self.narrow(small);
        let need = self.need();
        let mut room = self.fresh();
        let x = &mut room[..self.free];
        let t = factor::least_squares::solve_with_diagonal(
            self.reduced(),
            &mut small[..need],
            order,
            ds,
            x,
        );
        if t.answer.is_ok() {
            step_into(n, st.marks, x, &mut out[..n]);
        }
        Told {
            answer: t.answer,
            state: with_held(st, t.state.held),
        }
    }
}

// The least squares step of a factored problem damped by a diagonal (`solve_with_diagonal`).
//
// st: a state of the problem. store: R and qt_b are read; on exit L below the diagonal and in l_diag, and work is +0. order: read. diag: the
// first n, each at its column, read. out: on exit its first n are the step, each entry at its column, +0 at a frozen one.
// Hands back the state with a damped solve held.
// Refused 5, 2, 3, 4 as a zero solve, 6 for an entry of the diagonal that is not finite, a frozen column's too, and 9 where no column is free:
// all as it was. Refused 8 where an entry of the step is not finite: strict lower part, l_diag and work +0, out as it was, nothing held.
pub fn solve_with_diagonal(
    st: State,
    store: &mut [f64],
    order: &[usize],
    diag: &[f64],
    out: &mut [f64],
) -> Told<(), State>
    ensures { marked_ended (reply_of result.answer) result.state store.new out.new ≡ marked_damped st diag.now order.now store.old out.old }
{
    let marks = st.marks;
    if marks == 0 {
        let t = factor::least_squares::solve_with_diagonal(whole(st), store, order, diag, out);
        return Told {
            answer: t.answer,
            state: marked(marks, t.state),
        };
    }
    if let Err(no) = check_damped(st, store.len(), order, diag, out.len()) {
        return Told {
            answer: Err(no),
            state: st,
        };
    }
    let n = st.n;
    let free = free_count(n, marks);
    let p = FrozenProblem {
        st,
        free,
        store: &*store,
    };
    let need = p.need();
    let mut small = room320();
    let mut ds: [f64; 16] = filled(0.0);
    p.gather(diag, &mut ds);
    let told = p.solve_with_diagonal(&order[..free], &ds[..free], &mut small, out);
    widen_in(n, marks, free, &small[..need], store);
    told
}
