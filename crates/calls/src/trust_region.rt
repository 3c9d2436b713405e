// Document 01, module 7, with 02, #108: the search for lambda and step (`trust_region.rs`).
ghost use Rattle.std.specs.Prelude.{◌≡◌, ◌≤◌, length};
ghost use Rattle.leaves.specs.Reply.{reply_of, failed_by};
ghost use Rattle.leaves.specs.Square.{zeros};
ghost use Rattle.leaves.specs.Tests.{first_of};
ghost use Rattle.search.specs.Search as plain;
ghost use Rattle.calls.specs.State.{without_frozen as reduced_state, cols};
ghost use Rattle.calls.specs.Outcome.{marked_ended, narrowed_in, emptied_store, emptied_by};
ghost use Rattle.calls.specs.Search.{marked_search_tests, marked_search};

use crate::check::{ordered, some_free};
use crate::lent::FrozenProblem;
use crate::room::{room320, step_into};
use crate::state::{State, marked, whole, with_held};
use factor::pivot_order::empty;
use frozen::marks::free_count;
use leaves::norm::Ranges;
use leaves::number::is_finite;
use leaves::reply::{Refusal, Told};
use leaves::sizes::{filled, least};
use leaves::vector::{all_finite, none_zero};
use search::LMParameter;

fn check_search(
    st: State,
    store: usize,
    order: &[usize],
    diag: &[f64],
    radius: f64,
    lambda: f64,
    out: usize,
) -> Result<(), Refusal>
    ensures { failed_by result ≡ first_of (marked_search_tests st store order.now diag.now radius lambda out) }
{
    ordered(st, store, least(diag.len(), out), order)?;
    let n = st.n;
    if !all_finite(&diag[..n]) {
        return Err(Refusal::NotFinite);
    }
    if !is_finite(radius) {
        return Err(Refusal::NotFinite);
    }
    if !is_finite(lambda) {
        return Err(Refusal::NotFinite);
    }
    if radius <= 0.0 {
        return Err(Refusal::Range);
    }
    if lambda < 0.0 {
        return Err(Refusal::Range);
    }
    if !none_zero(&diag[..n]) {
        return Err(Refusal::Range);
    }
    some_free(st)
}

impl FrozenProblem<'_> {
    // A search; the store is yet to be emptied. order, ds: those of the reduced problem.
    fn determine_lambda_and_parameter_update(
        &self,
        order: &[usize],
        ds: &[f64],
        radius: f64,
        lambda: f64,
        out: &mut [f64],
    ) -> Told<(LMParameter, Ranges), State>
        requires { self.now.st.n ≤ length out.old }
        ensures { marked_ended (reply_of result.answer) result.state (emptied_store self.now.st self.now.store.now) out.new ≡ emptied_by self.now.st self.now.store.now out.old (plain.search_call (reduced_state self.now.st) order.now ds.now radius lambda (narrowed_in self.now.st self.now.store.now) (zeros (cols self.now.st))) }
    {
        let st = self.st;
        let n = st.n;
        let mut small = room320();
        self.narrow(&mut small);
        let need = self.need();
        let mut room = self.fresh();
        let x = &mut room[..self.free];
        let t = search::trust_region::determine_lambda_and_parameter_update(
            self.reduced(),
            &mut small[..need],
            order,
            ds,
            radius,
            lambda,
            x,
        );
        if t.answer.is_ok() {
            step_into(n, st.marks, x, &mut out[..n]);
        }
        Told {
            answer: t.answer,
            state: with_held(st, t.state.held),
        }
    }
}

// Searches for lambda and the step (`determine_lambda_and_parameter_update`, MINPACK's LMPAR), over the free columns.
//
// st: a state of the problem. store: R and qt_b are read; on exit strict lower part, l_diag and work are +0. order: read. diag: the scaling,
// its first n, each at its column, read. radius: the step bound of the scaled step. lambda: where the search starts. out: on exit its first n
// are the step, each entry at its column, +0 at a frozen one.
// Answers lambda, the norm of the scaled step and the number of trials, which are damped solves; and which ranges took part in any norm that it
// worked out, which changes nothing about the numbers. Hands back the state with nothing held.
// Refused 5 for an empty state, 2 for its sizes or a mark past n, 3 for a slice that is too short, 4 for an order list that is none, 6 for a
// scaling, radius or lambda that is not finite, 7 for a radius not above 0, a lambda below 0 or a scaling entry of zero, a frozen column's too,
// 9 where no column is free: all as it was. Refused 8 at the first number that is not finite of: undamped scaled norm, lower bound, gnorm, a
// trial's lambda, its scaled norm, a correction: out as it was, the store and the state as after an answer.
pub fn determine_lambda_and_parameter_update(
    st: State,
    store: &mut [f64],
    order: &[usize],
    diag: &[f64],
    radius: f64,
    lambda: f64,
    out: &mut [f64],
) -> Told<(LMParameter, Ranges), State>
    ensures { marked_ended (reply_of result.answer) result.state store.new out.new ≡ marked_search st order.now diag.now radius lambda store.old out.old }
{
    let marks = st.marks;
    if marks == 0 {
        let t = search::trust_region::determine_lambda_and_parameter_update(
            whole(st),
            store,
            order,
            diag,
            radius,
            lambda,
            out,
        );
        return Told {
            answer: t.answer,
            state: marked(marks, t.state),
        };
    }
    if let Err(no) = check_search(st, store.len(), order, diag, radius, lambda, out.len()) {
        return Told {
            answer: Err(no),
            state: st,
        };
    }
    let n = st.n;
    let free = free_count(n, marks);
    let p = FrozenProblem {
        st,
        free,
        store: &*store,
    };
    let mut ds: [f64; 16] = filled(0.0);
    p.gather(diag, &mut ds);
    let told = p.determine_lambda_and_parameter_update(
        &order[..free],
        &ds[..free],
        radius,
        lambda,
        out,
    );
    empty(n, store).unwrap();
    told
}
