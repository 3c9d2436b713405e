// Document 01, module 6, with 02, #108: the gradient, the norm of Jx, determined, and whether A has full rank. After a call that passed its
// checks work is +0, and nothing else of the store is changed. The last two take no order list: no test 4.
ghost use Rattle.std.specs.Prelude.{◌≡◌, [], ◌∷◌, ◌++◌, length};
ghost use Rattle.leaves.specs.Reply.{reply_of, failed_by, measured_of};
ghost use Rattle.leaves.specs.Tests.{first_of};
ghost use Rattle.factor.specs.Tests.{finite_test, finite_number, not_above};
ghost use Rattle.measures.specs.Measures as plain;
ghost use Rattle.calls.specs.State.{whole as whole_state, without_frozen as reduced_state};
ghost use Rattle.calls.specs.Tests.{marked_room_tests, form_test, marked_solve_tests, free_test};
ghost use Rattle.calls.specs.Outcome.{marked_told, narrowed_in};
ghost use Rattle.calls.specs.Measures.{marked_gradient, marked_jx, marked_determined, marked_non_singular};

use crate::check::{ordered, room, some_free};
use crate::lent::FrozenProblem;
use crate::room::room320;
use crate::state::{State, marked, whole};
use factor::parts::rest;
use frozen::marks::free_count;
use leaves::norm::Normed;
use leaves::number::is_finite;
use leaves::reply::{Refusal, Told};
use leaves::sizes::filled;
use leaves::vector::all_finite;

// ---- the gradient

fn check_gradient(st: State, store: usize, order: &[usize], bnorm: f64) -> Result<(), Refusal>
    ensures { failed_by result ≡ first_of (marked_room_tests st store (length order.now) ++ (form_test st order.now ∷ finite_number bnorm ∷ (not_above bnorm, 7) ∷ free_test st ∷ [])) }
{
    ordered(st, store, order.len(), order)?;
    if !is_finite(bnorm) {
        return Err(Refusal::NotFinite);
    }
    if bnorm <= 0.0 {
        return Err(Refusal::Range);
    }
    some_free(st)
}

impl FrozenProblem<'_> {
    fn max_a_t_b_scaled(&self, order: &[usize], bnorm: f64) -> Result<f64, Refusal>
        ensures { reply_of result ≡ (plain.gradient_call (reduced_state self.now.st) order.now bnorm (narrowed_in self.now.st self.now.store.now)).reply }
    {
        let mut small = room320();
        self.narrow(&mut small);
        let need = self.need();
        measures::measures::max_a_t_b_scaled(
            self.reduced(),
            &mut small[..need],
            order,
            bnorm,
        ).answer
    }
}

// The gradient's measure (`max_a_t_b_scaled`).
//
// st: a state of the problem. store: R, qt_b and the column norms are read; on exit work is +0. order: read. bnorm: the norm of the residuals.
// Hands the state back as it came.
// Refused 5 for an empty state, 2 for its sizes or a mark past n, 3 for a slice that is too short, 4 for an order list that is none, 6 for a
// bnorm that is not finite, 7 for one not above 0, 9 where no column is free: all as it was. Refused 8 for a measure that is not finite: work
// +0.
pub fn max_a_t_b_scaled(
    st: State,
    store: &mut [f64],
    order: &[usize],
    bnorm: f64,
) -> Told<f64, State>
    ensures { marked_told (reply_of result.answer) result.state store.new ≡ marked_gradient st order.now bnorm store.old }
{
    let marks = st.marks;
    if marks == 0 {
        let t = measures::measures::max_a_t_b_scaled(whole(st), store, order, bnorm);
        return Told {
            answer: t.answer,
            state: marked(marks, t.state),
        };
    }
    if let Err(no) = check_gradient(st, store.len(), order, bnorm) {
        return Told {
            answer: Err(no),
            state: st,
        };
    }
    let n = st.n;
    let free = free_count(n, marks);
    let p = FrozenProblem {
        st,
        free,
        store: &*store,
    };
    let answer = p.max_a_t_b_scaled(&order[..free], bnorm);
    rest(n, store).unwrap();
    Told { answer, state: st }
}

// ---- the norm of Jx

fn check_jx(st: State, store: usize, order: &[usize], x: &[f64]) -> Result<(), Refusal>
    ensures { failed_by result ≡ first_of (marked_solve_tests st store order.now (length x.now) ++ (finite_test (whole_state st) x.now ∷ free_test st ∷ [])) }
{
    ordered(st, store, x.len(), order)?;
    let n = st.n;
    if !all_finite(&x[..n]) {
        return Err(Refusal::NotFinite);
    }
    some_free(st)
}

impl FrozenProblem<'_> {
    fn a_x_norm(&self, order: &[usize], xs: &[f64]) -> Result<Normed, Refusal>
        ensures { measured_of result ≡ (plain.jx_call (reduced_state self.now.st) order.now xs.now (narrowed_in self.now.st self.now.store.now)).reply }
    {
        let mut small = room320();
        self.narrow(&mut small);
        let need = self.need();
        measures::measures::a_x_norm(self.reduced(), &mut small[..need], order, xs).answer
    }
}

// The norm of Jx (`a_x_norm`), over the free columns.
//
// st: a state of the problem. store: R is read; on exit work is +0. order: read. x: the first n, each at its column, read.
// Answers the norm, and which ranges took part in it. Hands the state back as it came.
// Refused 5, 2, 3, 4 as the gradient, 6 for an entry of x that is not finite, a frozen column's too, 9 where no column is free: all as it was.
// Refused 8 for a norm that is not finite: work +0.
pub fn a_x_norm(st: State, store: &mut [f64], order: &[usize], x: &[f64]) -> Told<Normed, State>
    ensures { marked_told (measured_of result.answer) result.state store.new ≡ marked_jx st order.now x.now store.old }
{
    let marks = st.marks;
    if marks == 0 {
        let t = measures::measures::a_x_norm(whole(st), store, order, x);
        return Told {
            answer: t.answer,
            state: marked(marks, t.state),
        };
    }
    if let Err(no) = check_jx(st, store.len(), order, x) {
        return Told {
            answer: Err(no),
            state: st,
        };
    }
    let n = st.n;
    let free = free_count(n, marks);
    let p = FrozenProblem {
        st,
        free,
        store: &*store,
    };
    let mut xs: [f64; 16] = filled(0.0);
    p.gather(x, &mut xs);
    let answer = p.a_x_norm(&order[..free], &xs[..free]);
    rest(n, store).unwrap();
    Told { answer, state: st }
}

// ---- determined, and the rank

fn check_room(st: State, store: usize) -> Result<(), Refusal>
    ensures { failed_by result ≡ first_of (marked_room_tests st store st.n ++ (free_test st ∷ [])) }
{
    room(st, store, st.n)?;
    some_free(st)
}

impl FrozenProblem<'_> {
    fn determined(&self) -> Result<usize, Refusal>
        ensures { reply_of result ≡ (plain.determined_call (reduced_state self.now.st) (narrowed_in self.now.st self.now.store.now)).reply }
    {
        let mut small = room320();
        self.narrow(&mut small);
        let need = self.need();
        measures::measures::determined(self.reduced(), &mut small[..need]).answer
    }
}

// How many leading places of R's diagonal are above its limit (02, #104), of the free columns.
//
// st: a state of the problem. store: R's diagonal is read; on exit work is +0.
// Hands the state back as it came.
// Refused 5 for an empty state, 2 for its sizes or a mark past n, 3 for a store that is too short, 9 where no column is free: all as it was.
pub fn determined(st: State, store: &mut [f64]) -> Told<usize, State>
    ensures { marked_told (reply_of result.answer) result.state store.new ≡ marked_determined st store.old }
{
    let marks = st.marks;
    if marks == 0 {
        let t = measures::measures::determined(whole(st), store);
        return Told {
            answer: t.answer,
            state: marked(marks, t.state),
        };
    }
    if let Err(no) = check_room(st, store.len()) {
        return Told {
            answer: Err(no),
            state: st,
        };
    }
    let n = st.n;
    let free = free_count(n, marks);
    let p = FrozenProblem {
        st,
        free,
        store: &*store,
    };
    let answer = p.determined();
    rest(n, store).unwrap();
    Told { answer, state: st }
}

impl FrozenProblem<'_> {
    fn is_non_singular(&self) -> Result<bool, Refusal>
        ensures { reply_of result ≡ (plain.non_singular_call (reduced_state self.now.st) (narrowed_in self.now.st self.now.store.now)).reply }
    {
        let mut small = room320();
        self.narrow(&mut small);
        let need = self.need();
        measures::measures::is_non_singular(self.reduced(), &mut small[..need]).answer
    }
}

// Whether the free columns have full rank (`is_non_singular`).
//
// As `determined`; answers whether m is at least the free count and no place of R's diagonal is zero.
pub fn is_non_singular(st: State, store: &mut [f64]) -> Told<bool, State>
    ensures { marked_told (reply_of result.answer) result.state store.new ≡ marked_non_singular st store.old }
{
    let marks = st.marks;
    if marks == 0 {
        let t = measures::measures::is_non_singular(whole(st), store);
        return Told {
            answer: t.answer,
            state: marked(marks, t.state),
        };
    }
    if let Err(no) = check_room(st, store.len()) {
        return Told {
            answer: Err(no),
            state: st,
        };
    }
    let n = st.n;
    let free = free_count(n, marks);
    let p = FrozenProblem {
        st,
        free,
        store: &*store,
    };
    let answer = p.is_non_singular();
    rest(n, store).unwrap();
    Told { answer, state: st }
}
