// Document 01, 'Lent room', with 02, #108: the held calls (`CholeskyFactor`). Each stands once, on a store that is only read; the call on a
// lent store is that, and work cleared.
ghost use Rattle.std.specs.Prelude.{◌≡◌, [], ◌∷◌, ◌++◌, ◌≤◌, min, length};
ghost use Rattle.leaves.specs.Reply.{reply_of, failed_by};
ghost use Rattle.leaves.specs.Square.{zeros};
ghost use Rattle.leaves.specs.Tests.{first_of};
ghost use Rattle.factor.specs.Tests.{held_test, finite_test};
ghost use Rattle.factor.specs.Outcome.{read};
ghost use Rattle.factor.specs.HeldCalls as plain;
ghost use Rattle.calls.specs.State.{whole as whole_state, without_frozen as reduced_state, cols};
ghost use Rattle.calls.specs.Tests.{marked_room_tests, marked_solve_tests, free_test};
ghost use Rattle.calls.specs.Outcome.{marked_ended, narrowed_in, held_by};
ghost use Rattle.calls.specs.HeldCalls.{marked_solve, marked_mul, marked_read};

use crate::check::{ordered, room, some_free};
use crate::lent::FrozenProblem;
use crate::room::{held_into, room320};
use crate::state::{State, marked, whole};
use factor::check::is_nothing;
use factor::parts::rest;
use frozen::marks::free_count;
use leaves::reply::{Refusal, Told};
use leaves::sizes::{filled, least};
use leaves::vector::all_finite;

// ---- the tests

// 5 where nothing is held, then 6, then 9.
fn check_solve(
    st: State,
    store: usize,
    order: &[usize],
    rhs: &[f64],
    out: usize,
) -> Result<(), Refusal>
    ensures { failed_by result ≡ first_of (marked_solve_tests st store order.now (min (length rhs.now) out) ++ (held_test (whole_state st) ∷ finite_test (whole_state st) rhs.now ∷ free_test st ∷ [])) }
{
    ordered(st, store, least(rhs.len(), out), order)?;
    if is_nothing(st.held) {
        return Err(Refusal::NotHeld);
    }
    let n = st.n;
    if !all_finite(&rhs[..n]) {
        return Err(Refusal::NotFinite);
    }
    some_free(st)
}

fn check_mul(st: State, store: usize, out: usize) -> Result<(), Refusal>
    ensures { failed_by result ≡ first_of (marked_room_tests st store out ++ (held_test (whole_state st) ∷ free_test st ∷ [])) }
{
    room(st, store, out)?;
    if is_nothing(st.held) {
        return Err(Refusal::NotHeld);
    }
    some_free(st)
}

// ---- with frozen columns, the tests passed

impl FrozenProblem<'_> {
    fn solve(&self, order: &[usize], bs: &[f64], out: &mut [f64]) -> Result<(), Refusal>
        requires { self.now.st.n ≤ length out.old }
        ensures { read (reply_of result) out.new ≡ marked_read (held_by self.now.st self.now.store.now out.old (plain.solve_call (reduced_state self.now.st) order.now bs.now (narrowed_in self.now.st self.now.store.now) (zeros (cols self.now.st)))) }
    {
        let n = self.st.n;
        let free = self.free;
        let mut small = room320();
        self.narrow(&mut small);
        let need = self.need();
        let mut room = self.fresh();
        let x = &mut room[..free];
        factor::cholesky::solve_read(self.reduced(), &small[..need], order, bs, x)?;
        held_into(n, free, x, &mut out[..n]);
        Ok(())
    }

    fn mul_qt_b(&self, out: &mut [f64]) -> Result<(), Refusal>
        requires { self.now.st.n ≤ length out.old }
        ensures { read (reply_of result) out.new ≡ marked_read (held_by self.now.st self.now.store.now out.old (plain.mul_call (reduced_state self.now.st) (narrowed_in self.now.st self.now.store.now) (zeros (cols self.now.st)))) }
    {
        let n = self.st.n;
        let free = self.free;
        let mut small = room320();
        self.narrow(&mut small);
        let need = self.need();
        let mut room = self.fresh();
        let x = &mut room[..free];
        factor::cholesky::mul_read(self.reduced(), &small[..need], x)?;
        held_into(n, free, x, &mut out[..n]);
        Ok(())
    }
}

// ---- with a store that is only read

// The held solve (`CholeskyFactor::solve`) on a store that is only read: as `solve`, but that work stays as it was.
pub fn solve_read(
    st: State,
    store: &[f64],
    order: &[usize],
    rhs: &[f64],
    out: &mut [f64],
) -> Result<(), Refusal>
    ensures { read (reply_of result) out.new ≡ marked_read (marked_solve st order.now rhs.now store.now out.old) }
{
    let marks = st.marks;
    if marks == 0 {
        return factor::cholesky::solve_read(whole(st), store, order, rhs, out);
    }
    check_solve(st, store.len(), order, rhs, out.len())?;
    let free = free_count(st.n, marks);
    let p = FrozenProblem { st, free, store };
    let mut bs: [f64; 16] = filled(0.0);
    p.gather(rhs, &mut bs);
    p.solve(&order[..free], &bs[..free], out)
}

// The held product (`CholeskyFactor::mul_qt_b`) on a store that is only read: as `mul_qt_b`, but that work stays as it was.
pub fn mul_read(st: State, store: &[f64], out: &mut [f64]) -> Result<(), Refusal>
    ensures { read (reply_of result) out.new ≡ marked_read (marked_mul st store.now out.old) }
{
    let marks = st.marks;
    if marks == 0 {
        return factor::cholesky::mul_read(whole(st), store, out);
    }
    check_mul(st, store.len(), out.len())?;
    let free = free_count(st.n, marks);
    let p = FrozenProblem { st, free, store };
    p.mul_qt_b(out)
}

// ---- the calls

// Solves L·x = rhs with the L that the last solve left (`CholeskyFactor::solve`).
//
// st: a state of the problem, with a solve held. store: R after a zero solve, L after a damped one, is read; on exit work is +0. order:
// read. rhs: the first n, each at its column, read. out: on exit its first n are the answer, in pivot order, and +0 past the free count.
// Hands the state back as it came.
// Refused 5 for an empty state, 2 for its sizes or a mark past n, 3 for a slice that is too short, 4 for an order list that is none, 5 where
// nothing is held, 6 for an entry of rhs that is not finite, a frozen column's too, 9 where no column is free: all as it was. Refused 8 where
// a number of the answer is not finite: out as it was, work +0.
pub fn solve(
    st: State,
    store: &mut [f64],
    order: &[usize],
    rhs: &[f64],
    out: &mut [f64],
) -> Told<(), State>
    ensures { marked_ended (reply_of result.answer) result.state store.new out.new ≡ marked_solve st order.now rhs.now store.old out.old }
{
    let marks = st.marks;
    if marks == 0 {
        let t = factor::cholesky::solve(whole(st), store, order, rhs, out);
        return Told {
            answer: t.answer,
            state: marked(marks, t.state),
        };
    }
    if let Err(no) = check_solve(st, store.len(), order, rhs, out.len()) {
        return Told {
            answer: Err(no),
            state: st,
        };
    }
    let n = st.n;
    let free = free_count(n, marks);
    let p = FrozenProblem {
        st,
        free,
        store: &*store,
    };
    let mut bs: [f64; 16] = filled(0.0);
    p.gather(rhs, &mut bs);
    let answer = p.solve(&order[..free], &bs[..free], out);
    rest(n, store).unwrap();
    Told { answer, state: st }
}

// L·qt_b with the L that the last solve left (`CholeskyFactor::mul_qt_b`).
//
// st: a state of the problem, with a solve held. store: qt_b is read, and R after a zero solve, L after a damped one; on exit work is +0.
// out: on exit its first n are the product, in pivot order, and +0 past the free count.
// Hands the state back as it came.
// Refused 5 for an empty state, 2 for its sizes or a mark past n, 3 for a slice that is too short, 5 where nothing is held, 9 where no column is
// free: all as it was. Refused 8 where a number of the product is not finite: out as it was, work +0.
pub fn mul_qt_b(st: State, store: &mut [f64], out: &mut [f64]) -> Told<(), State>
    ensures { marked_ended (reply_of result.answer) result.state store.new out.new ≡ marked_mul st store.old out.old }
{
    let marks = st.marks;
    if marks == 0 {
        let t = factor::cholesky::mul_qt_b(whole(st), store, out);
        return Told {
            answer: t.answer,
            state: marked(marks, t.state),
        };
    }
    if let Err(no) = check_mul(st, store.len(), out.len()) {
        return Told {
            answer: Err(no),
            state: st,
        };
    }
    let n = st.n;
    let free = free_count(n, marks);
    let p = FrozenProblem {
        st,
        free,
        store: &*store,
    };
    let answer = p.mul_qt_b(out);
    rest(n, store).unwrap();
    Told { answer, state: st }
}
