// 02, #105, with #108: whether the gradient is above a limit.
ghost use Rattle.std.specs.Prelude.{◌≡◌, length};
ghost use Rattle.leaves.specs.Reply.{reply_of, failed_by};
ghost use Rattle.leaves.specs.Tests.{first_of};
ghost use Rattle.measures.specs.Measures as plain;
ghost use Rattle.calls.specs.State.{without_frozen as reduced_state};
ghost use Rattle.calls.specs.Outcome.{marked_told, narrowed_in};
ghost use Rattle.calls.specs.Measures.{marked_above_tests, marked_above};

use crate::check::{ordered, some_free};
use crate::lent::FrozenProblem;
use crate::room::room320;
use crate::state::{State, marked, whole};
use factor::parts::rest;
use frozen::marks::free_count;
use leaves::number::is_finite;
use leaves::reply::{Refusal, Told};

fn check_above(
    st: State,
    store: usize,
    order: &[usize],
    bnorm: f64,
    limit: f64,
) -> Result<(), Refusal>
    ensures { failed_by result ≡ first_of (marked_above_tests st store order.now bnorm limit) }
{
    ordered(st, store, order.len(), order)?;
    if !is_finite(bnorm) {
        return Err(Refusal::NotFinite);
    }
    if !is_finite(limit) {
        return Err(Refusal::NotFinite);
    }
    if bnorm <= 0.0 {
        return Err(Refusal::Range);
    }
    if limit < 0.0 {
        return Err(Refusal::Range);
    }
    some_free(st)
}

impl FrozenProblem<'_> {
    fn above_limit(&self, order: &[usize], bnorm: f64, limit: f64) -> Result<bool, Refusal>
        ensures { reply_of result ≡ (plain.above_call (reduced_state self.now.st) order.now bnorm limit (narrowed_in self.now.st self.now.store.now)).reply }
    {
        let mut small = room320();
        self.narrow(&mut small);
        let need = self.need();
        measures::above::above_limit(self.reduced(), &mut small[..need], order, bnorm, limit).answer
    }
}

// Whether the gradient's measure is greater than a limit, over the free columns. It agrees with `max_a_t_b_scaled` wherever that is answered,
// and ends at the first column above the limit: so it may say yes where the gradient is refused 8 for a later column.
//
// st: a state of the problem. store: R, qt_b and the column norms are read; on exit work is +0. order: read. bnorm: the norm of the residuals.
// limit: what the measure is held to; −0 asks what +0 asks.
// Hands the state back as it came.
// Refused 5 for an empty state, 2 for its sizes or a mark past n, 3 for a slice that is too short, 4 for an order list that is none, 6 for a
// bnorm or limit that is not finite, 7 for a bnorm not above 0 or a limit below 0, 9 where no column is free: all as it was. Refused 8 where a
// column's measure is not finite and none before it, in pivot order, is above the limit: work +0.
pub fn above_limit(
    st: State,
    store: &mut [f64],
    order: &[usize],
    bnorm: f64,
    limit: f64,
) -> Told<bool, State>
    ensures { marked_told (reply_of result.answer) result.state store.new ≡ marked_above st order.now bnorm limit store.old }
{
    let marks = st.marks;
    if marks == 0 {
        let t = measures::above::above_limit(whole(st), store, order, bnorm, limit);
        return Told {
            answer: t.answer,
            state: marked(marks, t.state),
        };
    }
    if let Err(no) = check_above(st, store.len(), order, bnorm, limit) {
        return Told {
            answer: Err(no),
            state: st,
        };
    }
    let n = st.n;
    let free = free_count(n, marks);
    let p = FrozenProblem {
        st,
        free,
        store: &*store,
    };
    let answer = p.above_limit(&order[..free], bnorm, limit);
    rest(n, store).unwrap();
    Told { answer, state: st }
}
