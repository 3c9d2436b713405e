// Document 01, module 7: the search for lambda and step (`trust_region.rs`).
ghost use Rattle.std.specs.Prelude.{◌≡◌, length};
ghost use Rattle.leaves.specs.Reply.{reply_of};
ghost use Rattle.leaves.specs.Norm.{ranges_of};
ghost use Rattle.factor.specs.Room.{lay, emptied};
ghost use Rattle.factor.specs.Outcome.{ended};
ghost use Rattle.factor.specs.State.{with_held};
ghost use Rattle.factor.specs.declared.state.Held.TheVariants.{Nothing};
ghost use Rattle.search.specs.Problem.{placed};
ghost use Rattle.search.specs.Measured.{measured_by};
ghost use Rattle.search.specs.Search.{answer_of, searched, search_call};
ghost use Rattle.search.specs.inner.Read.{with_step, Saw};

use crate::LMParameter;
use crate::bounds::band_of;
use crate::check::check_search;
use crate::lent::TrustRegion;
use crate::vectors::place;
use factor::state::{Held, State};
use leaves::lent::Order;
use leaves::norm::Ranges;
use leaves::number::is_finite;
use leaves::reply::{Refusal, Told};
use leaves::sizes::filled;

impl TrustRegion<'_, '_> {
    ghost use Rattle.search.specs.inner.Asked.{asked, room, Kept};

    // A search whose tests are passed. The step that is answered stands in w.
    fn run(&mut self, lambda: f64) -> Result<(LMParameter, Ranges), Refusal>
        ensures kept { Kept self.old self.new }
        ensures w_after { with_step result (placed (asked self.old) self.new.w.now) ≡ answer_of (asked self.old) lambda }
        ensures store_unchanged { emptied (room self.new) ≡ emptied (room self.old) }
        ensures saw { Saw result (ranges_of (measured_by (asked self.old) lambda)) }
    {
        let radius = self.radius;
        let start = self.undamped();
        let norm = start.value;
        if !is_finite(norm) {
            return Err(Refusal::Overflow);
        }
        if norm - radius <= band_of(radius) {
            let answer = LMParameter {
                lambda: 0.0,
                dp_norm: norm,
                trials: 0,
            };
            return Ok((answer, start.seen));
        }
        self.bounded(lambda, start)
    }

    // The same, after which the store is emptied and the step of an answer is written.
    fn run_into(&mut self, lambda: f64, out: &mut [f64]) -> Result<(LMParameter, Ranges), Refusal>
        requires out_len { length out.old ≡ self.old.st.n }
        ensures same_store { self.new.store.ghost_name ≡ self.old.store.ghost_name }
        ensures ended { ended (reply_of result) (with_held self.old.st Nothing) self.new.store.now out.new ≡ searched self.old.st (lay (emptied (room self.old))) out.old (ranges_of (measured_by (asked self.old) lambda)) (answer_of (asked self.old) lambda) }
    {
        let found = self.run(lambda);
        self.empty();
        if found.is_ok() {
            let w = &mut *self.w;
            place(self.order, w, out);
        }
        found
    }
}

// Searches for lambda and the step (`determine_lambda_and_parameter_update`, MINPACK's LMPAR).
//
// st: a state of the problem. store: R and qt_b are read; on exit strict lower part, l_diag and work are +0. order: read. diag: the scaling,
// its first n, each at its column, read. radius: the step bound of the scaled step. lambda: where the search starts. out: on exit its first n
// are the step, each entry at its column.
// Answers lambda, the norm of the scaled step and the number of trials, which are damped solves; and which ranges took part in any norm that it
// worked out, which changes nothing about the numbers. Hands back the state with nothing held.
// Refused 5 for an empty state, 2 for its sizes, 3 for a slice that is too short, 4 for an order list that is none, 6 for a scaling, radius
// or lambda that is not finite, 7 for a radius not above 0, a lambda below 0 or a scaling entry of zero: all as it was. Refused 8 at the first
// number that is not finite of: undamped scaled norm, lower bound, gnorm, a trial's lambda, its scaled norm, a correction: out as it was, the
// store and the state as after an answer.
pub fn determine_lambda_and_parameter_update(
    st: State,
    store: &mut [f64],
    order: &[usize],
    diag: &[f64],
    radius: f64,
    lambda: f64,
    out: &mut [f64],
) -> Told<(LMParameter, Ranges), State>
    ensures { ended (reply_of result.answer) result.state store.new out.new ≡ search_call st order.now diag.now radius lambda store.old out.old }
{
    if let Err(no) = check_search(st, store.len(), order, diag, radius, lambda, out.len()) {
        return Told {
            answer: Err(no),
            state: st,
        };
    }
    let n = st.n;
    let mut v: [f64; 16] = filled(0.0);
    let mut w: [f64; 16] = filled(0.0);
    let mut region = TrustRegion {
        st,
        store,
        order: Order { n, places: order },
        diag: &diag[..n],
        radius,
        v: &mut v[..n],
        w: &mut w[..n],
    };
    let answer = region.run_into(lambda, &mut out[..n]);
    Told {
        answer,
        state: State {
            held: Held::Nothing,
            ..st
        },
    }
}
