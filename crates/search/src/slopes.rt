// Document 01, module 7: what a search asks of the held calls: lower bound, gnorm, corrections. Each loses the step in w.
ghost use Rattle.std.specs.Prelude.{◌≡◌, cond};
ghost use Rattle.leaves.specs.Number.{plus_zero};
ghost use Rattle.leaves.specs.Norm.{norm as norm_of, ranges, neither as neither_of};
ghost use Rattle.factor.specs.Solve.{non_singular_of};
ghost use Rattle.factor.specs.declared.state.Held.TheVariants as held;
ghost use Rattle.search.specs.Problem.{newton};
ghost use Rattle.search.specs.Bounds.{gnorm};
ghost use Rattle.search.specs.Measured.{gradient_by};

use crate::bounds::newton_of;
use crate::lent::TrustRegion;
use crate::vectors::{divide_by, norm_of, turn_into};
use leaves::norm::{Normed, neither};

impl TrustRegion<'_, '_> {
    ghost use Rattle.search.specs.inner.Asked.{asked, room, held_by, OnlyW};

    // The norm of what the held solve makes of the scaled step v, whose norm is given: after a zero solve, and after a damped one. They are
    // two, so that each is compiled where it is called; the held solve as a closure would say more than both of them.
    fn slope_by_zero(&mut self, norm: f64) -> Normed
        ensures kept { OnlyW self.old self.new }
        ensures value_value { result.value ≡ norm_of (held_by held.Zero self.old norm) }
        ensures seen_value { result.seen ≡ ranges (held_by held.Zero self.old norm) }
    {
        let store = &mut *self.store;
        let v = &mut *self.v;
        let w = &mut *self.w;
        turn_into(v, norm, self.order, self.diag, w);
        factor::pivot_order::held_zero(self.st.n, store, w).unwrap();
        norm_of(w)
    }

    fn slope_by_damped(&mut self, norm: f64) -> Normed
        ensures kept { OnlyW self.old self.new }
        ensures value_value { result.value ≡ norm_of (held_by held.Damped self.old norm) }
        ensures seen_value { result.seen ≡ ranges (held_by held.Damped self.old norm) }
    {
        let store = &mut *self.store;
        let v = &mut *self.v;
        let w = &mut *self.w;
        turn_into(v, norm, self.order, self.diag, w);
        factor::pivot_order::held_damped(self.st.n, store, w).unwrap();
        norm_of(w)
    }

    // After a damped solve.
    pub(crate) fn correction(&mut self, fp: f64, norm: f64) -> Normed
        ensures kept { OnlyW self.old self.new }
        ensures value_value { result.value ≡ newton fp self.old.radius (norm_of (held_by held.Damped self.old norm)) }
        ensures seen_value { result.seen ≡ ranges (held_by held.Damped self.old norm) }
    {
        let s = self.slope_by_damped(norm);
        Normed {
            value: newton_of(fp, self.radius, s.value),
            ..s
        }
    }

    // The lower bound: Newton's where the rank is full, else 0.
    pub(crate) fn lower_bound(&mut self, fp: f64, norm: f64) -> Normed
        ensures kept { OnlyW self.old self.new }
        ensures value_value { result.value ≡ cond (non_singular_of self.old.st.m self.old.st.n (room self.old).upper) (newton fp self.old.radius (norm_of (held_by held.Zero self.old norm))) plus_zero }
        ensures seen_value { result.seen ≡ cond (non_singular_of self.old.st.m self.old.st.n (room self.old).upper) (ranges (held_by held.Zero self.old norm)) neither_of }
    {
        if self.full_rank() {
            let s = self.slope_by_zero(norm);
            let seen = s.seen;
            return Normed {
                value: newton_of(fp, self.radius, s.value),
                seen,
            };
        }
        let seen = neither();
        Normed { value: 0.0, seen }
    }

    // gnorm, by way of w.
    pub(crate) fn gradient_norm(&mut self) -> Normed
        ensures kept { OnlyW self.old self.new }
        ensures value_value { result.value ≡ gnorm (asked self.old) }
        ensures seen_value { result.seen ≡ ranges (gradient_by (asked self.old)) }
    {
        let store = &mut *self.store;
        let w = &mut *self.w;
        factor::pivot_order::product(self.st.n, store, w).unwrap();
        divide_by(w, self.order, self.diag);
        norm_of(w)
    }
}
