// Document 01, module 7: the solves that a search makes, and the numbers that it takes from them. A step stands in w in pivot order; the
// scaled step v has its number for each column. Only the scaled step is scattered in a trial, and the step of the answer at the end.
ghost use Rattle.std.specs.Prelude.{◌≡◌};
ghost use Rattle.leaves.specs.Norm.{norm as norm_of, ranges};
ghost use Rattle.factor.specs.Room.{load, lay, emptied};
ghost use Rattle.factor.specs.Solve.{non_singular_of};
ghost use Rattle.factor.specs.PivotOrder.{lowered};
ghost use Rattle.search.specs.Problem.{placed, undamped_step, damped_rows, damped_step, scaled_step};

use crate::lent::TrustRegion;
use crate::vectors::{norm_of, place_scaled, scale_by};
use leaves::norm::Normed;

impl TrustRegion<'_, '_> {
    ghost use Rattle.search.specs.inner.Asked.{asked, room, Kept};

    // The undamped step.
    pub(crate) fn undamped(&mut self) -> Normed
        ensures kept { Kept self.old self.new }
        ensures store_unchanged { self.new.store.now ≡ self.old.store.now }
        ensures value_value { result.value ≡ norm_of self.new.v.now }
        ensures v_after { self.new.v.now ≡ scaled_step (asked self.old) (placed (asked self.old) self.new.w.now) }
        ensures w_after { placed (asked self.old) self.new.w.now ≡ undamped_step (asked self.old) }
        ensures seen_value { result.seen ≡ ranges self.new.v.now }
    {
        let store = &mut *self.store;
        let v = &mut *self.v;
        let w = &mut *self.w;
        factor::pivot_order::zero(self.st.m, self.st.n, store, w).unwrap();
        place_scaled(self.order, w, self.diag, v);
        norm_of(v)
    }

    // The step for a lambda: the damping is the scaling times its root.
    pub(crate) fn damped(&mut self, lambda: f64) -> Normed
        ensures kept { Kept self.old self.new }
        ensures value_value { result.value ≡ norm_of self.new.v.now }
        ensures v_after { self.new.v.now ≡ scaled_step (asked self.old) (placed (asked self.old) self.new.w.now) }
        ensures w_after { placed (asked self.old) self.new.w.now ≡ damped_step (asked self.old) lambda }
        ensures store_after { self.new.store.now ≡ lay (lowered (damped_rows (asked self.old) lambda) (room self.old)) }
        ensures seen_value { result.seen ≡ ranges self.new.v.now }
    {
        let store = &mut *self.store;
        let v = &mut *self.v;
        let w = &mut *self.w;
        scale_by(leaves::root::sqrt(lambda), self.order, self.diag, v);
        factor::pivot_order::damped(self.st.n, store, v, w).unwrap();
        place_scaled(self.order, w, self.diag, v);
        norm_of(v)
    }

    // Whether the problem has full rank.
    pub(crate) fn full_rank(&self) -> bool
        ensures { result ≡ non_singular_of self.now.st.m self.now.st.n (room self.now).upper }
    {
        factor::pivot_order::full_rank(self.st.m, self.st.n, self.store).unwrap()
    }

    // What a search leaves of the store.
    pub(crate) fn empty(&mut self)
        ensures kept { Kept self.old self.new }
        ensures store_after { self.new.store.now ≡ lay (emptied (room self.old)) }
        ensures w_unchanged { self.new.w.now ≡ self.old.w.now }
    {
        factor::pivot_order::empty(self.st.n, self.store).unwrap();
    }
}
