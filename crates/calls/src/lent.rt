// What a call with frozen columns is lent, once its tests are passed: each value of this type is of that form, so that no working asks for it
// again.
ghost use Rattle.calls.specs.inner.Reducible.{Reducible};

use crate::state::State;

// A problem of which some columns are free: its state, how many are free, and its store, only read.
#[derive(Clone, Copy)]
pub(crate) struct FrozenProblem<'a> {
    pub(crate) st: State,
    pub(crate) free: usize,
    pub(crate) store: &'a [f64],
    pub(crate) ghost reducible: { Reducible st.n st.marks free store.now },
}
