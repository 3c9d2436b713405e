// Document 01, module 7: what a search works on, once its tests are passed: each value of this type is of that form, so that no working
// asks for it again. A working takes each slice out by `&mut *`, one that it only reads too: it is then known to be as it was.
ghost use Rattle.std.specs.Prelude.{◌≡◌, length};
ghost use Rattle.search.specs.inner.Read.{Ready};

use factor::state::State;
use leaves::lent::Order;

// The problem of a store that is lent, its scaling and its radius. v and w are room of a number for each column.
#[derive(Drop)]
pub(crate) struct TrustRegion<'a, 'o> {
    pub(crate) st: State,
    pub(crate) store: &'a mut [f64],
    pub(crate) order: Order<'o>,
    pub(crate) diag: &'a [f64],
    pub(crate) radius: f64,
    pub(crate) v: &'a mut [f64],
    pub(crate) w: &'a mut [f64],
    pub(crate) ghost ready: { Ready st store.now order.places.now },
    pub(crate) ghost order_n: { order.n ≡ st.n },
    pub(crate) ghost diag_len: { length diag.now ≡ st.n },
    pub(crate) ghost v_len: { length v.now ≡ st.n },
    pub(crate) ghost w_len: { length w.now ≡ st.n },
}
