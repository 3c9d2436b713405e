// Document 02, #107: a factored problem put away, and brought back. Its rooms are made here, so that the other modes stay what they are.
use crate::play::at;
use calls::state::State;
use leaves::sizes::filled;

// Packs, and in mode 8 also unpacks: R's second column's first entry, or qt_b where there is one column.
pub(crate) fn put_away(mode: usize, st: State, store: &mut [f64], order: &mut [usize]) -> f64 {
    let mut packed: [f64; 168] = filled(0.0);
    let mut places: [usize; 16] = filled(0);
    let t = packing::pack::pack(st, store, order, &mut packed, &mut places);
    if mode == 7 {
        return at(&packed, 1);
    }
    packing::unpack::unpack(t.state, &packed, &places, store, order);
    at(store, st.n)
}
