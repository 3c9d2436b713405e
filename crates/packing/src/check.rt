// Document 01, 'Refusal numbers, tested in this order', for the two calls here. Each refuses by the first test that fails.
ghost use Rattle.std.specs.Prelude.{◌≡◌, [], ◌∷◌, ◌++◌, ◌≤◌, ltb};
ghost use Rattle.leaves.specs.Reply.{failed_by};
ghost use Rattle.leaves.specs.Tests.{first_of};
ghost use Rattle.calls.specs.Tests.{marked_room_tests};
ghost use Rattle.packing.specs.Packing.{pack_need, pack_tests, unpack_tests};

use calls::check::form;
use calls::state::State;
use factor::check::is_empty;
use frozen::marks::{free_count, mark_past};
use leaves::reply::Refusal;
use leaves::sizes::{least, outside};
use leaves::vector::all_finite;

// n(n + 1)/2 + 2n
pub(crate) fn pack_need(n: usize) -> usize
    requires { n ≤ 16 }
    ensures { result ≡ pack_need n }
{
    n * (n + 1) / 2 + 2 * n
}

// 5, 2 and 3: what both calls test first. shortest: of the two lists of places.
fn lent(st: State, store: usize, room: usize, shortest: usize) -> Result<(), Refusal>
    ensures { failed_by result ≡ first_of (marked_room_tests st store shortest ++ ((ltb room (pack_need st.n), 3) ∷ [])) }
{
    let n = st.n;
    if is_empty(st.held) {
        return Err(Refusal::NotHeld);
    }
    if outside(st.m, n) {
        return Err(Refusal::Sizes);
    }
    if mark_past(n, st.marks) {
        return Err(Refusal::Sizes);
    }
    if store < n * n + 4 * n {
        return Err(Refusal::Length);
    }
    if shortest < n {
        return Err(Refusal::Length);
    }
    if room < pack_need(n) {
        Err(Refusal::Length)
    } else {
        Ok(())
    }
}

// places: how many are lent. 9 comes last.
pub(crate) fn check_pack(
    st: State,
    store: usize,
    order: &[usize],
    room: usize,
    places: usize,
) -> Result<(), Refusal>
    ensures { failed_by result ≡ first_of (pack_tests st store order.now room places) }
{
    lent(st, store, room, least(order.len(), places))?;
    if form(st.n, st.marks, order).is_err() {
        return Err(Refusal::Order);
    }
    if free_count(st.n, st.marks) == 0 {
        Err(Refusal::AllFrozen)
    } else {
        Ok(())
    }
}

// order: how many places are lent for it.
pub(crate) fn check_unpack(
    st: State,
    room: &[f64],
    places: &[usize],
    store: usize,
    order: usize,
) -> Result<(), Refusal>
    ensures { failed_by result ≡ first_of (unpack_tests st room.now places.now store order) }
{
    let n = st.n;
    lent(st, store, room.len(), least(order, places.len()))?;
    if form(n, st.marks, places).is_err() {
        return Err(Refusal::Order);
    }
    let need = pack_need(n);
    if !all_finite(&room[..need]) {
        return Err(Refusal::NotFinite);
    }
    if free_count(n, st.marks) == 0 {
        Err(Refusal::AllFrozen)
    } else {
        Ok(())
    }
}
