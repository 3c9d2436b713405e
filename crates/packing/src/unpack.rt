// Document 02, #107: unpacking.
ghost use Rattle.std.specs.Prelude.{◌≡◌, ◌<◌, length, drop};
ghost use Rattle.leaves.specs.Reply.{reply_of};
ghost use Rattle.factor.specs.Room.{lay};
ghost use Rattle.factor.specs.State.{store_need};
ghost use Rattle.factor.specs.inner.Rooms.{Sized};
ghost use Rattle.packing.specs.Packing.{pack_need, unpacked_room, put_away, unpack_call};

use crate::check::{check_unpack, pack_need};
use crate::corner::unpack_columns;
use crate::pack::place;
use calls::state::State;
use factor::state::Held;
use leaves::reply::Told;
use leaves::vector::fill;

// 'as after factoring': +0 below R, in l_diag and in work
fn unpack_in(n: usize, room: &[f64], store: &mut [f64])
    requires n_nonzero { (0 < n) × Sized n store.old }
    requires room_len { length room.now ≡ pack_need n }
    ensures { store.new ≡ lay (unpacked_room n room.now (drop (store_need n) store.old)) }
{
    let t = n * (n + 1) / 2;
    let p = n * n;
    unpack_columns(n, &room[..t], &mut store[..p]);
    store[p..p + 2 * n].copy_from_slice(&room[t..]);
    fill(0.0, &mut store[p + 2 * n..p + 4 * n]);
}

// Brings a packed problem back, as after its factoring.
//
// st: a state of the problem. room: its first n(n + 1)/2 + 2n are read. places: the first n are read. store: not read; on exit R on and above
// the diagonal of the square and +0 below, qt_b, the column norms, l_diag and work +0. order: not read; on exit its first n are the places.
// Hands the state back with nothing held.
// Refused 5 for an empty state, 2 for its sizes or a mark past n, 3 for a slice that is too short, 4 for places that are no order list, 6 for a
// packed number that is not finite, 9 where no column is free: state, store and order as they were.
pub fn unpack(
    st: State,
    room: &[f64],
    places: &[usize],
    store: &mut [f64],
    order: &mut [usize],
) -> Told<(), State>
    ensures { put_away (reply_of result.answer) result.state store.new order.new ≡ unpack_call st room.now places.now store.old order.old }
{
    if let Err(no) = check_unpack(st, room, places, store.len(), order.len()) {
        return Told {
            answer: Err(no),
            state: st,
        };
    }
    let n = st.n;
    let need = pack_need(n);
    unpack_in(n, &room[..need], store);
    place(n, places, order);
    Told {
        answer: Ok(()),
        state: State {
            held: Held::Nothing,
            ..st
        },
    }
}
