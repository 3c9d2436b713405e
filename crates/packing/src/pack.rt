// Document 02, #107: packing.
ghost use Rattle.std.specs.Prelude.{◌≡◌, ◌<◌, ◌≤◌, length};
ghost use Rattle.leaves.specs.Reply.{reply_of};
ghost use Rattle.factor.specs.Room.{load};
ghost use Rattle.factor.specs.inner.Rooms.{Sized};
ghost use Rattle.packing.specs.Packing.{pack_need, packed_of, first_places, put_away, pack_call};

use crate::check::{check_pack, pack_need};
use crate::corner::pack_columns;
use calls::state::State;
use leaves::reply::Told;

// qt_b and the column norms stand side by side in a store, and so they do in the room.
fn pack_in(n: usize, store: &[f64], room: &mut [f64])
    requires n_nonzero { (0 < n) × Sized n store.now }
    requires room_len { length room.old ≡ pack_need n }
    ensures { room.new ≡ packed_of (load n store.now) }
{
    let t = n * (n + 1) / 2;
    let p = n * n;
    let e = p + 2 * n;
    pack_columns(n, &store[..p], &mut room[..t]);
    room[t..].copy_from_slice(&store[p..e]);
}

// The first n of an order list.
pub(crate) fn place(n: usize, from: &[usize], to: &mut [usize])
    requires { (n ≤ length from.now) × (n ≤ length to.old) }
    ensures { to.new ≡ first_places n from.now to.old }
{
    to[..n].copy_from_slice(&from[..n]);
}

// Puts a factored problem away.
//
// st: a state of the problem; it is not packed, and must be kept beside the room. store: R, qt_b and the column norms are only read. order: only
// read. room: on exit its first n(n + 1)/2 + 2n are R's columns without what stands below them, qt_b and the column norms. places: on exit
// its first n are the order list's.
// Hands the state back as it came. What a solve left is not packed.
// Refused 5 for an empty state, 2 for its sizes or a mark past n, 3 for a slice that is too short, 4 for an order list that is none, 9 where no
// column is free: room and places as they were.
pub fn pack(
    st: State,
    store: &[f64],
    order: &[usize],
    room: &mut [f64],
    places: &mut [usize],
) -> Told<(), State>
    ensures { put_away (reply_of result.answer) result.state room.new places.new ≡ pack_call st store.now order.now room.old places.old }
{
    if let Err(no) = check_pack(st, store.len(), order, room.len(), places.len()) {
        return Told {
            answer: Err(no),
            state: st,
        };
    }
    let n = st.n;
    let need = pack_need(n);
    pack_in(n, store, &mut room[..need]);
    place(n, order, places);
    Told {
        answer: Ok(()),
        state: st,
    }
}
