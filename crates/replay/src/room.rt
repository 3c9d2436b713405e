// The program's rooms: there is no heap, so each is as long as the longest, and a number beside it says how much is lent. They hold the rules' largest problem, 128 residuals and 16 parameters, with a surplus.
use calls::state::State;
use factor::state::Held;
use leaves::sizes::filled;

// How long each lent room is.
#[derive(Clone, Copy)]
pub(crate) struct Lent {
    pub(crate) store: usize,
    pub(crate) order: usize,
    pub(crate) bench: usize,
    pub(crate) out: usize,
}

// A lent problem while the calls have another: document 02, #107. Of the store the first len are lent, of the order list the first count.
#[derive(Clone, Copy)]
pub(crate) struct Aside {
    pub(crate) store: [f64; 384],
    pub(crate) order: [usize; 32],
    pub(crate) len: usize,
    pub(crate) count: usize,
    pub(crate) state: State,
}

// A packed room, of which the first len and the first count are lent. 168 doubles are packed of 16 columns.
#[derive(Clone, Copy)]
pub(crate) struct Packed {
    pub(crate) room: [f64; 192],
    pub(crate) places: [usize; 32],
    pub(crate) len: usize,
    pub(crate) count: usize,
}

#[derive(Clone, Copy)]
pub(crate) struct Away {
    pub(crate) one: Aside,
    pub(crate) two: Aside,
    pub(crate) first: Packed,
    pub(crate) second: Packed,
    pub(crate) third: Packed,
}

// The rooms, whose first parts are lent, and the state. It is lent from function to function: by value each line would copy 34 KB some times.
#[derive(Clone, Copy)]
pub(crate) struct Scene {
    pub(crate) store: [f64; 384],
    pub(crate) order: [usize; 32],
    pub(crate) bench: [f64; 2304],
    pub(crate) out: [f64; 32],
    pub(crate) lent: Lent,
    pub(crate) state: State,
    pub(crate) away: Away,
}

pub(crate) fn fits(lent: Lent) -> bool {
    (lent.store <= 384) & (lent.order <= 32) & (lent.bench <= 2304) & (lent.out <= 32)
}

pub(crate) fn empty() -> State {
    State {
        m: 0,
        n: 0,
        held: Held::Empty,
        marks: 0,
    }
}

fn no_problem() -> Aside {
    Aside {
        store: filled(0.0),
        order: filled(0),
        len: 0,
        count: 0,
        state: empty(),
    }
}

fn no_packed() -> Packed {
    Packed {
        room: filled(0.0),
        places: filled(0),
        len: 0,
        count: 0,
    }
}

fn none_away() -> Away {
    let none = no_problem();
    let bare = no_packed();
    Away {
        one: none,
        two: none,
        first: bare,
        second: bare,
        third: bare,
    }
}

// Nothing is lent, put aside or packed.
pub(crate) fn nothing() -> Scene {
    bare(none_away())
}

// Nothing is lent.
pub(crate) fn bare(away: Away) -> Scene {
    Scene {
        store: filled(0.0),
        order: filled(0),
        bench: filled(0.0),
        out: filled(0.0),
        lent: Lent {
            store: 0,
            order: 0,
            bench: 0,
            out: 0,
        },
        state: empty(),
        away,
    }
}
