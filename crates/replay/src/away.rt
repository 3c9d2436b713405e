// Document 02, #107: problems put aside, so that a script has three in turn.
use crate::item::word;
use crate::room::{Aside, Packed, Scene};
use lines::scan::Unread;

fn aside_of(p: &Scene, k: u64) -> Aside {
    if k == 0 { p.away.one } else { p.away.two }
}

fn put_aside(p: &mut Scene, k: u64, own: Aside) {
    if k == 0 {
        p.away.one = own;
    } else {
        p.away.two = own;
    }
}

pub(crate) fn packed_of(p: &Scene, k: u64) -> Packed {
    match k {
        0 => p.away.first,
        1 => p.away.second,
        _ => p.away.third,
    }
}

// A packed room in the place of another.
pub(crate) fn keep(p: &mut Scene, k: u64, b: Packed) {
    match k {
        0 => p.away.first = b,
        1 => p.away.second = b,
        _ => p.away.third = b,
    }
}

fn own_of(p: &Scene) -> Aside {
    let store = p.store;
    let order = p.order;
    Aside {
        store,
        order,
        len: p.lent.store,
        count: p.lent.order,
        state: p.state,
    }
}

// Another problem lent in the place of the scene's own.
fn lend_other(p: &mut Scene, other: Aside) {
    let store = other.store;
    let order = other.order;
    p.store = store;
    p.order = order;
    p.lent.store = other.len;
    p.lent.order = other.count;
    p.state = other.state;
}

pub(crate) fn exchange(s: &[u8], p: &mut Scene) -> Result<(), Unread> {
    let k = word(s, 2)?.value;
    if 1 < k {
        return Err(Unread::Bad);
    }
    let own = own_of(p);
    let other = aside_of(p, k);
    lend_other(p, other);
    put_aside(p, k, own);
    Ok(())
}
