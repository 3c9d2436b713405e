// One line of a script: rooms are lent, a case ends, or an item is played on the parts of the program's rooms that are lent.
use crate::item::word;
use crate::reply::After;
use crate::room::{Lent, Scene, bare, empty, fits};
use crate::{item, junk, pack, print};
use lines::part::within;
use lines::scan::{Unread, byte};
use text::put::Page;

// The rooms with other lengths lent, full of junk in the oracle's order: the store, the bench, the output, the order list.
fn soil(p: &mut Scene, lent: Lent, seed: u64) {
    let one = junk::doubles(&mut p.store, lent.store, seed);
    let two = junk::doubles(&mut p.bench, lent.bench, one);
    let three = junk::doubles(&mut p.out, lent.out, two);
    junk::places(&mut p.order, lent.order, three);
    p.lent = lent;
    p.state = empty();
}

fn lend(s: &[u8], p: &mut Scene) -> Result<(), Unread> {
    let a = word(s, 2)?;
    let b = word(s, a.next)?;
    let c = word(s, b.next)?;
    let d = word(s, c.next)?;
    let seed = word(s, d.next)?;
    let lent = Lent {
        store: a.value as usize,
        order: b.value as usize,
        bench: c.value as usize,
        out: d.value as usize,
    };
    if fits(lent) {
        soil(p, lent, seed.value);
        return Ok(());
    }
    Err(Unread::Large)
}

// Where a length does not fit its room nothing is lent.
fn lend_or_none(s: &[u8], p: &mut Scene, page: &mut Page<'_>) {
    if let Err(why) = lend(s, p) {
        print::unplayed(why, page);
        *p = bare(p.away);
    }
}

// An item that is not played leaves the rooms as they were. They are copied out and back, since the kit lends one field of a lent struct at a
// time.
fn played(s: &[u8], p: &mut Scene) -> Result<After, Unread> {
    let mut store = p.store;
    let mut order = p.order;
    let mut bench = p.bench;
    let mut out = p.out;
    let k = within(&store, p.lent.store);
    let o = within(&order, p.lent.order);
    let b = within(&bench, p.lent.bench);
    let u = within(&out, p.lent.out);
    let after = item::play(
        s,
        p.state,
        &mut store[..k],
        &mut order[..o],
        &mut bench[..b],
        &mut out[..u],
    )?;
    p.store = store;
    p.order = order;
    p.bench = bench;
    p.out = out;
    p.state = after.state;
    Ok(after)
}

fn item(s: &[u8], p: &mut Scene, page: &mut Page<'_>) -> Result<(), Unread> {
    let after = played(s, p)?;
    print::item(after, p, page);
    Ok(())
}

pub(crate) fn line(s: &[u8], p: &mut Scene, page: &mut Page<'_>) {
    let op = byte(s, 0);
    if op == b'R' {
        lend_or_none(s, p, page);
        return;
    }
    if op == b'.' {
        page.bytes(b".\n");
        return;
    }
    let left = if pack::is_of(op) {
        pack::line(s, op, p, page)
    } else {
        item(s, p, page)
    };
    if let Err(why) = left {
        print::unplayed(why, page);
    }
}
