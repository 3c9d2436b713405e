// Document 02, #107: packed rooms.
use crate::away::{exchange, keep, packed_of};
use crate::item::word;
use crate::room::{Packed, Scene};
use crate::{junk, print};
use leaves::reply::Refusal;
use leaves::sizes::filled;
use lines::part::within;
use lines::scan::{Number, Unread};
use text::double::of_bits;
use text::put::Page;

// Which of the three packed rooms an item names.
fn which(s: &[u8]) -> Result<Number, Unread> {
    let k = word(s, 2)?;
    if 2 < k.value {
        return Err(Unread::Bad);
    }
    Ok(k)
}

// Junk in the oracle's order: the doubles, the places.
fn soiled(len: usize, count: usize, seed: u64) -> Packed {
    let mut room: [f64; 192] = filled(0.0);
    let mut places: [usize; 32] = filled(0);
    let one = junk::doubles(&mut room, len, seed);
    junk::places(&mut places, count, one);
    Packed {
        room,
        places,
        len,
        count,
    }
}

fn lend(s: &[u8], p: &mut Scene) -> Result<(), Unread> {
    let k = which(s)?;
    let a = word(s, k.next)?;
    let b = word(s, a.next)?;
    let seed = word(s, b.next)?;
    if (192 < a.value) | (32 < b.value) {
        return Err(Unread::Large);
    }
    let lent = soiled(a.value as usize, b.value as usize, seed.value);
    keep(p, k.value, lent);
    Ok(())
}

fn put<T: Copy>(v: &mut [T], i: usize, x: T) {
    if i < v.len() {
        v[i] = x;
    }
}

// A double, or a place.
fn spoilt(b: Packed, op: u8, i: usize, x: u64) -> Packed {
    let mut room = b.room;
    let mut places = b.places;
    if op == b'V' {
        put(&mut room, i, of_bits(x));
    } else {
        put(&mut places, i, x as usize);
    }
    Packed { room, places, ..b }
}

fn spoil(s: &[u8], op: u8, p: &mut Scene) -> Result<(), Unread> {
    let k = which(s)?;
    let i = word(s, k.next)?;
    let x = word(s, i.next)?;
    let b = packed_of(p, k.value);
    let len = if op == b'V' { b.len } else { b.count };
    let at = i.value as usize;
    if len <= at {
        return Err(Unread::Large);
    }
    keep(p, k.value, spoilt(b, op, at, x.value));
    Ok(())
}

// What a packing or an unpacking left in the packed room, and what it answered.
#[derive(Clone, Copy)]
struct Left {
    packed: Packed,
    answer: Result<(), Refusal>,
}

fn pack(p: &mut Scene, b: Packed) -> Left {
    let mut room = b.room;
    let mut places = b.places;
    let k = within(&p.store, p.lent.store);
    let o = within(&p.order, p.lent.order);
    let r = within(&room, b.len);
    let q = within(&places, b.count);
    let t = packing::pack::pack(
        p.state,
        &p.store[..k],
        &p.order[..o],
        &mut room[..r],
        &mut places[..q],
    );
    p.state = t.state;
    Left {
        packed: Packed { room, places, ..b },
        answer: t.answer,
    }
}

fn unpack(p: &mut Scene, b: Packed) -> Left {
    let mut store = p.store;
    let mut order = p.order;
    let k = within(&store, p.lent.store);
    let o = within(&order, p.lent.order);
    let r = within(&b.room, b.len);
    let q = within(&b.places, b.count);
    let t = packing::unpack::unpack(
        p.state,
        &b.room[..r],
        &b.places[..q],
        &mut store[..k],
        &mut order[..o],
    );
    p.store = store;
    p.order = order;
    p.state = t.state;
    Left {
        packed: b,
        answer: t.answer,
    }
}

fn call(s: &[u8], op: u8, p: &mut Scene, page: &mut Page<'_>) -> Result<(), Unread> {
    let k = which(s)?.value;
    let b = packed_of(p, k);
    let left = if op == b'B' { pack(p, b) } else { unpack(p, b) };
    keep(p, k, left.packed);
    print::packing(left.answer, left.packed, p, page);
    Ok(())
}

pub(crate) fn line(s: &[u8], op: u8, p: &mut Scene, page: &mut Page<'_>) -> Result<(), Unread> {
    match op {
        b'X' => exchange(s, p),
        b'J' => lend(s, p),
        b'V' | b'Y' => spoil(s, op, p),
        _ => call(s, op, p, page),
    }
}

pub(crate) fn is_of(op: u8) -> bool {
    matches!(op, b'X' | b'J' | b'V' | b'Y' | b'B' | b'E')
}
