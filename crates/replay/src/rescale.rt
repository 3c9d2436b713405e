// The scaling call, which alone changes a vector that it is lent.
use crate::item::word;
use crate::reply::{After, Extra, told_with};
use calls::state::State;
use leaves::sizes::filled;
use lines::scan::{Unread, doubles};
use measures::scaling::Mode;
use text::double::of_bits;

fn mode_of(k: u64) -> Result<Mode, Unread> {
    match k {
        0 => Ok(Mode::FirstScaled),
        1 => Ok(Mode::FirstUnscaled),
        2 => Ok(Mode::LaterScaled),
        3 => Ok(Mode::LaterUnscaled),
        _ => Err(Unread::Bad),
    }
}

// A list that is too long for its room is told before a word that does not read.
pub(crate) fn scale(s: &[u8], st: State, store: &mut [f64]) -> Result<After, Unread> {
    let k = word(s, 2)?;
    let d = word(s, k.next)?;
    let n = word(s, d.next)?;
    let mode = mode_of(k.value)?;
    if (64 < d.value) | (64 < n.value) {
        return Err(Unread::Large);
    }
    let mut diag: [f64; 64] = filled(0.0);
    let mut x: [f64; 64] = filled(0.0);
    let f = doubles(s, n.next, d.value as usize, &mut diag)?;
    let g = doubles(s, f.next, n.value as usize, &mut x)?;
    let bound = of_bits(word(s, g.next)?.value);
    let len = f.len;
    let t = calls::update_diag::update_diag(st, store, mode, &mut diag[..len], &x[..g.len], bound);
    Ok(told_with(t, Extra::Scaling(diag, len)))
}
