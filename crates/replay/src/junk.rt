// The bits of a counter fill the first len numbers of a room: no call may come to rely on a clean one. Each function answers the counter
// after the last. Two functions: how a number is made of the counter is what they differ in.
use text::double::of_bits;

// The oracle's step: 2^64 over the golden ratio.
fn next(counter: u64) -> u64 {
    std::num::wrapping_add_u64(counter, 0x9E37_79B9_7F4A_7C15)
}

pub(crate) fn doubles(room: &mut [f64], len: usize, counter: u64) -> u64 {
    let mut c = counter;
    for x in room.iter_mut().take(len) {
        c = next(c);
        *x = of_bits(c);
    }
    c
}

pub(crate) fn places(room: &mut [usize], len: usize, counter: u64) -> u64 {
    let mut c = counter;
    for k in room.iter_mut().take(len) {
        c = next(c);
        *k = (c % 32) as usize;
    }
    c
}
