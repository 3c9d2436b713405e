// The problems: numbers from -1 to 1, by the congruence of Park and Miller.

pub(crate) fn first_seed() -> u64 {
    20261115
}

// Below 2^31 - 1.
fn next(seed: u64) -> u64 {
    let a = seed % 2147483647;
    (a * 16807) % 2147483647
}

fn value_of(seed: u64) -> f64 {
    let k = seed % 2147483647;
    (k as f64) / 2147483647.0 * 2.0 - 1.0
}

// The seed after the last number.
pub(crate) fn fill(room: &mut [f64], seed: u64) -> u64 {
    let mut s = seed;
    for x in room.iter_mut() {
        s = next(s);
        *x = value_of(s);
    }
    s
}
