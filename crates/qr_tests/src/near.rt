// How qr.rs compares: `assert_relative_eq!` of the crate approx, entry by entry.
use leaves::number::{abs, epsmch, is_finite, max};

// approx's rule, with its default bound EPSILON for the relative difference.
pub(crate) fn relative_eq(a: f64, b: f64, epsilon: f64) -> bool {
    if a == b {
        return true;
    }
    if !is_finite(a) {
        return false;
    }
    if !is_finite(b) {
        return false;
    }
    let diff = abs(a - b);
    if diff <= epsilon {
        return true;
    }
    diff <= max(abs(a), abs(b)) * epsmch()
}

// approx's default bound for the absolute difference, EPSILON too.
pub(crate) fn default_epsilon() -> f64 {
    epsmch()
}

// A place past the end reads as an infinity, which is near no number that is expected.
fn at(v: &[f64], i: usize) -> f64 {
    if i < v.len() {
        v[i]
    } else {
        f64::from_bits(0x7ff0_0000_0000_0000)
    }
}

// Whether v, from a place on, is near all of `expected`.
pub(crate) fn all(v: &[f64], from: usize, expected: &[f64], epsilon: f64) -> bool {
    expected.iter().enumerate().all(|(i, y)| {
        relative_eq(at(v, std::num::wrapping_add_usize(from, i)), *y, epsilon)
    })
}

// Whether the diagonal of the square that a store begins with is near all of `expected`, which has a number for each column.
pub(crate) fn diagonal(store: &[f64], expected: &[f64], epsilon: f64) -> bool {
    let apart = std::num::wrapping_add_usize(expected.len(), 1);
    let mut good = true;
    let mut from: usize = 0;
    for y in expected {
        good = good & relative_eq(at(store, from), *y, epsilon);
        from = std::num::wrapping_add_usize(from, apart);
    }
    good
}

// A place past the end reads as 99, which is no column.
fn place(v: &[usize], i: usize) -> usize {
    if i < v.len() { v[i] } else { 99 }
}

pub(crate) fn places(v: &[usize], expected: &[usize]) -> bool {
    expected.iter().enumerate().all(|(i, k)| place(v, i) == *k)
}
