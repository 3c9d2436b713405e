// Document 01, 'Leaf rules': dot, axpy, imax; copies, which the later modules need; and the finite and zero tests of refusals 6 and 7.
ghost use Rattle.std.specs.Prelude.{◌≡◌, length, replicate};
ghost use Rattle.leaves.specs.Reply.{reply_of};
ghost use Rattle.leaves.specs.Loop.{count_from};
ghost use Rattle.leaves.specs.Tests.{all_finite, none_zero};
ghost use Rattle.leaves.specs.Vector.{dot as dot_of, axpy as axpy_of, axpy_zero, imax as imax_of, copy as copy_of};

use crate::reply::Refusal;

// The dot product: +0, then the products added by rising index.
//
// a, b: equally many numbers, only read.
// Refused 3 where their lengths differ.
pub fn dot(a: &[f64], b: &[f64]) -> Result<f64, Refusal>
    ensures { reply_of result ≡ dot_of a.now b.now }
{
    if a.len() != b.len() {
        return Err(Refusal::Length);
    }
    let mut s = 0.0;
    for i in 0..a.len() {
        s = s + a[i] * b[i];
    }
    Ok(s)
}

// a·x + y, with last factor 1.
//
// x: only read. y: as long; on exit each a·x + y, the product rounded before the sum.
// Refused 3 where their lengths differ; y is then as it was.
pub fn axpy(a: f64, x: &[f64], y: &mut [f64]) -> Result<(), Refusal>
    ensures { (reply_of result, y.new) ≡ axpy_of a x.now y.old }
{
    if x.len() != y.len() {
        return Err(Refusal::Length);
    }
    for i in 0..x.len() {
        y[i] = a * x[i] + y[i];
    }
    Ok(())
}

// a·x, with last factor 0. Apart from `axpy`, as document 01 has them: here y is not read.
//
// x: only read. y: as long, not read; on exit each a·x.
// Refused 3 where their lengths differ; y is then as it was.
pub fn axpy_zero(a: f64, x: &[f64], y: &mut [f64]) -> Result<(), Refusal>
    ensures { (reply_of result, y.new) ≡ axpy_zero a x.now y.old }
{
    if x.len() != y.len() {
        return Err(Refusal::Length);
    }
    for i in 0..x.len() {
        y[i] = a * x[i];
    }
    Ok(())
}

// The place of the first of the largest: it starts at 0 and moves only to a later entry that compares greater.
//
// v: at least one number, only read.
// Refused 3 for none.
pub fn imax(v: &[f64]) -> Result<usize, Refusal>
    ensures { reply_of result ≡ imax_of v.now }
{
    if v.len() == 0 {
        return Err(Refusal::Length);
    }
    let mut b = 0;
    for i in 1..v.len() {
        if v[b] < v[i] {
            b = i;
        }
    }
    Ok(b)
}

// src to dst.
//
// src: only read. dst: as long, not read; on exit the same numbers.
// Refused 3 where their lengths differ; dst is then as it was.
pub fn copy(src: &[f64], dst: &mut [f64]) -> Result<(), Refusal>
    ensures { (reply_of result, dst.new) ≡ copy_of src.now dst.old }
{
    if src.len() != dst.len() {
        return Err(Refusal::Length);
    }
    dst.copy_from_slice(src);
    Ok(())
}

// v at every place of dst, which is not read. Refuses nothing.
pub fn fill(v: f64, dst: &mut [f64])
    ensures { dst.new ≡ replicate (length dst.old) v }
{
    dst.fill(v);
}

// 0, 1, 2, .. to the end of dst. Refuses nothing.
pub fn count(dst: &mut [usize])
    ensures { dst.new ≡ count_from (length dst.old) 0 }
{
    for (k, x) in dst.iter_mut().enumerate() {
        *x = k;
    }
}

// Test 6: whether every number of v is finite. Refuses nothing. No early exit: without one a number costs less than half.
pub fn all_finite(v: &[f64]) -> bool
    ensures { result ≡ all_finite v.now }
{
    let top = f64::from_bits(0x7ff0_0000_0000_0000);
    let mut bad = false;
    for &x in v {
        bad = bad | !((-top < x) & (x < top));
    }
    !bad
}

// Test 7 of a scaling: whether no number of v is zero, of either sign. Refuses nothing.
pub fn none_zero(v: &[f64]) -> bool
    ensures { result ≡ none_zero v.now }
{
    let mut zero = false;
    for &x in v {
        zero = zero | (x == 0.0);
    }
    !zero
}
