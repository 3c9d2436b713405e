// Document 01, module 6: the scaling of `update_diag`.
ghost use Rattle.std.specs.Prelude.{◌≡◌, cond, ◌≤◌, [], length};
ghost use Rattle.std.specs.Float.Ieee.{eq};
ghost use Rattle.leaves.specs.Number.{plus_zero, one};
ghost use Rattle.leaves.specs.Norm.{norm, ranges};
ghost use Rattle.leaves.specs.Product.{product_all};
ghost use Rattle.measures.specs.Answers.{scaling_of};
ghost use Rattle.measures.specs.Scaling.{first_scaling, later_scaling, radius_of, start_by, usable};
ghost use Rattle.measures.specs.Rescale.{rescaled};
ghost use Rattle.measures.specs.declared.scaling.Mode.TheVariants as modes;
ghost use Rattle.measures.specs.inner.Reads.{parameters_read};

use leaves::norm::{Normed, Ranges, enorm, neither};
use leaves::number::{is_finite, max};
use leaves::reply::Refusal;
use leaves::sizes::filled;
use leaves::vector::all_finite;

#[derive(Clone, Copy)]
pub enum Mode {
    FirstScaled,
    FirstUnscaled,
    LaterScaled,
    LaterUnscaled,
}

#[derive(Clone, Copy)]
pub struct Start {
    pub xnorm: f64,
    pub radius: f64,
}

// The first call alone gives xnorm and radius, and works out a norm; each answer carries the ranges that took part (02, #106).
#[derive(Clone, Copy)]
pub enum Scaling {
    First(Start, Ranges),
    Later(Ranges),
}

fn first_entry(s: f64) -> f64
    ensures { result ≡ cond (eq s plus_zero) one s }
{
    if s == 0.0 { 1.0 } else { s }
}

pub(crate) fn first_scaling(norms: &[f64], d: &mut [f64])
    requires { length norms.now ≡ length d.old }
    ensures { d.new ≡ first_scaling norms.now }
{
    for i in 0..norms.len() {
        d[i] = first_entry(norms[i]);
    }
}

pub(crate) fn later_scaling(norms: &[f64], d: &mut [f64])
    requires { length norms.now ≡ length d.old }
    ensures { d.new ≡ later_scaling norms.now d.old }
{
    for i in 0..norms.len() {
        d[i] = max(norms[i], d[i]);
    }
}

pub(crate) fn product_into(a: &[f64], b: &[f64], w: &mut [f64])
    requires { (length a.now ≡ length w.old) × (length b.now ≡ length w.old) }
    ensures { w.new ≡ product_all a.now b.now }
{
    for i in 0..a.len() {
        w[i] = a[i] * b[i];
    }
}

fn radius(bound: f64, xnorm: f64) -> f64
    ensures { result ≡ radius_of bound xnorm }
{
    if xnorm == 0.0 { bound } else { bound * xnorm }
}

pub(crate) fn start_by(bound: f64, xnorm: f64) -> Start
    ensures { result ≡ start_by bound xnorm }
{
    Start {
        xnorm,
        radius: radius(bound, xnorm),
    }
}

pub(crate) fn is_usable(t: Start) -> bool
    ensures { result ≡ usable t }
{
    if !is_finite(t.xnorm) {
        return false;
    }
    if !is_finite(t.radius) {
        return false;
    }
    t.radius != 0.0
}

// The norm of the products entry·x, by way of w.
fn scaled_norm(d: &[f64], x: &[f64], w: &mut [f64]) -> Normed
    requires w_len_bound { length w.old ≤ 16 }
    requires d_len { (length d.now ≡ length w.old) × (length x.now ≡ length w.old) }
    ensures value_value { result.value ≡ norm (product_all d.now x.now) }
    ensures seen_value { result.seen ≡ ranges (product_all d.now x.now) }
{
    product_into(d, x, w);
    enorm(w).unwrap()
}

// The new entries are worked out in d and tested first, so that a refusal leaves the lent scaling.
fn first_scaled(
    n: usize,
    norms: &[f64],
    d: &mut [f64],
    w: &mut [f64],
    diag: &mut [f64],
    x: &[f64],
    bound: f64,
) -> Result<Scaling, Refusal>
    requires n_bound { (n ≤ 16) × (length norms.now ≡ n) }
    requires d_len { (length d.old ≡ n) × (length w.old ≡ n) }
    requires n_in_bounds { (n ≤ length diag.old) × (n ≤ length x.now) }
    ensures { (scaling_of result, diag.new) ≡ rescaled modes.FirstScaled n norms.now diag.old x.now bound }
{
    first_scaling(norms, d);
    let s = scaled_norm(d, &x[..n], w);
    let t = start_by(bound, s.value);
    if !all_finite(d) {
        return Err(Refusal::Overflow);
    }
    if !is_usable(t) {
        return Err(Refusal::Overflow);
    }
    diag[..n].copy_from_slice(d);
    Ok(Scaling::First(t, s.seen))
}

fn first_unscaled(n: usize, x: &[f64], bound: f64) -> Result<Scaling, Refusal>
    requires { (n ≤ 16) × (n ≤ length x.now) }
    ensures { scaling_of result ≡ (rescaled modes.FirstUnscaled n [] [] x.now bound).0 }
{
    let s = enorm(&x[..n]).unwrap();
    let t = start_by(bound, s.value);
    if is_usable(t) {
        return Ok(Scaling::First(t, s.seen));
    }
    Err(Refusal::Overflow)
}

fn later_scaled(
    n: usize,
    norms: &[f64],
    d: &mut [f64],
    diag: &mut [f64],
) -> Result<Scaling, Refusal>
    requires { (length norms.now ≡ n) × (length d.old ≡ n) × (n ≤ length diag.old) }
    ensures { (scaling_of result, diag.new) ≡ rescaled modes.LaterScaled n norms.now diag.old [] plus_zero }
{
    d.copy_from_slice(&diag[..n]);
    later_scaling(norms, d);
    if !all_finite(d) {
        return Err(Refusal::Overflow);
    }
    diag[..n].copy_from_slice(d);
    Ok(Scaling::Later(neither()))
}

pub(crate) fn rescale(
    mode: Mode,
    n: usize,
    norms: &[f64],
    diag: &mut [f64],
    x: &[f64],
    bound: f64,
) -> Result<Scaling, Refusal>
    requires n_bound { (n ≤ 16) × (length norms.now ≡ n) }
    requires n_in_bounds { (n ≤ length diag.old) × (parameters_read mode n ≤ length x.now) }
    ensures { (scaling_of result, diag.new) ≡ rescaled mode n norms.now diag.old x.now bound }
{
    let mut d: [f64; 16] = filled(0.0);
    let mut w: [f64; 16] = filled(0.0);
    match mode {
        Mode::FirstScaled => first_scaled(n, norms, &mut d[..n], &mut w[..n], diag, x, bound),
        Mode::FirstUnscaled => first_unscaled(n, x, bound),
        Mode::LaterScaled => later_scaled(n, norms, &mut d[..n], diag),
        Mode::LaterUnscaled => Ok(Scaling::Later(neither())),
    }
}
