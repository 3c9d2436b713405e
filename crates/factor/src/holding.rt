// The held calls on lent slices, the store only read: what stands in it after the last solve is R for a zero solve, L for a damped one.
// The held calls, their read-only forms and the workings of a search all stand on these.
ghost use Rattle.std.specs.Prelude.{◌≡◌, true, false, ◌≤◌, length, take};
ghost use Rattle.factor.specs.declared.state.Held.TheVariants as held;
ghost use Rattle.factor.specs.Room.{load};
ghost use Rattle.leaves.specs.Tests.{all_finite};
ghost use Rattle.factor.specs.Solve.{gather};
ghost use Rattle.factor.specs.Held.{held_solved, held_product_of};
ghost use Rattle.factor.specs.Outcome.{written};
ghost use Rattle.factor.specs.inner.Rooms.{held_as};

use crate::held::{forward_lower, forward_upper, mul_lower, mul_upper};
use crate::room::{lower_of, part_of, square_of};
use crate::solve::gather_into;
use crate::store::{CholeskyFactor, Store};
use leaves::lent::Order;
use leaves::sizes::filled;
use leaves::vector::all_finite;

// ---- the answer goes out

fn write_first(w: &[f64], out: &mut [f64])
    requires { length w.now ≤ length out.old }
    ensures { out.new ≡ written w.now out.old }
{
    let n = w.len();
    out[..n].copy_from_slice(w);
}

// 8: an output that is refused stays as it was, so the answer is tested before it is written.
pub(crate) fn write_finite(w: &[f64], out: &mut [f64]) -> bool
    requires { length w.now ≤ length out.old }
    ensures value { result ≡ all_finite w.now }
    ensures out_after { result ≡ true → out.new ≡ written w.now out.old }
    ensures out_unchanged { result ≡ false → out.new ≡ out.old }
{
    if all_finite(w) {
        write_first(w, out);
        return true;
    }
    false
}

// ---- the held solve: w is the right side on entry and the answer on exit, both in pivot order

pub(crate) fn solve_zero(store: Store, w: &mut [f64])
    requires { length w.old ≡ store.n }
    ensures { w.new ≡ held_solved held.Zero w.old (load store.entry.n store.entry.cells.now) }
{
    forward_upper(square_of(store), w);
}

pub(crate) fn solve_damped(store: Store, w: &mut [f64])
    requires { length w.old ≡ store.n }
    ensures { w.new ≡ held_solved held.Damped w.old (load store.entry.n store.entry.cells.now) }
{
    forward_lower(lower_of(store), w);
}

fn solve_held(factor: CholeskyFactor, w: &mut [f64])
    requires { length w.old ≡ factor.store.n }
    ensures { w.new ≡ held_solved (held_as factor.entry.lower) w.old (load factor.entry.store.n factor.entry.store.cells.now) }
{
    if factor.lower {
        solve_damped(factor.store, w)
    } else {
        solve_zero(factor.store, w)
    }
}

// The held solve, all tests passed, the store only read: written where each number is finite.
pub(crate) fn solve_into(factor: CholeskyFactor, order: Order, rhs: &[f64], out: &mut [f64]) -> bool
    requires same_n { order.n ≡ factor.store.n }
    requires n_in_bounds { (order.n ≤ length rhs.now) × (order.n ≤ length out.old) }
    ensures value { result ≡ all_finite (held_solved (held_as factor.entry.lower) (gather (take order.entry.n order.entry.places.now) rhs.now) (load factor.entry.store.n factor.entry.store.cells.now)) }
    ensures out_after { result ≡ true → out.new ≡ written (held_solved (held_as factor.entry.lower) (gather (take order.entry.n order.entry.places.now) rhs.now) (load factor.entry.store.n factor.entry.store.cells.now)) out.old }
    ensures out_unchanged { result ≡ false → out.new ≡ out.old }
{
    let n = order.n;
    let mut w: [f64; 16] = filled(0.0);
    let w = &mut w[..n];
    gather_into(order, rhs, w);
    solve_held(factor, w);
    write_finite(w, out)
}

// ---- the held product

pub(crate) fn mul_zero(store: Store, w: &mut [f64])
    requires { length w.old ≡ store.n }
    ensures { w.new ≡ held_product_of held.Zero (load store.entry.n store.entry.cells.now) }
{
    mul_upper(square_of(store), part_of(store, 0), w);
}

fn mul_damped(store: Store, w: &mut [f64])
    requires { length w.old ≡ store.n }
    ensures { w.new ≡ held_product_of held.Damped (load store.entry.n store.entry.cells.now) }
{
    mul_lower(lower_of(store), part_of(store, 0), w);
}

fn mul_held(factor: CholeskyFactor, w: &mut [f64])
    requires { length w.old ≡ factor.store.n }
    ensures { w.new ≡ held_product_of (held_as factor.entry.lower) (load factor.entry.store.n factor.entry.store.cells.now) }
{
    if factor.lower {
        mul_damped(factor.store, w)
    } else {
        mul_zero(factor.store, w)
    }
}

// The held product, all tests passed, the store only read: written where each number is finite.
pub(crate) fn mul_into(factor: CholeskyFactor, out: &mut [f64]) -> bool
    requires { factor.store.n ≤ length out.old }
    ensures value { result ≡ all_finite (held_product_of (held_as factor.entry.lower) (load factor.entry.store.n factor.entry.store.cells.now)) }
    ensures out_after { result ≡ true → out.new ≡ written (held_product_of (held_as factor.entry.lower) (load factor.entry.store.n factor.entry.store.cells.now)) out.old }
    ensures out_unchanged { result ≡ false → out.new ≡ out.old }
{
    let n = factor.store.n;
    let mut w: [f64; 16] = filled(0.0);
    let w = &mut w[..n];
    mul_held(factor, w);
    write_finite(w, out)
}
