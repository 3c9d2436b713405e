// Document 01, 'Refusal numbers, tested in this order': the tests that calls share, here and in the crates above, on numbers and lengths:
// what is held, the sizes, how long slices are. Each refuses by the first test that fails. They take the parts of a
// state and no `State`, since what takes a state is a call (docs/DECISIONS.md, D70).
ghost use Rattle.std.specs.Prelude.{◌≡◌, ◌≤◌, false, length, replicate};
ghost use Rattle.leaves.specs.Reply.{failed_by};
ghost use Rattle.leaves.specs.Tests.{first_of};
ghost use Rattle.factor.specs.State.{is_empty, is_nothing, state_of};
ghost use Rattle.factor.specs.Tests.{size_tests, room_tests, permutation_tests, is_permutation, solve_tests};
ghost use Rattle.factor.specs.Factoring.{factor_tests};

use crate::state::Held;
use leaves::reply::Refusal;
use leaves::sizes::{filled, least, outside};
use leaves::vector::all_finite;

// Whether there is no problem. Refuses nothing.
pub fn is_empty(h: Held) -> bool
    ensures { result ≡ is_empty h }
{
    matches!(h, Held::Empty)
}

// Whether no solve is held. Refuses nothing.
pub fn is_nothing(h: Held) -> bool
    ensures { result ≡ is_nothing h }
{
    matches!(h, Held::Nothing)
}

// Test 4, by a mark for each number that was met.
fn is_permutation(order: &[usize], n: usize) -> bool
    requires n_bound { n ≤ 16 }
    requires n_in_bounds { n ≤ length order.now }
    ensures { result ≡ is_permutation n order.now }
{
    let mut met: [bool; 16] = filled(false);
    for &o in &order[..n] {
        if n <= o {
            return false;
        }
        if met[o] {
            return false;
        }
        met[o] = true;
    }
    true
}

// Whether an order list is one.
//
// n: the number of columns. order: its first n are read.
// Refused 2 for n outside 1 to 16, 3 for fewer than n places, 4 where the first n are no permutation of 0 to n − 1.
pub fn permutation(n: usize, order: &[usize]) -> Result<(), Refusal>
    ensures { failed_by result ≡ first_of (permutation_tests n order.now) }
{
    if outside(1, n) {
        return Err(Refusal::Sizes);
    }
    if order.len() < n {
        return Err(Refusal::Length);
    }
    if is_permutation(order, n) {
        Ok(())
    } else {
        Err(Refusal::Order)
    }
}

// What every working on lent numbers tests: its sizes, and two lengths.
pub(crate) fn sizes(m: usize, n: usize, store: usize, shortest: usize) -> Result<(), Refusal>
    ensures { failed_by result ≡ first_of (size_tests m n store shortest) }
{
    if outside(m, n) {
        return Err(Refusal::Sizes);
    }
    if store < n * n + 4 * n {
        return Err(Refusal::Length);
    }
    if shortest < n {
        Err(Refusal::Length)
    } else {
        Ok(())
    }
}

// What every call with a state tests first.
//
// held, m, n: the state's parts. store: how long the lent store is. shortest: the least length of the slices that hold a number for each
// column; n where there is none.
// Refused 5 for an empty state, before its sizes are read; then 2 for the sizes, 3 for a store or a slice that is too short.
pub fn room(held: Held, m: usize, n: usize, store: usize, shortest: usize) -> Result<(), Refusal>
    ensures { failed_by result ≡ first_of (room_tests (state_of m n held) store shortest) }
{
    if is_empty(held) {
        return Err(Refusal::NotHeld);
    }
    sizes(m, n, store, shortest)
}

// The same for a call with an order list, which is one of the slices.
//
// As `room`; order: its first n are read.
// Refused as `room`, then 4 where the order list is no permutation.
pub fn ordered(
    held: Held,
    m: usize,
    n: usize,
    store: usize,
    shortest: usize,
    order: &[usize],
) -> Result<(), Refusal>
    ensures { failed_by result ≡ first_of (solve_tests (state_of m n held) store order.now shortest) }
{
    room(held, m, n, store, least(order.len(), shortest))?;
    if is_permutation(order, n) {
        Ok(())
    } else {
        Err(Refusal::Order)
    }
}

// What factoring tests. It reads no old order list.
pub(crate) fn check_factor(
    m: usize,
    n: usize,
    jacobian: &[f64],
    residuals: &[f64],
    store: usize,
    order: usize,
    bench: usize,
) -> Result<(), Refusal>
    ensures { failed_by result ≡ first_of (factor_tests m n jacobian.now residuals.now store order bench) }
{
    if outside(m, n) {
        return Err(Refusal::Sizes);
    }
    let mn = m * n;
    if jacobian.len() < mn {
        return Err(Refusal::Length);
    }
    if residuals.len() < m {
        return Err(Refusal::Length);
    }
    if store < n * n + 4 * n {
        return Err(Refusal::Length);
    }
    if order < n {
        return Err(Refusal::Length);
    }
    if bench < mn + m {
        return Err(Refusal::Length);
    }
    if !all_finite(&jacobian[..mn]) {
        return Err(Refusal::NotFinite);
    }
    if all_finite(&residuals[..m]) {
        Ok(())
    } else {
        Err(Refusal::NotFinite)
    }
}
