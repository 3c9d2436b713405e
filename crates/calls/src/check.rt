// Document 01, 'Refusal numbers, tested in this order', with 02, #108. Each refuses by the first test that fails.
ghost use Rattle.std.specs.Prelude.{◌≡◌, [], ◌∷◌, ◌≤◌, length, drop};
ghost use Rattle.leaves.specs.Reply.{failed_by};
ghost use Rattle.leaves.specs.Tests.{first_of};
ghost use Rattle.calls.specs.Tests.{marked_room_tests, continues, is_order, form_tests, marked_solve_tests, free_test};

use crate::state::State;
use factor::check::{is_empty, permutation};
use frozen::marks::{free_count, mark_past};
use leaves::reply::Refusal;
use leaves::sizes::{least, outside};

pub(crate) fn room(st: State, store: usize, shortest: usize) -> Result<(), Refusal>
    ensures { failed_by result ≡ first_of (marked_room_tests st store shortest) }
{
    let n = st.n;
    if is_empty(st.held) {
        return Err(Refusal::NotHeld);
    }
    if outside(st.m, n) {
        return Err(Refusal::Sizes);
    }
    if mark_past(n, st.marks) {
        return Err(Refusal::Sizes);
    }
    if store < n * n + 4 * n {
        return Err(Refusal::Length);
    }
    if shortest < n {
        Err(Refusal::Length)
    } else {
        Ok(())
    }
}

// 'the remaining places continue the count'
fn goes_on(free: usize, order: &[usize]) -> bool
    requires { free ≤ length order.now }
    ensures { result ≡ continues free (drop free order.now) }
{
    for k in free..order.len() {
        if order[k] != k {
            return false;
        }
    }
    true
}

// With no free column there is nothing to permute.
fn is_order(free: usize, n: usize, order: &[usize]) -> bool
    requires { (free ≤ n) × (n ≤ 16) × (n ≤ length order.now) }
    ensures { result ≡ is_order free n order.now }
{
    if free > 0 {
        if permutation(free, order).is_err() {
            return false;
        }
    }
    goes_on(free, &order[..n])
}

// Whether an order list is one of its form.
//
// n: the number of columns. marks: as in a state. order: its first n are read.
// Refused 2 for n outside 1 to 16 or a mark past n, 3 for fewer than n places, 4 where the first are no permutation of the free columns or the
// others do not continue the count.
pub fn form(n: usize, marks: u16, order: &[usize]) -> Result<(), Refusal>
    ensures { failed_by result ≡ first_of (form_tests n marks order.now) }
{
    if outside(1, n) {
        return Err(Refusal::Sizes);
    }
    if mark_past(n, marks) {
        return Err(Refusal::Sizes);
    }
    if order.len() < n {
        return Err(Refusal::Length);
    }
    if is_order(free_count(n, marks), n, order) {
        Ok(())
    } else {
        Err(Refusal::Order)
    }
}

pub(crate) fn ordered(
    st: State,
    store: usize,
    shortest: usize,
    order: &[usize],
) -> Result<(), Refusal>
    ensures { failed_by result ≡ first_of (marked_solve_tests st store order.now shortest) }
{
    room(st, store, least(order.len(), shortest))?;
    let n = st.n;
    if is_order(free_count(n, st.marks), n, order) {
        Ok(())
    } else {
        Err(Refusal::Order)
    }
}

// Test 9, the last of every call.
pub(crate) fn some_free(st: State) -> Result<(), Refusal>
    ensures { failed_by result ≡ first_of (free_test st ∷ []) }
{
    if free_count(st.n, st.marks) == 0 {
        Err(Refusal::AllFrozen)
    } else {
        Ok(())
    }
}
