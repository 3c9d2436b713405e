// Document 01, 'Refusal numbers, tested in this order': the tests of a sheet.
ghost use Rattle.std.specs.Prelude.{◌≡◌, ◌≤◌};
ghost use Rattle.leaves.specs.Reply.{failed_by};
ghost use Rattle.leaves.specs.Tests.{first_of};
ghost use Rattle.sheet.specs.Sheet.{search, count_of, task_of};
ghost use Rattle.sheet.specs.Tests.{unknown, task_tests, field_tests, number_tests};

use crate::head::Head;
use crate::sized::{Numbers, Rest, Sizes};
use leaves::reply::Refusal;
use leaves::sizes::outside;
use leaves::vector::{all_finite, none_zero};

fn unknown_call(h: Head) -> bool
    ensures { result ≡ unknown h }
{
    let version = h.version;
    let call = h.call;
    if version != 1 {
        return true;
    }
    if call == 1 {
        return false;
    }
    call != 2
}

impl Sizes {
    // How many numbers stand behind the head.
    pub(crate) fn count(self) -> usize
        ensures { (result ≡ count_of self.head) × (result ≤ 2194) }
    {
        let m = self.head.m;
        let n = self.head.n;
        if self.head.call == 1 {
            return m * n + m + n + 2;
        }
        m * n + m + n + 1
    }
}

// Tests 1 to 3, of a head and two lengths: the sheet's, and that of the lent step.
pub(crate) fn check_fields(h: Head, len: usize, room: usize) -> Result<(), Refusal>
    ensures { failed_by result ≡ first_of (field_tests h len room) }
{
    let n = h.n;
    if unknown_call(h) {
        return Err(Refusal::Sheet);
    }
    if outside(h.m, n) {
        return Err(Refusal::Sizes);
    }
    let k = Sizes { head: h }.count();
    if len != 3 + 8 * k {
        return Err(Refusal::Length);
    }
    if room < n {
        return Err(Refusal::Length);
    }
    Ok(())
}

// Test 7 of call 1.
fn check_search(diag: &[f64], radius: f64, lambda: f64) -> Result<(), Refusal>
    ensures { failed_by result ≡ first_of (task_tests (search diag.now radius lambda)) }
{
    if radius <= 0.0 {
        return Err(Refusal::Range);
    }
    if lambda < 0.0 {
        return Err(Refusal::Range);
    }
    if none_zero(diag) {
        Ok(())
    } else {
        Err(Refusal::Range)
    }
}

impl Rest<'_> {
    // Test 7.
    fn check(&self) -> Result<(), Refusal>
        ensures { failed_by result ≡ first_of (task_tests (task_of self.now.call self.now.n self.now.xs.now)) }
    {
        let rest = self.xs;
        let n = self.n;
        if self.call == 1 {
            return check_search(&rest[..n], rest[n], rest[n + 1]);
        }
        if rest[n] <= 0.0 {
            Err(Refusal::Range)
        } else {
            Ok(())
        }
    }
}

impl Numbers<'_> {
    // Tests 6 and 7.
    pub(crate) fn check(&self) -> Result<(), Refusal>
        ensures { failed_by result ≡ first_of (number_tests self.now.of.head self.now.xs.now) }
    {
        if !all_finite(self.xs) {
            return Err(Refusal::NotFinite);
        }
        let rest = self.rest();
        rest.check()
    }
}
