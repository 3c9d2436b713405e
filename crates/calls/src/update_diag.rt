// Document 01, module 6, with 02, #108: the scaling. 'First scaling gives a frozen column 1, later scaling leaves its entry'.
ghost use Rattle.std.specs.Prelude.{◌≡◌, [], ◌∷◌, ◌++◌, ◌≤◌, length};
ghost use Rattle.leaves.specs.Reply.{failed_by};
ghost use Rattle.leaves.specs.Tests.{first_of};
ghost use Rattle.frozen.specs.Frozen.{marks_of, free_count, free_of, merged};
ghost use Rattle.factor.specs.Tests.{finite_test};
ghost use Rattle.measures.specs.Answers.{scaling_of};
ghost use Rattle.measures.specs.Rescale as plain;
ghost use Rattle.calls.specs.State.{whole as whole_state, without_frozen as reduced_state, marks_in};
ghost use Rattle.calls.specs.Tests.{marked_room_tests, free_test};
ghost use Rattle.calls.specs.Outcome.{marked_ended, narrowed_in, rested_store};
ghost use Rattle.calls.specs.Rescale.{marked_first_tests, marked_scaling_tests, frozen_entries, scaled_by, marked_scaling};

use crate::check::{room, some_free};
use crate::lent::FrozenProblem;
use crate::room::room320;
use crate::state::{State, marked, whole};
use factor::parts::rest;
use frozen::marks::free_count;
use frozen::moved::{gather_free, merge_into};
use leaves::number::is_finite;
use leaves::reply::{Refusal, Told};
use leaves::sizes::{filled, least};
use leaves::vector::{all_finite, fill};
use measures::scaling::{Mode, Scaling};

// The first call reads the parameters and the step bound.
fn check_first(st: State, store: usize, diag: &[f64], x: &[f64], bound: f64) -> Result<(), Refusal>
    ensures { failed_by result ≡ first_of (marked_first_tests st store diag.now x.now bound) }
{
    room(st, store, least(diag.len(), x.len()))?;
    let n = st.n;
    if !all_finite(&x[..n]) {
        return Err(Refusal::NotFinite);
    }
    if !is_finite(bound) {
        return Err(Refusal::NotFinite);
    }
    if bound <= 0.0 {
        return Err(Refusal::Range);
    }
    some_free(st)
}

// A later scaled call reads the lent scaling.
fn check_later(st: State, store: usize, diag: &[f64]) -> Result<(), Refusal>
    ensures { failed_by result ≡ first_of (marked_room_tests st store (length diag.now) ++ (finite_test (whole_state st) diag.now ∷ free_test st ∷ [])) }
{
    room(st, store, diag.len())?;
    let n = st.n;
    if !all_finite(&diag[..n]) {
        return Err(Refusal::NotFinite);
    }
    some_free(st)
}

// A later unscaled call reads none.
fn check_unread(st: State, store: usize, diag: usize) -> Result<(), Refusal>
    ensures { failed_by result ≡ first_of (marked_room_tests st store diag ++ (free_test st ∷ [])) }
{
    room(st, store, diag)?;
    some_free(st)
}

fn check_scaling(
    st: State,
    mode: Mode,
    store: usize,
    diag: &[f64],
    x: &[f64],
    bound: f64,
) -> Result<(), Refusal>
    ensures { failed_by result ≡ first_of (marked_scaling_tests st mode store diag.now x.now bound) }
{
    match mode {
        Mode::FirstScaled => check_first(st, store, diag, x, bound),
        Mode::FirstUnscaled => check_first(st, store, diag, x, bound),
        Mode::LaterScaled => check_later(st, store, diag),
        Mode::LaterUnscaled => check_unread(st, store, diag.len()),
    }
}

// What stands at a frozen column afterwards.
fn fill_frozen(mode: Mode, n: usize, diag: &mut [f64])
    requires { n ≤ length diag.old }
    ensures { diag.new ≡ frozen_entries mode n diag.old }
{
    if let Mode::FirstScaled = mode {
        fill(1.0, &mut diag[..n]);
    }
}

fn scale_into(mode: Mode, n: usize, marks: u16, d: &[f64], diag: &mut [f64])
    requires { (n ≤ length diag.old) × (length d.now ≡ free_count (marks_of n marks)) }
    ensures { diag.new ≡ merged (marks_of n marks) (frozen_entries mode n diag.old) d.now }
{
    fill_frozen(mode, n, diag);
    merge_into(n, marks, d, diag).unwrap();
}

impl FrozenProblem<'_> {
    // A scaling; work is yet to be cleared. xs: the reduced problem's parameters.
    fn update_diag(
        &self,
        mode: Mode,
        xs: &[f64],
        bound: f64,
        diag: &mut [f64],
    ) -> Result<Scaling, Refusal>
        requires { self.now.st.n ≤ length diag.old }
        ensures { marked_ended (scaling_of result) self.now.st (rested_store self.now.st self.now.store.now) diag.new ≡ scaled_by self.now.st mode diag.old self.now.store.now (plain.scaling_call (reduced_state self.now.st) mode (free_of (marks_in self.now.st) diag.old) xs.now bound (narrowed_in self.now.st self.now.store.now)) }
    {
        let mut small = room320();
        self.narrow(&mut small);
        let need = self.need();
        let mut room: [f64; 16] = filled(0.0);
        self.gather(diag, &mut room);
        let d = &mut room[..self.free];
        let t = measures::update_diag::update_diag(
            self.reduced(),
            &mut small[..need],
            mode,
            d,
            xs,
            bound,
        );
        let scaling = t.answer?;
        scale_into(mode, self.st.n, self.st.marks, d, diag);
        Ok(scaling)
    }
}

// Renews the scaling of the columns (`update_diag`).
//
// st: a state of the problem. store: the column norms are read; on exit work is +0. mode: the first call or a later one, scaled or not. diag:
// the scaling, its first n lent in every mode, each at its column; a later scaled call reads it, and a scaled call writes it: a frozen column's
// entry becomes 1 in the first, and stays in a later one. x: the parameters, the first n read by the first call. bound: the step bound, read by
// the first call.
// Answers xnorm and the radius at the first call, and which ranges took part in a norm that it worked out. Hands the state back as it came.
// Refused 5 for an empty state, 2 for its sizes or a mark past n, 3 for a slice that is too short, 6 for a number read that is not finite, a
// frozen column's too, 7 for a bound not above 0, 9 where no column is free: all as it was. Refused 8 where an entry, xnorm or the radius is
// not finite or the radius is rounded to zero: the scaling as it was, work +0.
pub fn update_diag(
    st: State,
    store: &mut [f64],
    mode: Mode,
    diag: &mut [f64],
    x: &[f64],
    bound: f64,
) -> Told<Scaling, State>
    ensures { marked_ended (scaling_of result.answer) result.state store.new diag.new ≡ marked_scaling st mode diag.old x.now bound store.old }
{
    let marks = st.marks;
    if marks == 0 {
        let t = measures::update_diag::update_diag(whole(st), store, mode, diag, x, bound);
        return Told {
            answer: t.answer,
            state: marked(marks, t.state),
        };
    }
    if let Err(no) = check_scaling(st, mode, store.len(), diag, x, bound) {
        return Told {
            answer: Err(no),
            state: st,
        };
    }
    let n = st.n;
    let free = free_count(n, marks);
    let p = FrozenProblem {
        st,
        free,
        store: &*store,
    };
    let mut xs: [f64; 16] = filled(0.0);
    // Refused where the parameters are short, which a later call does not read.
    let _ = gather_free(n, marks, x, &mut xs[..free]);
    let answer = p.update_diag(mode, &xs[..free], bound, diag);
    rest(n, store).unwrap();
    Told { answer, state: st }
}
