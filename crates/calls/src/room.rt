// 02, #108: the way from a lent problem to the one without the frozen columns, and back. What is lent here is long enough, so that there is no
// refusal.
ghost use Rattle.std.specs.Prelude.{◌≡◌, ◌≤◌, length, take, replicate};
ghost use Rattle.leaves.specs.Number.{one};
ghost use Rattle.leaves.specs.Square.{zeros};
ghost use Rattle.frozen.specs.Frozen.{marks_of, free_count, free_of, merged};
ghost use Rattle.factor.specs.State.{store_need};
ghost use Rattle.factor.specs.Solve.{padded};
ghost use Rattle.calls.specs.State.{without_frozen as reduced_state, marks_in, cols};
ghost use Rattle.calls.specs.Outcome.{narrowed_in};

use crate::lent::FrozenProblem;
use frozen::moved::{gather_free, merge_into};
use frozen::narrow::narrow;
use leaves::sizes::filled;
use leaves::vector::fill;

// The largest store, of sixteen columns. Ones, since so many zeros are left to the C library, whose fill repeats an instruction for each byte.
pub(crate) fn room320() -> [f64; 320]
    ensures { result ≡ replicate 320 one }
{
    filled(1.0)
}

pub(crate) fn store_need(free: usize) -> usize
    requires { free ≤ 16 }
    ensures { result ≡ store_need free }
{
    free * free + 4 * free
}

impl FrozenProblem<'_> {
    // The state of the problem without the frozen columns.
    pub(crate) fn reduced(&self) -> factor::state::State
        ensures { result ≡ reduced_state self.now.st }
    {
        factor::state::State {
            m: self.st.m,
            n: self.free,
            held: self.st.held,
        }
    }

    // How many places of a room its store takes.
    pub(crate) fn need(&self) -> usize
        ensures value { result ≡ store_need self.now.free }
        ensures fits { result ≤ 320 }
    {
        store_need(self.free)
    }

    // Its store, into the first places of a room.
    pub(crate) fn narrow(&self, small: &mut [f64; 320])
        ensures { take (store_need self.now.free) small.new ≡ narrowed_in self.now.st self.now.store.now }
    {
        let need = self.need();
        narrow(self.st.n, self.free, self.store, &mut small[..need]).unwrap();
    }

    // Room of +0 for an answer of its call.
    pub(crate) fn fresh(&self) -> [f64; 16]
        ensures { take self.now.free result ≡ zeros (cols self.now.st) }
    {
        filled(0.0)
    }

    // The free columns' entries, into the first places of a room.
    pub(crate) fn gather(&self, xs: &[f64], w: &mut [f64; 16])
        requires { self.now.st.n ≤ length xs.now }
        ensures { take self.now.free w.new ≡ free_of (marks_in self.now.st) xs.now }
    {
        let free = self.free;
        gather_free(self.st.n, self.st.marks, xs, &mut w[..free]).unwrap();
    }
}

// A step: the free columns' entries at their columns, +0 at the frozen ones.
pub(crate) fn step_into(n: usize, marks: u16, x: &[f64], out: &mut [f64])
    requires { (length out.old ≡ n) × (length x.now ≡ free_count (marks_of n marks)) }
    ensures { out.new ≡ merged (marks_of n marks) (zeros n) x.now }
{
    fill(0.0, out);
    merge_into(n, marks, x, out).unwrap();
}

// What a held call answers: +0 in the places past the free count.
pub(crate) fn held_into(n: usize, free: usize, x: &[f64], out: &mut [f64])
    requires { (length out.old ≡ n) × (length x.now ≡ free) × (free ≤ n) }
    ensures { out.new ≡ padded n x.now }
{
    fill(0.0, &mut out[free..]);
    out[..free].copy_from_slice(x);
}
