// 02, #108: the state with its marks.
ghost use Rattle.std.specs.Prelude.{◌≡◌};
ghost use Rattle.calls.specs.State.{no_problem as empty_state, marked_held, marked as marked_state, whole as whole_state};

use factor::state::Held;

// marks: a bit for each column, column 0 the most significant of sixteen; set for a frozen column.
#[derive(Clone, Copy)]
pub struct State {
    pub m: usize,
    pub n: usize,
    pub held: Held,
    pub marks: u16,
}

pub(crate) fn empty() -> State
    ensures { result ≡ empty_state }
{
    State {
        m: 0,
        n: 0,
        held: Held::Empty,
        marks: 0,
    }
}

// The same problem, with something else held.
pub(crate) fn with_held(st: State, held: Held) -> State
    ensures { result ≡ marked_held st held }
{
    State { held, ..st }
}

// A state that knows no marks, and marks: two things, so no `From`.
pub(crate) fn marked(marks: u16, st: factor::state::State) -> State
    ensures { result ≡ marked_state marks st }
{
    State {
        m: st.m,
        n: st.n,
        held: st.held,
        marks,
    }
}

// The problem with all its columns. By name and no `From`: a problem has two states without marks, this and `reduced`.
pub(crate) fn whole(st: State) -> factor::state::State
    ensures { result ≡ whole_state st }
{
    factor::state::State {
        m: st.m,
        n: st.n,
        held: st.held,
    }
}
