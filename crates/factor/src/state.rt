// Document 01, 'Lent room and what stays in it': the state.
ghost use Rattle.std.specs.Prelude.{◌≡◌};
ghost use Rattle.factor.specs.State.{empty, with_held};

// What a store holds below its diagonal and in l_diag.
#[derive(Clone, Copy, Debug, PartialEq, Eq)]
pub enum Held {
    Empty,
    Nothing,
    Zero,
    Damped,
}

#[derive(Clone, Copy)]
pub struct State {
    pub m: usize,
    pub n: usize,
    pub held: Held,
}

pub(crate) fn empty() -> State
    ensures { result ≡ empty }
{
    State {
        m: 0,
        n: 0,
        held: Held::Empty,
    }
}

// The same problem, with something else held.
pub(crate) fn with_held(st: State, held: Held) -> State
    ensures { result ≡ with_held st held }
{
    State { held, ..st }
}
