// What an item answers.
use calls::state::State;
use leaves::norm::{Normed, Ranges};
use leaves::reply::{Refusal, Told};
use measures::scaling::{Scaling, Start};
use search::LMParameter;

// The values of a call.
#[derive(Clone, Copy)]
pub(crate) enum Reply {
    Plain,
    Seen(Ranges),
    Number(f64),
    Measured(Normed),
    Begun(Start, Ranges),
    Place(usize),
    Sought(LMParameter, Ranges),
}

impl From<()> for Reply {
    fn from(_none: ()) -> Reply {
        Reply::Plain
    }
}

impl From<Ranges> for Reply {
    fn from(f: Ranges) -> Reply {
        Reply::Seen(f)
    }
}

impl From<f64> for Reply {
    fn from(x: f64) -> Reply {
        Reply::Number(x)
    }
}

impl From<Normed> for Reply {
    fn from(t: Normed) -> Reply {
        Reply::Measured(t)
    }
}

impl From<usize> for Reply {
    fn from(k: usize) -> Reply {
        Reply::Place(k)
    }
}

impl From<bool> for Reply {
    fn from(yes: bool) -> Reply {
        Reply::Place(yes as usize)
    }
}

impl From<(LMParameter, Ranges)> for Reply {
    fn from((p, f): (LMParameter, Ranges)) -> Reply {
        Reply::Sought(p, f)
    }
}

impl From<Scaling> for Reply {
    fn from(r: Scaling) -> Reply {
        match r {
            Scaling::First(t, f) => Reply::Begun(t, f),
            Scaling::Later(f) => Reply::Seen(f),
        }
    }
}

// What stands between the answer and the rooms: that the reader left anything else, or the lent scaling, the first numbers of a room.
#[derive(Clone, Copy)]
pub(crate) enum Extra {
    Nothing,
    Differs,
    Scaling([f64; 64], usize),
}

// The state after an item; what it answered, where it was a call, after which the rooms are printed.
#[derive(Clone, Copy)]
pub(crate) struct After {
    pub(crate) state: State,
    pub(crate) reply: Option<Result<Reply, Refusal>>,
    pub(crate) extra: Extra,
}

pub(crate) fn quiet(state: State) -> After {
    After {
        state,
        reply: None,
        extra: Extra::Nothing,
    }
}

pub(crate) fn told_with<A>(t: Told<A, State>, extra: Extra) -> After
where
    Reply: From<A>,
{
    After {
        state: t.state,
        reply: Some(t.answer.map(Reply::from)),
        extra,
    }
}

pub(crate) fn told<A>(t: Told<A, State>) -> After
where
    Reply: From<A>,
{
    told_with(t, Extra::Nothing)
}

// A held call's answer, and whether the reader left the same.
pub(crate) fn held(t: Told<(), State>, same: bool) -> After {
    told_with(t, if same { Extra::Nothing } else { Extra::Differs })
}
