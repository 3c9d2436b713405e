// What a call answers, and why it answers nothing.
ghost use Rattle.std.specs.Prelude.{◌≡◌};
ghost use Rattle.leaves.specs.Reply.{refusal_number};

// Document 01, 'Refusal numbers, tested in this order', 1 to 8, and 9 of 02, #108. A refusal carries its number and no flags (02, #106).
#[derive(Clone, Copy, Debug, PartialEq, Eq)]
pub enum Refusal {
    Sheet,
    Sizes,
    Length,
    Order,
    NotHeld,
    NotFinite,
    Range,
    Overflow,
    AllFrozen,
}

impl From<Refusal> for u8 {
    ghost from_gives = { λ r n. n ≡ refusal_number r };

    fn from(r: Refusal) -> u8 {
        match r {
            Refusal::Sheet => 1,
            Refusal::Sizes => 2,
            Refusal::Length => 3,
            Refusal::Order => 4,
            Refusal::NotHeld => 5,
            Refusal::NotFinite => 6,
            Refusal::Range => 7,
            Refusal::Overflow => 8,
            Refusal::AllFrozen => 9,
        }
    }
}

// A call's answer, and the state that it hands back.
#[derive(Clone, Copy)]
pub struct Told<A, S> {
    pub answer: Result<A, Refusal>,
    pub state: S,
}
