// What the working of a sheet answers. It tells the columns: a caller need not read the head.

// What a search tells beside its step, which has a number for each of the columns.
#[derive(Clone, Copy)]
pub struct Fitted {
    pub columns: usize,
    pub lambda: f64,
    pub norm: f64,
    pub trials: usize,
    pub determined: usize,
}

// Call 2 works out its radius.
#[derive(Clone, Copy)]
pub struct Started {
    pub radius: f64,
    pub fitted: Fitted,
}

#[derive(Clone, Copy)]
pub enum Answer {
    Searched(Fitted),
    Started(Started),
}
