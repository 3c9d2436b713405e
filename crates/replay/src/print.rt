// Answers and rooms as text.
use crate::reply::{After, Extra, Reply};
use crate::room::{Packed, Scene};
use calls::state::State;
use factor::state::Held;
use leaves::norm::Ranges;
use leaves::reply::Refusal;
use lines::part::within;
use lines::put::{double, number, refused, row};
use lines::scan::Unread;
use search::LMParameter;
use text::put::Page;

// Small seen, large seen.
fn flags(f: Ranges, page: &mut Page<'_>) {
    number(f.small as usize, page);
    number(f.large as usize, page);
}

fn sought(p: LMParameter, page: &mut Page<'_>) {
    double(p.lambda, page);
    double(p.dp_norm, page);
    number(p.trials, page);
}

fn values(r: Reply, page: &mut Page<'_>) {
    match r {
        Reply::Number(x) => double(x, page),
        Reply::Seen(f) => flags(f, page),
        Reply::Measured(t) => {
            double(t.value, page);
            flags(t.seen, page);
        }
        Reply::Begun(t, f) => {
            double(t.xnorm, page);
            double(t.radius, page);
            flags(f, page);
        }
        Reply::Place(k) => number(k, page),
        Reply::Sought(p, f) => {
            sought(p, page);
            flags(f, page);
        }
        Reply::Plain => {}
    }
}

// With the end of its line.
fn answer(r: Result<Reply, Refusal>, page: &mut Page<'_>) {
    match r {
        Ok(x) => {
            page.bytes(b"ok");
            values(x, page);
        }
        Err(no) => refused(u8::from(no), page),
    }
    page.bytes(b"\n");
}

// For an item that is not played. No call answers so, and it shows as a difference.
pub(crate) fn unplayed(why: Unread, page: &mut Page<'_>) {
    match why {
        Unread::Large => page.bytes(b"too large\n"),
        Unread::Bad => page.bytes(b"does not parse\n"),
    }
}

pub(crate) fn held_number(held: Held) -> usize {
    match held {
        Held::Empty => 0,
        Held::Nothing => 1,
        Held::Zero => 2,
        Held::Damped => 3,
    }
}

fn row_of_doubles(title: &[u8], v: &[f64], page: &mut Page<'_>) {
    page.bytes(title);
    row(v, page);
    page.bytes(b"\n");
}

fn numbers(v: &[usize], page: &mut Page<'_>) {
    for x in v {
        number(*x, page);
    }
}

fn row_of_numbers(title: &[u8], v: &[usize], page: &mut Page<'_>) {
    page.bytes(title);
    numbers(v, page);
    page.bytes(b"\n");
}

// Nothing where there are none.
fn marks(k: u16, page: &mut Page<'_>) {
    if k > 0 {
        number(k as usize, page);
    }
}

fn state(st: State, page: &mut Page<'_>) {
    let row = [st.m, st.n, held_number(st.held)];
    page.bytes(b"state");
    numbers(&row, page);
    marks(st.marks, page);
    page.bytes(b"\n");
}

// The lent rooms, which are exactly as long as they were lent.
fn rooms(p: &Scene, page: &mut Page<'_>) {
    let k = within(&p.store, p.lent.store);
    let o = within(&p.order, p.lent.order);
    let b = within(&p.bench, p.lent.bench);
    let u = within(&p.out, p.lent.out);
    state(p.state, page);
    row_of_doubles(b"store", &p.store[..k], page);
    row_of_numbers(b"order", &p.order[..o], page);
    row_of_doubles(b"bench", &p.bench[..b], page);
    row_of_doubles(b"out", &p.out[..u], page);
}

// A line that no oracle prints, or the lent scaling.
fn extra(x: Extra, page: &mut Page<'_>) {
    match x {
        Extra::Nothing => {}
        Extra::Differs => page.bytes(b"reader differs\n"),
        Extra::Scaling(scaling, len) => {
            let n = within(&scaling, len);
            row_of_doubles(b"scaling", &scaling[..n], page);
        }
    }
}

// What an item answered, and after a call the rooms.
pub(crate) fn item(a: After, p: &Scene, page: &mut Page<'_>) {
    let Some(reply) = a.reply else {
        return;
    };
    answer(reply, page);
    extra(a.extra, page);
    rooms(p, page);
}

// What a packing or an unpacking answered, the packed room, and the rooms.
pub(crate) fn packing(a: Result<(), Refusal>, b: Packed, p: &Scene, page: &mut Page<'_>) {
    let r = within(&b.room, b.len);
    let q = within(&b.places, b.count);
    answer(a.map(Reply::from), page);
    row_of_doubles(b"room", &b.room[..r], page);
    row_of_numbers(b"places", &b.places[..q], page);
    rooms(p, page);
}
