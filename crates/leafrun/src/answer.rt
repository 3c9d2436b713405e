// An answer as text.
use leaves::norm::Normed;
use leaves::reply::Refusal;
use lines::put;
use text::put::Page;

// What a leaf answered. What `Written` wrote stands beside it.
#[derive(Clone, Copy)]
pub(crate) enum Reply {
    Number(f64),
    Norm(Normed),
    Bit(bool),
    Place(usize),
    Written,
}

fn told(r: Reply, v: &[f64], page: &mut Page<'_>) {
    match r {
        Reply::Number(x) => put::double(x, page),
        Reply::Norm(t) => {
            put::double(t.value, page);
            put::number(t.seen.small as usize, page);
            put::number(t.seen.large as usize, page);
        }
        Reply::Bit(b) => put::number(b as usize, page),
        Reply::Place(i) => put::number(i, page),
        Reply::Written => put::row(v, page),
    }
}

pub(crate) fn put(r: Result<Reply, Refusal>, v: &[f64], page: &mut Page<'_>) {
    match r {
        Ok(x) => {
            page.bytes(b"ok");
            told(x, v, page);
        }
        Err(no) => put::refused(u8::from(no), page),
    }
}
