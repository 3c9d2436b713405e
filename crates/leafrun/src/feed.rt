// Standard input, a line at a time.
use crate::tally::Counts;
use crate::vectors::Answer;
use crate::{answer, leaf, tally};
use leaves::sizes::filled;
use lines::part::within;
use lines::scan::byte;
use std::io::{Read, Stdin, Stdout};
use std::num::wrapping_add_usize;
use text::put::Page;

// The place in the chunk; how many bytes of the line have come; the line's number; the counts; whether there is more to read.
// A flag, since what stands in the spot is wanted after the last read too. What reads is alike in three programs: nothing can promise what
// comes from standard input, and what is public promises its answer.
#[derive(Clone, Copy)]
struct Spot {
    next: usize,
    fill: usize,
    line: u64,
    counts: Counts,
    more: bool,
}

// `= ` stands after the words that the leaf read.
fn marked(s: &[u8], next: usize) -> bool {
    if byte(s, next) != b'=' {
        return false;
    }
    byte(s, wrapping_add_usize(next, 1)) == b' '
}

// Whether s has the first len bytes of t from `from` on, and nothing more.
fn same(s: &[u8], from: usize, t: &[u8], len: usize) -> bool {
    if s.len() != wrapping_add_usize(from, len) {
        return false;
    }
    for i in 0..len {
        if byte(s, wrapping_add_usize(from, i)) != byte(t, i) {
            return false;
        }
    }
    true
}

// Whether the line's own answer is the leaf's.
fn agrees(s: &[u8], a: Answer, cells: &[f64]) -> bool {
    let mut out: [u8; 8192] = filled(0);
    let n = within(cells, a.len);
    let mut page = Page {
        out: &mut out,
        at: 0,
    };
    answer::put(a.reply, &cells[..n], &mut page);
    let len = page.at;
    same(s, wrapping_add_usize(a.next, 2), &out, len)
}

// None where the line does not parse.
fn verdict(s: &[u8]) -> Option<bool> {
    let mut cells: [f64; 4096] = filled(0.0);
    let a = leaf::run(s, &mut cells)?;
    if marked(s, a.next) {
        return Some(agrees(s, a, &cells));
    }
    None
}

fn compare(screen: Stdout, s: &[u8], line: u64, counts: Counts) -> Counts {
    tally::compared(screen, leaf::kind(byte(s, 0)), line, verdict(s), counts)
}

// The line that the store holds. One that is longer than the store does not parse.
fn end(screen: Stdout, store: &[u8], fill: usize, line: u64, counts: Counts) -> Counts {
    let n = within(store, fill);
    if n < fill {
        return tally::compared(screen, 13, line, None, counts);
    }
    compare(screen, &store[..n], line, counts)
}

fn next(screen: Stdout, chunk: &[u8], store: &mut [u8], p: Spot) -> Spot {
    let t = lines::feed::line(chunk, p.next, store, p.fill);
    if t.ended {
        return Spot {
            next: t.next,
            fill: 0,
            line: std::num::wrapping_add_u64(p.line, 1),
            counts: end(screen, store, t.fill, p.line, p.counts),
            ..p
        };
    }
    Spot {
        next: t.next,
        fill: t.fill,
        ..p
    }
}

// A chunk has no more lines than bytes.
fn feed(screen: Stdout, chunk: &[u8], store: &mut [u8], p: Spot) -> Spot {
    let mut q = Spot { next: 0, ..p };
    for _ in 0..chunk.len() {
        if chunk.len() <= q.next {
            return q;
        }
        q = next(screen, chunk, store, q);
    }
    q
}

// At the end of the input: a read that failed counts as a line that does not parse, and a last line may have no end.
fn last(screen: Stdout, read: bool, store: &[u8], p: Spot) -> Counts {
    let failed = if read {
        p.counts
    } else {
        tally::compared(screen, 13, p.line, None, p.counts)
    };
    if p.fill == 0 {
        return failed;
    }
    end(screen, store, p.fill, p.line, failed)
}

// One read.
fn some(mut input: Stdin, screen: Stdout, store: &mut [u8], p: Spot) -> Spot {
    let mut chunk: [u8; 65536] = filled(0);
    let counts = match input.read(&mut chunk) {
        Ok(0) => last(screen, true, store, p),
        Ok(n) => return feed(screen, &chunk[..n], store, p),
        Err(_) => last(screen, false, store, p),
    };
    Spot {
        next: 0,
        fill: 0,
        counts,
        more: false,
        ..p
    }
}

// Nothing says that the input ends, so the turns are bounded by a number that no run uses up.
pub(crate) fn all(input: Stdin, screen: Stdout, store: &mut [u8]) -> Counts {
    let mut p = Spot {
        next: 0,
        fill: 0,
        line: 1,
        counts: filled(0),
        more: true,
    };
    for _ in 0..u64::MAX {
        if !p.more {
            return p.counts;
        }
        p = some(input, screen, store, p);
    }
    p.counts
}
