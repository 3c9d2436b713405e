// Standard input, a line at a time, and standard output, a roomful at a time.
use crate::room::Scene;
use crate::{print, room, stage};
use leaves::sizes::filled;
use lines::part::within;
use lines::scan::Unread;
use std::io::{Read, Stdin, Stdout};
use text::put::Page;

// The place in the chunk; how many bytes of the line have come; whether there is more to read.
// A flag, since what stands in the spot is wanted after the last read too. What reads is alike in three programs: nothing can promise what
// comes from standard input, and what is public promises its answer.
#[derive(Clone, Copy)]
struct Spot {
    next: usize,
    fill: usize,
    more: bool,
}

// A write that fails is passed over.
fn write_out(screen: Stdout, page: &mut Page<'_>) {
    let at = page.at;
    let text = &*page.out;
    let k = within(text, at);
    let _ = screen.write_all(&text[..k]);
    page.at = 0;
}

// Half of the room is left for what the next item prints.
fn flush(screen: Stdout, page: &mut Page<'_>) {
    if 131072 <= page.at {
        write_out(screen, page);
    }
}

// A line that is longer than its room is not played.
fn end(screen: Stdout, line: &[u8], fill: usize, scene: &mut Scene, page: &mut Page<'_>) {
    let n = within(line, fill);
    if n < fill {
        print::unplayed(Unread::Large, page);
        return;
    }
    stage::line(&line[..n], scene, page);
    flush(screen, page);
}

fn next(
    screen: Stdout,
    chunk: &[u8],
    line: &mut [u8],
    p: Spot,
    scene: &mut Scene,
    page: &mut Page<'_>,
) -> Spot {
    let t = lines::feed::line(chunk, p.next, line, p.fill);
    if t.ended {
        end(screen, line, t.fill, scene, page);
        return Spot {
            next: t.next,
            fill: 0,
            ..p
        };
    }
    Spot {
        next: t.next,
        fill: t.fill,
        ..p
    }
}

// A chunk has no more lines than bytes.
fn feed(
    screen: Stdout,
    chunk: &[u8],
    line: &mut [u8],
    p: Spot,
    scene: &mut Scene,
    page: &mut Page<'_>,
) -> Spot {
    let mut q = Spot { next: 0, ..p };
    for _ in 0..chunk.len() {
        if chunk.len() <= q.next {
            return q;
        }
        q = next(screen, chunk, line, q, scene, page);
    }
    q
}

// One read. At the end of the input, or where a read fails, what is left of the text is written out; a last line with no end is
// not played.
fn some(
    mut input: Stdin,
    screen: Stdout,
    line: &mut [u8],
    p: Spot,
    scene: &mut Scene,
    page: &mut Page<'_>,
) -> Spot {
    let mut chunk: [u8; 65536] = filled(0);
    let n = input.read(&mut chunk).unwrap_or(0);
    if n > 0 {
        return feed(screen, &chunk[..n], line, p, scene, page);
    }
    write_out(screen, page);
    Spot { more: false, ..p }
}

// Nothing says that the input ends, so the turns are bounded by a number that no run uses up.
pub(crate) fn all(input: Stdin, screen: Stdout, line: &mut [u8], text: &mut [u8]) {
    let mut page = Page { out: text, at: 0 };
    let mut scene = room::nothing();
    let mut p = Spot {
        next: 0,
        fill: 0,
        more: true,
    };
    for _ in 0..u64::MAX {
        if !p.more {
            return;
        }
        p = some(input, screen, line, p, &mut scene, &mut page);
    }
}
