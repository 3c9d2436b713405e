// The line that says what to do.
use crate::make::first_seed;
use crate::play::{Tally, Task, all};
use leaves::sizes::filled;
use lines::scan::{Number, byte, word};
use std::io::Stdout;
use text::double::bits_of;
use text::put::Page;

// A write that fails is passed over.
fn print(screen: Stdout, sum: f64) {
    // Sixteen digits and a line feed.
    let mut line: [u8; 17] = filled(b'\n');
    let mut page = Page {
        out: &mut line,
        at: 0,
    };
    page.word(bits_of(sum));
    let _ = screen.write_all(&line);
}

// A word that may be left out.
fn more(s: &[u8], before: Number, otherwise: u64) -> Option<Number> {
    let b = byte(s, before.next);
    let ended = (b == 0) | (b == b'\n');
    if !ended {
        return word(s, before.next);
    }
    Some(Number {
        value: otherwise,
        ..before
    })
}

fn task(s: &[u8]) -> Option<Task> {
    let m = word(s, 0)?;
    let n = word(s, m.next)?;
    let count = word(s, n.next)?;
    let mode = word(s, count.next)?;
    let marks = more(s, mode, 0)?;
    let drawn = more(s, marks, n.value)?;
    Some(Task {
        m: m.value as usize,
        n: n.value as usize,
        drawn: drawn.value as usize,
        marks: u16::try_from(marks.value).ok()?,
        mode: mode.value as usize,
        count: count.value as usize,
    })
}

pub(crate) fn run(screen: Stdout, s: &[u8]) {
    let Some(t) = task(s) else {
        let _ = screen.write_all(b"does not parse\n");
        return;
    };
    let start = Tally {
        seed: first_seed(),
        sum: 0.0,
    };
    print(screen, all(t, start));
}
