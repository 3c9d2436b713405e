// How many lines of each kind were compared and how many differ, and what is printed.
use leaves::sizes::filled;
use lines::feed::Fed;
use lines::part::within;
use std::io::Stdout;
use text::put::Page;

// For the 13 leaves and, last, for lines that name none: how many were compared, then how many differ. Place 28 counts the lines named.
pub(crate) type Counts = [u64; 32];

fn count(counts: Counts, i: usize) -> u64 {
    if i < 32 { counts[i] } else { 0 }
}

fn bump(counts: Counts, i: usize) -> Counts {
    let mut c = counts;
    if i < 32 {
        c[i] = std::num::wrapping_add_u64(c[i], 1);
    }
    c
}

// A write that fails is passed over.
fn print(screen: Stdout, page: Page<'_>) {
    let Page { out, at } = page;
    let k = within(out, at);
    let _ = screen.write_all(&out[..k]);
}

fn say(line: u64, parsed: bool, page: &mut Page<'_>) {
    page.bytes(b"line ");
    page.decimal(line);
    if parsed {
        page.bytes(b" differs\n");
    } else {
        page.bytes(b" does not parse\n");
    }
}

// The first 20 lines that differ are named.
fn name(screen: Stdout, line: u64, parsed: bool, counts: Counts) -> Counts {
    if count(counts, 28) >= 20 {
        return counts;
    }
    let mut room: [u8; 128] = filled(0);
    let mut page = Page {
        out: &mut room,
        at: 0,
    };
    say(line, parsed, &mut page);
    print(screen, page);
    bump(counts, 28)
}

// same: whether the leaf's answer is the line's, None where the line does not parse.
pub(crate) fn compared(
    screen: Stdout,
    kind: usize,
    line: u64,
    same: Option<bool>,
    counts: Counts,
) -> Counts {
    let all = bump(counts, kind);
    if let Some(true) = same {
        return all;
    }
    name(
        screen,
        line,
        same.is_some(),
        bump(all, std::num::wrapping_add_usize(kind, 14)),
    )
}

// The title at a place of all titles, which stand in the order of the counts, and the place of the title after it.
fn title(at: usize, out: &mut [u8]) -> Fed {
    lines::feed::line(
        b"abs: \nis_negative: \nis_finite: \nmax: \nmin: \nsquare: \nsqrt: \ndot: \naxpy: \naxpy_zero: \nimax: \nenorm: \nsolve_upper: \nno leaf: \n",
        at,
        out,
        0,
    )
}

fn finish(screen: Stdout, compared: u64, differ: u64, page: Page<'_>) {
    let mut p = page;
    p.decimal(compared);
    p.bytes(b" compared, ");
    p.decimal(differ);
    p.bytes(b" differ\n");
    print(screen, p);
}

// The row of a kind, where lines of it came. Answers the place of the next kind's title.
fn row(screen: Stdout, at: usize, compared: u64, differ: u64) -> usize {
    let mut room: [u8; 128] = filled(0);
    let t = title(at, &mut room);
    if compared == 0 {
        return t.next;
    }
    let page = Page {
        out: &mut room,
        at: t.fill,
    };
    finish(screen, compared, differ, page);
    t.next
}

fn total(screen: Stdout, compared: u64, differ: u64) {
    let mut room: [u8; 128] = filled(0);
    let page = Page {
        out: &mut room,
        at: 0,
    };
    finish(screen, compared, differ, page);
}

// A row for each kind that came, and the sums.
pub(crate) fn report(screen: Stdout, counts: Counts) {
    let mut compared: u64 = 0;
    let mut differ: u64 = 0;
    let mut at: usize = 0;
    for k in 0..14 {
        let c = count(counts, k);
        let d = count(counts, k + 14);
        at = row(screen, at, c, d);
        compared = std::num::wrapping_add_u64(compared, c);
        differ = std::num::wrapping_add_u64(differ, d);
    }
    total(screen, compared, differ);
}
