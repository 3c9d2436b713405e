// Runs leaves on vectors from standard input and compares each answer with the line's own, bit for bit.
//
// A line is `op args = answer`, its words one space apart: lengths and places in capital hex without leading zeros, doubles as 16 capital
// hex digits, NaN as 7FF8000000000000. The answer is `ok` and its values, or `refused` and document 01's number. A line that
// does not parse counts as one that differs.
//
// Proved: every function is safe and ends. Assumed, by std: the contracts of the C functions `read` and `write` and of the number of an
// error. They do not say which bytes come from standard input or reach standard output. That it compares rightly is shown by runs, not
// proved. A write that fails is passed over.
#![tactic(auto)]

mod answer;
mod feed;
mod leaf;
mod tally;
mod vectors;

use leaves::sizes::filled;

fn main(rt: HostRuntime) {
    // The longest line that is read.
    let mut store: [u8; 131072] = filled(0);
    let counts = feed::all(rt.stdin(), rt.stdout(), &mut store);
    tally::report(rt.stdout(), counts);
}
