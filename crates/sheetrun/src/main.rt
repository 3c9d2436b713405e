// Many job sheets from standard input, one a line, in hex; for each what `fitstep` prints for it, then a line `.`. So the gate replays its
// stored sheets in one run.
//
// Proved: every function is safe and ends; what is printed for a sheet is `fit_lines`'s. Assumed, by std: the contracts of the C functions
// `read` and `write` and of the number of an error. They do not say which bytes come from standard input or reach standard output. That
// lines are taken apart rightly is shown by runs, not proved. A write that fails is passed over.
#![tactic(auto)]

mod feed;
mod play;

use leaves::sizes::filled;

fn main(rt: HostRuntime) {
    // Two hex digits for each byte of the longest sheet, with a surplus.
    let mut line: [u8; 65536] = filled(0);
    // Much more than a sheet's lines, so that they always fit below the mark where the text is written out.
    let mut text: [u8; 65536] = filled(0);
    feed::all(rt.stdin(), rt.stdout(), &mut line, &mut text);
}
