// How much work a factoring and a search are. Makes problems from a fixed seed, works on each as the mode says, and prints a checksum.
//
// Standard input is one line of four to six numbers in hex, one space apart: m, n, how many problems, the mode; then the marks of frozen
// columns, 0 where they are left out, and how many columns a problem is drawn with, of which the first n are factored, n where that is left
// out. Mode 0 makes the problems; 1 also factors; 2 also searches, with the radius a tenth of the undamped norm; 3 does what 2 does before
// its search; 4 factors and solves with the scaling as the diagonal; 5 factors and asks for the gradient; 6 factors and asks whether it is above
// zero, which the first column answers; 7 factors and packs into a room of its own; 8 does that and unpacks. `tools/speed` runs it under a
// counter of instructions beside MINPACK on the same problems.
//
// Proved: every function is safe and ends. Assumed, by std: the contracts of the C functions `read` and `write` and of the number of an
// error. They do not say which bytes come from standard input or reach standard output. The checksum is compared with the oracle's. A write
// that fails is passed over.
#![tactic(auto)]

ghost use Rattle.std.specs.Prelude.{◌≤◌, length};

mod away;
mod make;
mod play;
mod script;

use leaves::sizes::filled;
use std::io::{Read, Stdin};

// Reads until buf is full, the input ends or a read fails, and answers how many bytes came. A `while`: done grows by what each read brought,
// and is no index. In two programs, since nothing can promise what comes from standard input, and what is public promises its answer.
fn full(mut input: Stdin, buf: &mut [u8]) -> usize
    ensures { result ≤ length buf.new }
{
    let mut done: usize = 0;
    while done < buf.len() {
        match input.read(&mut buf[done..]) {
            Ok(0) => return done,
            Ok(n) => done += n,
            Err(_) => return done,
        }
    }
    done
}

fn main(rt: HostRuntime) {
    // The script and more.
    let mut text: [u8; 4096] = filled(0);
    let n = full(rt.stdin(), &mut text);
    script::run(rt.stdout(), &text[..n]);
}
