// Document 01's program: one job sheet from standard input, its lines on standard output.
//
// One byte more is read than the longest sheet has, 3 + 8 · (128 · 16 + 128 + 16 + 2) of them: a longer input is then refused by its length,
// as the whole of it would be (`overlong` in crates/sheet/proofs/Overlong.antt). A failed read counts as the end (D63 of docs/DECISIONS.md).
//
// Proved: it is safe and ends; what it is handed and what it prints are one equation with a definition (`fit_lines`). Assumed, by std: the
// contracts of the C functions `read` and `write` and of the number of an error. They do not say which bytes come from standard input or
// reach standard output. A write that fails is passed over.
#![tactic(auto)]

ghost use Rattle.std.specs.Prelude.{◌≤◌, length};

use leaves::sizes::filled;
use lines::part::within;
use std::io::{Read, Stdin, Stdout};

// Reads until buf is full, the input ends or a read fails, and answers how many bytes came. A `while`: done grows by what each read brought,
// and is no index. In two programs, since nothing can promise what comes from standard input, and what is public promises its answer.
fn full(mut input: Stdin, buf: &mut [u8]) -> usize
    ensures { result ≤ length buf.new }
{
    let mut done: usize = 0;
    while done < buf.len() {
        match input.read(&mut buf[done..]) {
            Ok(0) => return done,
            Ok(n) => done += n,
            Err(_) => return done,
        }
    }
    done
}

// A write that fails is passed over.
fn show(screen: Stdout, text: &[u8], n: usize) {
    let k = within(text, n);
    let _ = screen.write_all(&text[..k]);
}

fn main(rt: HostRuntime) {
    let mut room: [u8; 17556] = filled(0);
    let mut text: [u8; 1024] = filled(0);
    let n = full(rt.stdin(), &mut room);
    let k = sheet::lines::fit_lines(&room[..n], &mut text).unwrap_or(0);
    show(rt.stdout(), &text, k);
}
