// Plays scripted calls from standard input and prints each answer with the whole lent room, bit for bit.
//
// A script is one item a line, its words one space apart: a letter, then lengths, places and numbers in hex, doubles as 16 hex
// digits. `R` lends rooms filled with junk, `T`, `O` and `W` meddle with the state, the order list and the store, `X` exchanges the
// lent problem with one of two that are put aside, `J` lends one of three packed rooms, `V` and `Y` meddle with its doubles and places,
// `.` ends a case, and every other letter is a call. After a call stand its answer, the state, the store, the order list, the bench and the
// output; a packing and an unpacking have the packed room after the answer. A held call is played through the reader as well, with a copy of the output; where that leaves anything else, `reader differs` stands
// after the answer. An item that does not fit this program's rooms prints `too large`, one that cannot be read `does not parse`.
#![tactic(auto)]

mod away;
mod beside;
mod call;
mod feed;
mod item;
mod junk;
mod pack;
mod print;
mod reply;
mod rescale;
mod room;
mod stage;

use leaves::sizes::filled;

fn main(rt: HostRuntime) {
    // A factoring's line has 17 bytes for each of 2,176 numbers.
    let mut line: [u8; 65536] = filled(0);
    // More than twice what one call prints, so that one more always fits below the mark where the text is written out.
    let mut text: [u8; 262144] = filled(0);
    feed::all(rt.stdin(), rt.stdout(), &mut line, &mut text);
}
