// From n columns to the free ones, and back.
ghost use Rattle.std.specs.Prelude.{◌≡◌};
ghost use Rattle.leaves.specs.Reply.{reply_of};
ghost use Rattle.frozen.specs.Moved.{gather_call, merge_call};

use crate::marks::{free_count, next_of};
use leaves::reply::Refusal;

// The numbers of the free columns, one after the other.
//
// src: a number for each of n columns, only read. dst: on exit those of the free columns, its surplus as it was.
// Refused 3 where src has fewer than n numbers, or dst fewer than there are free columns; dst is then as it was.
pub fn gather_free(n: usize, marks: u16, src: &[f64], dst: &mut [f64]) -> Result<(), Refusal>
    ensures { (reply_of result, dst.new) ≡ gather_call n marks src.now dst.old }
{
    if src.len() < n {
        return Err(Refusal::Length);
    }
    if dst.len() < free_count(n, marks) {
        return Err(Refusal::Length);
    }
    let mut x = marks as u32;
    let mut j = 0;
    for k in 0..n {
        if x < 32768 {
            dst[j] = src[k];
            j += 1;
        }
        x = next_of(x);
    }
    Ok(())
}

// Numbers of the free columns to their places; at a frozen column stays what stood there.
//
// src: a number for each free column, only read. dst: a place for each of n columns, its surplus as it was.
// Refused 3 where dst has fewer than n numbers, or src fewer than there are free columns; dst is then as it was.
pub fn merge_into(n: usize, marks: u16, src: &[f64], dst: &mut [f64]) -> Result<(), Refusal>
    ensures { (reply_of result, dst.new) ≡ merge_call n marks src.now dst.old }
{
    if dst.len() < n {
        return Err(Refusal::Length);
    }
    if src.len() < free_count(n, marks) {
        return Err(Refusal::Length);
    }
    let mut x = marks as u32;
    let mut j = 0;
    for k in 0..n {
        if x < 32768 {
            dst[k] = src[j];
            j += 1;
        }
        x = next_of(x);
    }
    Ok(())
}
