//! Rows of numbers, each read from the front of a text.

ghost use Rattle.std.specs.Prelude.{◌≡◌, ℕ, ◌+◌, ◌<◌, ◌≤◌, ◌^◌, length, IfOk, OnErr};
ghost use Rattle.std.specs.Option.{option_map};
ghost use Rattle.sot_trace_lines.specs.Pieces.{further_at, row_at};
ghost use Rattle.sot_trace_lines.specs.Kept.{put_one, put_all, kept_row, rest_of};
ghost use Rattle.sot_trace_lines.specs.Room.{TakesRoom, IsFull};

use crate::piece::{behind, number_at};
use std::alloc::AllocError;

/// The text behind some numbers, and whether each number so far has 64 bits.
#[derive(Clone, Copy)]
pub struct Row<'a> {
    pub whole: bool,
    pub rest: &'a [u8],
}

// Puts a number behind those of the list, and tells whether each so far has 64 bits.
fn keep(value: Option<i64>, whole: bool, numbers: &mut Vec<i64>) -> Result<bool, AllocError>
    ensures kept { IfOk result (λ kept. (numbers.new.items, kept)
        ≡ put_one (numbers.old.items, whole) value) }
    ensures room { TakesRoom 1 numbers.old numbers.new }
    ensures full { OnErr result (IsFull 1 numbers.old) }
{
    match value {
        Some(number) => {
            numbers.push(number)?;
            Ok(whole)
        }
        None => Ok(false),
    }
}

// So many numbers, each behind a comma, put behind those of the list as far as they have 64 bits.
fn further_at<'a>(
    count: usize,
    text: &'a [u8],
    whole: bool,
    numbers: &mut Vec<i64>,
) -> Result<Option<Row<'a>>, AllocError>
    ensures read { IfOk result (λ read.
        option_map (λ r. ((numbers.new.items, r.whole), r.rest.now)) read
        ≡ kept_row (numbers.old.items, whole) (further_at count text.now)) }
    ensures room { TakesRoom count numbers.old numbers.new }
    ensures full { OnErr result (IsFull count numbers.old) }
{
    let (_, mut rest) = text.split_at(0);
    let mut whole = whole;
    for _i in 0..count {
        let Some(text) = behind(rest, b",") else {
            return Ok(None);
        };
        let Some(number) = number_at(text) else {
            return Ok(None);
        };
        whole = keep(number.value, whole, numbers)?;
        rest = number.rest;
    }
    Ok(Some(Row { whole, rest }))
}

/// So many numbers with a comma between two, put behind those of the list as far as they have 64
/// bits.
#[inline(always)]
pub fn row_at<'a>(
    count: usize,
    text: &'a [u8],
    whole: bool,
    numbers: &mut Vec<i64>,
) -> Result<Option<Row<'a>>, AllocError>
    ensures read { IfOk result (λ read.
        option_map (λ r. ((numbers.new.items, r.whole), r.rest.now)) read
        ≡ kept_row (numbers.old.items, whole) (row_at count text.now)) }
    ensures room { TakesRoom count numbers.old numbers.new }
    ensures full { OnErr result (IsFull count numbers.old) }
{
    if count == 0 {
        return Ok(Some(Row { whole, rest: text }));
    }
    let Some(number) = number_at(text) else {
        return Ok(None);
    };
    let whole = keep(number.value, whole, numbers)?;
    further_at(count - 1, number.rest, whole, numbers)
}

// The text behind so many numbers, each behind a comma.
fn skip_further<'a>(count: usize, text: &'a [u8]) -> Option<&'a [u8]>
    ensures { option_map (λ rest. rest.now) result ≡ rest_of (further_at count text.now) }
{
    let (_, mut rest) = text.split_at(0);
    for _i in 0..count {
        rest = number_at(behind(rest, b",")?)?.rest;
    }
    Some(rest)
}

/// The text behind so many numbers with a comma between two.
#[inline(always)]
pub fn skip_row<'a>(count: usize, text: &'a [u8]) -> Option<&'a [u8]>
    ensures { option_map (λ rest. rest.now) result ≡ rest_of (row_at count text.now) }
{
    if count == 0 {
        return Some(text);
    }
    skip_further(count - 1, number_at(text)?.rest)
}
