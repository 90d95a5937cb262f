//! Words of a history: an entry, or a form and a place of its list of numbers, in 64 bits.

ghost use Rattle.std.specs.Prelude.{◌≡◌, ◌+ℤ◌, ◌<◌, ◌^◌, pos, true, if◌then◌else◌};
ghost use Rattle.sot_world.specs.declared.mode.Mode.TheVariants.{Ac, Sc};
ghost use Rattle.sot_world.specs.HistoryRecords.{bit_of, near_word, far_word, flag_in, time_in};
ghost use Rattle.sot_world.specs.HistoryRecords.{index_in, number_in, there_in, place_in, mode_in};

use crate::mode::Mode;

// How much the parts of a word tell apart: three bits its form, one a flag, 18 a time, ten an
// index, eight the slots of a draft.
const FORMS: u64 = 1 << 3;

const FLAGS: u64 = 1 << 1;

const TIMES: u64 = 1 << 18;

const INDICES: u64 = 1 << 10;

const SLOTS: u64 = 1 << 8;

// What one more of a part counts in a word: of the parts behind the form and the flag.
const ONE_TIME: u64 = 1 << 4;

const ONE_INDEX: u64 = 1 << 22;

const ONE_NUMBER: u64 = 1 << 32;

const ONE_PLACE: u64 = 1 << 12;

// Numbers of 32 bits are counted from the lowest one on.
const LOWEST: i64 = -(1 << 31);

/// A word that holds an entry.
#[inline(always)]
pub(crate) fn near_word(form: u8, flag: bool, time: u32, index: u32, number: u32) -> u64
    requires form { form < 8 }
    requires time { time < 262144 }
    requires index { index < 1024 }
    ensures { result ≡ near_word form (bit_of flag) time index number }
{
    form as u64
        + FORMS
            * (flag as u64
                + FLAGS * (time as u64 + TIMES * (index as u64 + INDICES * number as u64)))
}

/// A word that holds a place.
#[inline(always)]
pub(crate) fn far_word(form: u8, flag: bool, there: u8, place: usize) -> u64
    requires form { form < 8 }
    requires place { place < 2 ^ 40 }
    ensures { result ≡ far_word form (bit_of flag) there place }
{
    form as u64 + FORMS * (flag as u64 + FLAGS * (there as u64 + SLOTS * place as u64))
}

/// A number, counted from the lowest one of 32 bits on.
#[inline(always)]
pub(crate) fn counted(number: i32) -> u32
    ensures { pos result ≡ number +ℤ pos 2147483648 }
{
    (number as i64 - LOWEST) as u32
}

/// Whether a time and an index have room in a word beside a number.
#[inline(always)]
pub(crate) fn is_near(time: u32, index: u32) -> bool
    ensures time { result ≡ true → time < 262144 }
    ensures index { result ≡ true → index < 1024 }
{
    (time as u64) < TIMES && (index as u64) < INDICES
}

/// The flag of a word.
#[inline(always)]
pub(crate) fn flag_in(word: u64) -> bool
    ensures { result ≡ flag_in word }
{
    word / FORMS % FLAGS == 1
}

/// The time of a word that holds an entry.
#[inline(always)]
pub(crate) fn time_in(word: u64) -> u32
    ensures { result ≡ time_in word }
{
    (word / ONE_TIME % TIMES) as u32
}

/// The index of a word that holds an entry.
#[inline(always)]
pub(crate) fn index_in(word: u64) -> u32
    ensures { result ≡ index_in word }
{
    (word / ONE_INDEX % INDICES) as u32
}

/// The number of a word that holds an entry.
#[inline(always)]
pub(crate) fn number_in(word: u64) -> i64
    ensures { result ≡ number_in word }
{
    (word / ONE_NUMBER) as i64 + LOWEST
}

/// The slots of a word that holds a place.
#[inline(always)]
pub(crate) fn there_in(word: u64) -> u8
    ensures { result ≡ there_in word }
{
    (word / ONE_TIME % SLOTS) as u8
}

/// The place that a word holds.
#[inline(always)]
pub(crate) fn place_in(word: u64) -> usize
    ensures { result ≡ place_in word }
{
    (word / ONE_PLACE) as usize
}

/// The flag of a mode.
#[inline(always)]
pub(crate) fn is_advanced(mode: Mode) -> bool
    ensures { (if result then Ac else Sc) ≡ mode }
{
    match mode {
        Mode::Ac => true,
        Mode::Sc => false,
    }
}

/// The mode of a word.
#[inline(always)]
pub(crate) fn mode_in(word: u64) -> Mode
    ensures { result ≡ mode_in word }
{
    if flag_in(word) { Mode::Ac } else { Mode::Sc }
}
