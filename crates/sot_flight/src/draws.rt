//! Numbers drawn from the words of a generator.

ghost use Rattle.std.specs.Prelude.{◌≡◌, ◌+◌, ◌<◌};
ghost use Rattle.rand_pcg.specs.Lcg.{next, state_after};
ghost use Rattle.rand_pcg.specs.Pcg.{multiplier_64, output_xsh_rr};
ghost use Rattle.sot_lang.specs.TableRules.{IsNarrow};
ghost use Rattle.sot_random_words.specs.Words.{words_from as words_from_word};
ghost use Rattle.sot_flight.specs.Draws.{drawn};
ghost use Rattle.sot_flight.specs.declared.spread.Spread.TheVariants.{Anywhere};
ghost use Rattle.sot_flight.specs.Jumps.{IsListed};

use crate::few_words::JUMPS;
use crate::spread::Spread;
use rand_core::utils::NextWord;
use rand_pcg::Pcg32;
use std::marker::Model;

/// What so many words do to the state of any generator: they multiply it, and add a multiple of the
/// generator's increment. To jump many generators by one count, both numbers are worked out once.
#[derive(Drop)]
pub(crate) struct Jump {
    given: u64,
    power: u64,
    sum: u64,
}

impl Model for Jump {
    ghost use Rattle.std.specs.Prelude.{ℕ};
    ghost use Rattle.sot_flight.specs.Jumps.{IsJump};

    ghost Value = { ℕ };

    ghost view = { λ j. j.given };

    ghost invariant = { λ j. IsJump j.given j.power j.sum };
}

impl Jump {
    /// The jump by so many words. It is read off two generators with the increment 1, one from the
    /// state 0 and one from 1.
    pub(crate) fn by(given: u64) -> Jump
        ensures { result ≡ given }
    {
        let mut none = Pcg32::from_state(0, 0);
        none.advance(given);
        let mut one = Pcg32::from_state(1, 0);
        one.advance(given);
        let sum = none.state();
        Jump {
            given,
            power: one.state().wrapping_sub(sum),
            sum,
        }
    }

    // The jump that stands at a place of the table.
    fn listed(place: usize, given: u64) -> Jump
        requires place { place < 48 }
        requires stands { IsListed place given }
        ensures { result ≡ given }
    {
        Jump {
            given,
            power: JUMPS[2 * place],
            sum: JUMPS[2 * place + 1],
        }
    }

    // This jump, and then another.
    fn then(&self, more: &Jump) -> Jump
        requires { self.now + more.now < 4096 }
        ensures { result ≡ self.now + more.now }
    {
        Jump {
            given: self.given + more.given,
            power: self.power.wrapping_mul(more.power),
            sum: self.sum.wrapping_mul(more.power).wrapping_add(more.sum),
        }
    }

    // The jump by few words, of three that the table has.
    fn short(given: u64) -> Jump
        requires { given < 4096 }
        ensures { result ≡ given }
    {
        let ones = given % 16;
        let more = given / 16 % 16;
        let most = given / 256;
        Jump::listed(ones as usize, ones)
            .then(&Jump::listed(16 + more as usize, more * 16))
            .then(&Jump::listed(32 + most as usize, most * 256))
    }

    /// Becomes the jump by so many words, if it is not that already.
    pub(crate) fn turn_to(&mut self, given: u64)
        ensures { self.new ≡ given }
    {
        if self.given != given {
            *self = Jump::by(given);
        }
    }

    // Where a generator's state is after the jump.
    fn state_from(&self, state: u64, increment: u64) -> u64
        ensures { result ≡ state_after 64 multiplier_64 increment self.now state }
    {
        state
            .wrapping_mul(self.power)
            .wrapping_add(increment.wrapping_mul(self.sum))
    }

    /// The generator with this seed on this stream, once it has given as many words as the jump is
    /// by.
    pub(crate) fn words_from(&self, seed: u64, stream: u64) -> Pcg32
        ensures { result ≡ words_from_word seed stream self.now }
    {
        let start = Pcg32::new(seed, stream);
        let state = self.state_from(start.state(), (stream << 1) | 1);
        Pcg32::from_state(state, stream)
    }
}

/// The generator with this seed on this stream, once it has given so many words.
pub(crate) fn words_from(seed: u64, stream: u64, given: u64) -> Pcg32
    ensures { result ≡ words_from_word seed stream given }
{
    if given < 4096 {
        return Jump::short(given).words_from(seed, stream);
    }
    let mut words = Pcg32::new(seed, stream);
    words.advance(given);
    words
}

// Any number of a range, as a word stands for it.
fn anywhere(word: u32, lo: i64, hi: i64) -> i64
    requires { IsNarrow lo hi }
    ensures { result ≡ drawn Anywhere (record { lo = lo; hi = hi }) word }
{
    let width = (hi - lo + 1) as u64;
    let place = u64::from(word) % width;
    lo + place as i64
}

/// The number of a range that the next word stands for.
pub(crate) fn draw(words: &mut Pcg32, spread: Spread, lo: i64, hi: i64) -> i64
    requires { IsNarrow lo hi }
    ensures value { result ≡ drawn spread (record { lo = lo; hi = hi })
        (output_xsh_rr words.old.state) }
    ensures next { words.new ≡ next 64 multiplier_64 words.old }
{
    let word = words.next_word();
    match spread {
        Spread::Anywhere => anywhere(word, lo, hi),
        Spread::Ends(_) if word % 2 == 0 => lo,
        Spread::Ends(_) => hi,
    }
}
