//! The words of a bridge.

ghost use Rattle.std.specs.Prelude.{◌≡◌, ◌≢◌, ℕ, ◌≤◌, ◌↔◌, List, map, IsTrue, IfOk, IfErr, IsErrOf};
ghost use Rattle.std.specs.Fmt.{decimal};
ghost use Rattle.sot_bridge.specs.Words.{Asks};

use std::alloc::Global;

/// Why the words ask for nothing.
#[derive(Clone, Copy, Debug, PartialEq, Eq)]
pub enum DelayFail {
    /// They are not two names and a delay.
    Form,
    /// Memory ran out before that was known.
    Memory,
}

const DELAY_LIMIT: u32 = 100_000;

// Whether a word is the decimal of a number.
fn is_decimal(alloc: Global, word: &str, number: u32) -> Result<bool, DelayFail>
    ensures is { IfOk result (λ is. IsTrue is ↔ (word.now ≡ decimal number)) }
    ensures memory { IfErr result (λ fail. fail ≡ DelayFail.Memory) }
{
    match format!(in alloc; "{number}") {
        Ok(text) => Ok(text.as_str() == word),
        Err(_) => Err(DelayFail::Memory),
    }
}

// A word that is a delay in decimal, without zeros in front.
fn delay_in(alloc: Global, word: &str) -> Result<u32, DelayFail>
    ensures ok { IfOk result (λ delay. (delay ≤ 100000) × (word.now ≡ decimal delay)) }
    ensures form { IsErrOf result DelayFail.Form → (delay : ℕ) → delay ≤ 100000
        → word.now ≢ decimal delay }
{
    let Ok(delay) = word.parse::<u32>() else {
        return Err(DelayFail::Form);
    };
    if delay > DELAY_LIMIT {
        return Err(DelayFail::Form);
    }
    if is_decimal(alloc, word, delay)? {
        Ok(delay)
    } else {
        Err(DelayFail::Form)
    }
}

/// The delay that the words ask for, in ticks: the third of three words, of which the first two
/// name topics and may be any. `Form` comes exactly where they have another form.
pub fn delay_of(alloc: Global, words: &[String]) -> Result<u32, DelayFail>
    ensures ok { IfOk result (λ delay. (from : List ℕ) × (to : List ℕ)
        × Asks words.now from to delay) }
    ensures form { IsErrOf result DelayFail.Form → (from to : List ℕ) (delay : ℕ)
        → ¬ (Asks words.now from to delay) }
{
    if words.len() != 3 {
        return Err(DelayFail::Form);
    }
    let delay = delay_in(alloc, words[2].as_str())?;
    Ok(delay)
}
