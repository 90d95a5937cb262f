//! The words of a command line.

ghost use Rattle.std.specs.Prelude.{◌≡◌, ◌≢◌, ℕ, ◌≤◌, IfOk, IsErrOf, IfErr, IsTrue, ◌↔◌};
ghost use Rattle.std.specs.Fmt.{decimal};
ghost use Rattle.sot_regions_program.specs.Words.{most_jitter, Asks};

use std::alloc::Global;

/// Why no jitter is known.
#[derive(Clone, Copy, Debug, PartialEq, Eq)]
pub enum JitterFail {
    /// The words are not in form.
    Form,
    /// Memory ran out before that was known.
    Memory,
}

// Whether a word is the decimal of a number.
fn is_decimal(alloc: Global, word: &str, number: u64) -> Result<bool, JitterFail>
    ensures is { IfOk result (λ is. IsTrue is ↔ (word.now ≡ decimal number)) }
    ensures memory { IfErr result (λ fail. fail ≡ JitterFail.Memory) }
{
    match format!(in alloc; "{number}") {
        Ok(text) => Ok(text.as_str() == word),
        Err(_) => Err(JitterFail::Memory),
    }
}

// A word that is a jitter in decimal, without zeros in front.
fn number(alloc: Global, word: &str) -> Result<u32, JitterFail>
    ensures ok { IfOk result (λ number. (number ≤ most_jitter) × (word.now ≡ decimal number)) }
    ensures form { IsErrOf result JitterFail.Form → (number : ℕ) → number ≤ most_jitter
        → word.now ≢ decimal number }
{
    let Ok(number) = word.parse::<u64>() else {
        return Err(JitterFail::Form);
    };
    if number > 999 {
        return Err(JitterFail::Form);
    }
    if is_decimal(alloc, word, number)? {
        Ok(number as u32)
    } else {
        Err(JitterFail::Form)
    }
}

/// The jitter that the words ask for: 0 where there is none, else the one word, which is a number
/// from 0 to 999 in digits without a zero in front.
pub fn jitter_of(alloc: Global, words: &[String]) -> Result<u32, JitterFail>
    ensures ok { IfOk result (λ jitter. Asks words.now jitter) }
    ensures form { IsErrOf result JitterFail.Form → (jitter : ℕ) → ¬ (Asks words.now jitter) }
{
    if words.len() == 0 {
        return Ok(0);
    }
    if words.len() != 1 {
        return Err(JitterFail::Form);
    }
    number(alloc, words[0].as_str())
}
