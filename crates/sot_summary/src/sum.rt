//! Sums of states.

ghost use Rattle.std.specs.Prelude.{◌≡◌, pos, ◌*◌, ◌≤◌, ◌+ℤ◌, ◌≤ℤ◌, ◌^◌, length};
ghost use Rattle.sot_summary.specs.Counted.{total};

// A sum with one number more.
fn with_number(sum: i128, number: i64) -> i128
    requires low { pos 0 ≤ℤ (sum +ℤ pos (2 ^ 100)) }
    requires high { sum ≤ℤ pos (2 ^ 100) }
    ensures value { result ≡ sum +ℤ number }
    ensures low { sum ≤ℤ (result +ℤ pos (2 ^ 63)) }
    ensures high { result ≤ℤ (sum +ℤ pos (2 ^ 63)) }
{
    sum + number as i128
}

/// The sum of these numbers.
pub fn total(numbers: &[i64]) -> i128
    requires { length numbers.now ≤ 400 }
    ensures value { result ≡ total numbers.now }
    ensures low { pos 0 ≤ℤ (result +ℤ pos (2 ^ 63 * length numbers.now)) }
    ensures high { result ≤ℤ pos (2 ^ 63 * length numbers.now) }
{
    let mut sum = 0;
    for i in 0..numbers.len() {
        sum = with_number(sum, numbers[i]);
    }
    sum
}

/// The sum of two sums.
pub fn added(sum: i128, more: i128) -> i128
    requires low { pos 0 ≤ℤ (sum +ℤ pos (2 ^ 100)) }
    requires high { sum ≤ℤ pos (2 ^ 100) }
    requires more_low { pos 0 ≤ℤ (more +ℤ pos (2 ^ 100)) }
    requires more_high { more ≤ℤ pos (2 ^ 100) }
    ensures { result ≡ sum +ℤ more }
{
    sum + more
}
