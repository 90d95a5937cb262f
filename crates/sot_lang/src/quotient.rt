//! Division that rounds down.

ghost use Rattle.std.specs.Prelude.{◌≡◌, ◌≢◌, pos};
ghost use Rattle.sot_lang.specs.Values.{floor_div};

/// The floor of a quotient: the greatest whole number that is not above it.
pub fn floor(a: i64, b: i64) -> i128
    requires { b ≢ pos 0 }
    ensures { result ≡ floor_div a b }
{
    if b > 0 {
        (a as i128).div_euclid(b as i128)
    } else {
        (-(a as i128)).div_euclid(-(b as i128))
    }
}
