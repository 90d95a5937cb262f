//! What an input writes.

ghost use Rattle.std.specs.Prelude.{◌≡◌, ◌+◌, ◌≤◌, length};
ghost use Rattle.sot_world.specs.Steps.{write_at};

/// The numbers from the place `first` on are replaced by a value's.
pub fn write(first: usize, value: &[i64], scalars: &mut [i64])
    requires { first + length value.now ≤ length scalars.old }
    ensures { scalars.new ≡ write_at first value.now scalars.old }
{
    for i in 0..value.len() {
        scalars[first + i] = value[i];
    }
}
