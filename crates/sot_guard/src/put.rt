//! Lists that are written whole.

ghost use Rattle.std.specs.Prelude.{◌≡◌, ℕ, true, false, length, slice_index_or};
ghost use Rattle.sot_world.specs.declared.mode.Mode.TheVariants.{Sc};

use sot_box::Point;
use sot_world::Mode;

/// These points, of which there are as many, take the place of others.
pub(crate) fn put_points(next: &[Point], points: &mut [Point])
    requires { length next.now ≡ length points.old }
    ensures { points.new ≡ next.now }
{
    for k in 0..next.len() {
        points[k] = next[k];
    }
}

/// What was trusted still is, where what was observed is inside.
pub(crate) fn is_still(trusted: bool, inside: bool) -> bool
    ensures same { inside ≡ true → result ≡ trusted }
    ensures ended { inside ≡ false → result ≡ false }
{
    if inside { trusted } else { false }
}

/// Every mode is Sc.
pub(crate) fn put_safe(modes: &mut [Mode])
    ensures safe { (m : ℕ) → slice_index_or modes.new m Sc ≡ Sc }
    ensures size { length modes.new ≡ length modes.old }
{
    for m in 0..modes.len() {
        modes[m] = Mode::Sc;
    }
}

/// Every mode is Sc, unless what was observed is inside.
pub(crate) fn put_safe_unless(inside: bool, modes: &mut [Mode])
    ensures kept { inside ≡ true → modes.new ≡ modes.old }
    ensures safe { inside ≡ false → (m : ℕ) → slice_index_or modes.new m Sc ≡ Sc }
    ensures size { length modes.new ≡ length modes.old }
{
    if !inside {
        put_safe(modes);
    }
}
