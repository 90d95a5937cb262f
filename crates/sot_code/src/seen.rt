//! What a node reads, as its caller lends it.

ghost use Rattle.std.specs.Prelude.{◌≡◌, ℕ, ◌<◌, ℤ, List, Some, length, slice_get};

/// The numbers that a node reads, in the order of its read slots.
pub trait Seen {
    ghost numbers: { Self → List ℤ };

    fn read(&self, i: usize) -> i64
        requires { i < length (numbers self.now) }
        ensures { slice_get (numbers self.now) i ≡ Some result };
}
