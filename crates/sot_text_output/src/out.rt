//! What takes a text piece by piece.

ghost use Rattle.std.specs.Prelude.{ℕ, ◌<◌, List, ◌∷◌, ◌++◌, []};

/// What takes a text piece by piece. It never refuses one: whether all went well is asked once, of
/// the type that takes them.
pub trait Out {
    /// This text was put between two moments, and nothing else.
    ghost puts: { Self → Self → List ℕ → Type 0 };

    /// Puts a text behind what was put before.
    fn put(&mut self, text: &str)
        ensures { puts self.old self.new text.now };

    /// Puts one ASCII character behind what was put before.
    fn put_byte(&mut self, byte: u8)
        requires { byte < 128 }
        ensures { puts self.old self.new (byte ∷ []) };

    /// Nothing is put where nothing is done.
    ghost nothing: { (a : Self) → puts a a [] };

    /// What is put one after the other is put.
    ghost more: { (a b c : Self) (x y : List ℕ) → puts a b x → puts b c y → puts a c (x ++ y) };
}
