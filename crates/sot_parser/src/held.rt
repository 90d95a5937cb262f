//! What was read of a construct, while the rest of it is read.
ghost use Rattle.std.specs.Prelude.{◌≡◌};

/// A part that is held over the next steps. Where one of them fails it is let go by one call, so
/// that a function which holds some is proved without the variants of what they are.
pub struct HeldPart<T: Drop>(pub T);

impl<T: Drop> Drop for HeldPart<T> {
    fn drop(self) {
        let HeldPart(_) = self;
    }
}

impl<T: Drop> HeldPart<T> {
    pub fn take(self) -> T
        ensures { result ≡ self.0 }
    {
        let HeldPart(part) = self;
        part
    }
}
