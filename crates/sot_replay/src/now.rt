//! Whether a line names the present time.

ghost use Rattle.std.specs.Prelude.{◌≡◌, ℕ, pos, IsTrue, ◌↔◌};
ghost use Rattle.sot_trace_lines.specs.Shown.{Reads};

/// Whether a time that was read, and is none where it has more than 64 bits, is this one.
pub fn is_now(time: Option<i64>, now: u32) -> bool
    ensures { (t : ℕ) → Reads time (pos t) → IsTrue result ↔ (t ≡ now) }
{
    match time {
        Some(time) => time == i64::from(now),
        None => false,
    }
}
