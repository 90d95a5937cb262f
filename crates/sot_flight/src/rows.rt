//! Rows that are stated one after another, of which the last one stays.

ghost use Rattle.std.specs.Prelude.{◌≡◌, ◌≢◌, [], map};
ghost use Rattle.sot_flight.specs.Stated.{row_at};

/// The row of that number, and past the last row that one again.
pub(crate) fn row_of<T>(rows: &Vec<Vec<T>>, number: u32) -> &[T]
    requires { rows.now.items ≢ [] }
    ensures { result.now ≡ row_at (map (λ row. row.items) rows.now.items) number }
{
    let last = rows.len() - 1;
    let number = number as usize;
    if number < last {
        &rows[number]
    } else {
        &rows[last]
    }
}
