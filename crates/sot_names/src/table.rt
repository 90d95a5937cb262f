//! Tables by names, in which the first value of a name stays.
ghost use Rattle.std.specs.Prelude.{◌≡◌, ℕ, List, OnOk};
ghost use Rattle.std.specs.Option.{option_or};
ghost use Rattle.sot_names.specs.NameTables.{found, entry};

use crate::hasher::NameMap;
use std::alloc::AllocError;

/// Puts a name into a table with its value. A name that is there already keeps the value that it
/// has.
pub fn add_value<'p, V: Drop>(
    table: &mut NameMap<'p, V>,
    name: &'p [u8],
    value: V,
) -> Result<(), AllocError>
    ensures { OnOk result ((n : List ℕ) → found table.new n
        ≡ option_or (found table.old n) (entry name.now value n)) }
{
    let slot = table.entry(name)?;
    slot.or_insert(value);
    Ok(())
}
