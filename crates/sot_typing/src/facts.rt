//! Worked programs with their tables.
ghost use Rattle.std.specs.Prelude.{◌≡◌};
ghost use Rattle.sot_rules.specs.FaultlessPrograms.{the_line};
ghost use Rattle.sot_typing.specs.Examples.{line_tables, many, many_tables};
ghost use Rattle.sot_typing.specs.Resolved.{tables_of};

/// Worked programs have the tables that were computed for them by hand and by another program.
pub fn tables_are_as_stated()
    ensures line { tables_of the_line ≡ line_tables }
    ensures many { tables_of many ≡ many_tables }
{}
