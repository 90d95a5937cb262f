//! Worked expressions and statements that are the same without places, or not, and the running
//! example, which is one.
ghost use Rattle.sot_law_equal_tables.specs.Examples.{PlacesDoNotCount, OperandsCount};
ghost use Rattle.sot_law_equal_tables.specs.Examples.{TargetsCount};
ghost use Rattle.sot_law_equal_tables.specs.OneLine.{MadeTablesAreTheLine, WorkedTablesAreTheLine};

/// Worked expressions and statements of tables: where they stand does not count; operators,
/// operands and targets do.
pub fn forgetting_is_as_stated()
    ensures places { PlacesDoNotCount }
    ensures operands { OperandsCount }
    ensures targets { TargetsCount }
{}

/// The tables that are made of the program of the vehicle on a line, and those of the worked
/// mission, are the tables for which facts on runs are shown, but for the places of their
/// expressions and statements, where they lie in memory, and whether their regions have an index.
pub fn the_line_is_one()
    ensures made { MadeTablesAreTheLine }
    ensures worked { WorkedTablesAreTheLine }
{}
