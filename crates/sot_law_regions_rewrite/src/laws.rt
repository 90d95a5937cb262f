//! Each of these functions does nothing, and its contract is the law.
ghost use Rattle.sot_law_regions_rewrite.specs.Laws.{ProgramsStayFormed, CanonicalTextsAreReadBack};
ghost use Rattle.sot_law_regions_rewrite.specs.Laws.{NothingElseChanges, TablesHaveTheRegions};
ghost use Rattle.sot_law_regions_rewrite.specs.Laws.{ProgramsStayFaultless};

/// A program with other regions is formed, where the program is.
pub fn programs_with_regions_stay_formed()
    ensures { ProgramsStayFormed }
{}

/// The canonical text of a program that some text spells, with other regions, is itself a text of
/// the language, and spells the same program.
pub fn canonical_texts_with_regions_are_read_back()
    ensures { CanonicalTextsAreReadBack }
{}

/// A program with other regions is the same but for `safe` and `safer` of its modules.
pub fn nothing_but_regions_changes()
    ensures { NothingElseChanges }
{}

/// The tables of a program with other regions are those of the program but for these regions.
pub fn tables_have_the_regions()
    ensures { TablesHaveTheRegions }
{}

/// A program with other regions breaks no rule of typing, where the program breaks none.
pub fn programs_with_regions_stay_faultless()
    ensures { ProgramsStayFaultless }
{}
