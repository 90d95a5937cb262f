//! Worked programs that are the same, or not.
ghost use Rattle.sot_law_print_parse.specs.Examples.{PlacesDoNotCount, WordsCount};
ghost use Rattle.sot_law_print_parse.specs.Examples.{DeclarationsCount};
ghost use Rattle.sot_law_print_parse.specs.Examples.{BranchesCount, EmptyElseIsNone};

/// Worked programs: where their parts stand does not count, and all else does.
pub fn sameness_is_as_stated()
    ensures places { PlacesDoNotCount }
    ensures words { WordsCount }
    ensures declarations { DeclarationsCount }
    ensures branches { BranchesCount }
    ensures empty_else { EmptyElseIsNone }
{}
