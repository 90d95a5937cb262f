//! Each of these functions does nothing, and its contract is the law.
ghost use Rattle.sot_law_equal_tables.specs.Places.{TypingKnowsNoPlace, TablesKnowNoPlace};
ghost use Rattle.sot_law_equal_tables.specs.Places.{CertifiedAlikeButForPlaces};
ghost use Rattle.sot_law_equal_tables.specs.Places.{CertificatesAlikeButForPlaces};
ghost use Rattle.sot_law_equal_tables.specs.Places.{FormattedProgramsAreAlike};

/// A program that is the same as one that breaks no rule of typing breaks none.
pub fn typing_knows_no_place()
    ensures { TypingKnowsNoPlace }
{}

/// Programs that are the same have tables that are alike.
pub fn tables_know_no_place()
    ensures { TablesKnowNoPlace }
{}

/// Tables that are alike are well certified alike, by certificates with the same cells.
pub fn certified_alike_but_for_places()
    ensures { CertifiedAlikeButForPlaces }
{}

/// The bytes of a certificate say the same of all tables that are alike: the same contents, or the
/// same fault.
pub fn certificates_alike_but_for_places()
    ensures { CertificatesAlikeButForPlaces }
{}

/// A program and that of its canonical text: the one breaks no rule of typing where the other
/// breaks none, and their tables are alike.
pub fn formatted_programs_are_alike()
    ensures { FormattedProgramsAreAlike }
{}
