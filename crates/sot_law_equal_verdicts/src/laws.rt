//! Each of these functions does nothing, and its contract is the law.
ghost use Rattle.sot_law_equal_verdicts.specs.Laws.{AnswersAlike, CertifyAlike, FailsAlike};
ghost use Rattle.sot_law_equal_verdicts.specs.Laws.{CellsAlike, EntriesAlike, RefusalsAlike};

/// What may be answered for a table may be answered for each that looks the same: the same
/// certificate, or the same failure.
pub fn answers_are_alike()
    ensures { AnswersAlike }
{}

/// No certificate is made for one of the tables of a program where there is none for another,
/// unless memory was short.
pub fn tables_certify_alike()
    ensures { CertifyAlike }
{}

/// Why there is no certificate is one thing for all tables of a program: the same refusal, or the
/// same list with the same point.
pub fn fails_are_alike()
    ensures { FailsAlike }
{}

/// The certificates that are made for tables of one program have the same boxes as cells, in the
/// same order.
pub fn cells_are_made_alike()
    ensures { CellsAlike }
{}

/// The certificates that are made for tables of one program, and fit them, have one jitter and the
/// same entries.
pub fn entries_are_made_alike()
    ensures { EntriesAlike }
{}

/// What the checker refuses of one of the tables of a program, it refuses of each, with the same
/// evidence, by certificates that say the same.
pub fn refusals_are_alike()
    ensures { RefusalsAlike }
{}
