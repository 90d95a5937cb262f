//! Each of these functions does nothing, and its contract is the law.
ghost use Rattle.sot_law_equal_tables.specs.Laws.{CertificatesAlike, CertifiedAlike, VerdictsAlike};
ghost use Rattle.sot_law_equal_tables.specs.Laws.{FlightsAlike};

/// The bytes of a certificate say the same of all tables that look the same: the same contents, or
/// the same fault.
pub fn certificates_say_alike()
    ensures { CertificatesAlike }
{}

/// Tables that look the same are well certified alike, by certificates with the same cells.
pub fn tables_are_certified_alike()
    ensures { CertifiedAlike }
{}

/// No program is accepted by one of its tables and refused by another, with certificates that say
/// the same.
pub fn verdicts_are_alike()
    ensures { VerdictsAlike }
{}

/// The bytes of a flight say the same of all tables that look the same: the same flight, or the
/// same fault.
pub fn flights_say_alike()
    ensures { FlightsAlike }
{}
