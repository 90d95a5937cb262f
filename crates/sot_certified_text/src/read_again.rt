//! Each of these functions does nothing, and its contract is the law.
ghost use Rattle.sot_certified_text.specs.ReadAgain.{WrittenTextsHaveNoFault};
ghost use Rattle.sot_certified_text.specs.ReadAgain.{WrittenMissionsAreCertified};
ghost use Rattle.sot_certified_text.specs.ReadAgain.{WrittenMissionsAreNotRefused};
ghost use Rattle.sot_certified_text.specs.ReadAgain.{MadeCertificatesAreForPrograms};
ghost use Rattle.sot_certified_text.specs.ReadAgain.{TextsWithJitterHaveNoFault};
ghost use Rattle.sot_certified_text.specs.ReadAgain.{MissionsWithJitterAreCertified};
ghost use Rattle.sot_certified_text.specs.ReadAgain.{MissionsWithJitterAreNotRefused};

/// The text of a program with a certificate for its tables, and with the certificate's jitter, has
/// no fault: not of its sections, nor of syntax, typing or the certificate.
pub fn texts_with_jitter_have_no_fault()
    ensures { TextsWithJitterHaveNoFault }
{}

/// Each mission that such a text spells has the same program and a certificate that says the same,
/// and is well certified at its own jitter.
pub fn missions_with_jitter_are_certified()
    ensures { MissionsWithJitterAreCertified }
{}

/// A checker refuses none of these missions.
pub fn missions_with_jitter_are_not_refused()
    ensures { MissionsWithJitterAreNotRefused }
{}

/// A certificate that `certify` makes for a program is one for that program.
pub fn made_certificates_are_for_programs()
    ensures { MadeCertificatesAreForPrograms }
{}

/// The text of a program with a certificate that is made for its tables has no fault: not of its
/// sections, nor of syntax, typing or the certificate.
pub fn written_texts_have_no_fault()
    ensures { WrittenTextsHaveNoFault }
{}

/// Each mission that such a text spells is well certified, and its program is the same.
pub fn written_missions_are_certified()
    ensures { WrittenMissionsAreCertified }
{}

/// A checker refuses none of these missions.
pub fn written_missions_are_not_refused()
    ensures { WrittenMissionsAreNotRefused }
{}
