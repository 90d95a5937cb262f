//! Each of these functions does nothing, and its contract is the law.
ghost use Rattle.sot_certified_text.specs.Plain.{CanonicalTextsArePlain};
ghost use Rattle.sot_certified_text.specs.Missions.{CertificatesStandBehind};

/// The canonical text of a formed program is empty or ends with a line end, and no line of it is a
/// section line.
pub fn canonical_texts_are_plain()
    ensures { CanonicalTextsArePlain }
{}

/// A program's text, the line `%certificate` and the text of a certificate are the sections of a
/// mission, where the first is empty or ends with a line end, and no line of either is a section
/// line.
pub fn certificates_stand_behind()
    ensures { CertificatesStandBehind }
{}
