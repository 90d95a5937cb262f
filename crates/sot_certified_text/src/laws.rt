//! Each of these functions does nothing, and its contract is the law.
ghost use Rattle.sot_certified_text.specs.ReadBack.{CertificatesReadBack};
ghost use Rattle.sot_certified_text.specs.Lines.{CertificateLinesArePlain};
ghost use Rattle.sot_certified_text.specs.Lines.{CertificateLinesReadBack, CertifiedTextsDivide};
ghost use Rattle.sot_certified_text.specs.Lines.{TextsWithJitterDivide};
ghost use Rattle.sot_certified_text.specs.Lines.{LineEndsChangeNoJson};
ghost use Rattle.sot_certified_text.specs.Made.{TablesHaveShortRegions};
ghost use Rattle.sot_certified_text.specs.Made.{MadeCertificatesAreWritable, CertifiedTextsSay};

/// Bytes that are the JSON of a certificate say that certificate, where its jitter is at most 999,
/// and its cells have short sides and their index.
pub fn certificates_read_back()
    ensures { CertificatesReadBack }
{}

/// The line of a certificate says that certificate, where its jitter is at most 999, and its cells
/// have short sides and their index.
pub fn certificate_lines_read_back()
    ensures { CertificateLinesReadBack }
{}

/// The line of a certificate is one line, and no section line.
pub fn certificate_lines_are_plain()
    ensures { CertificateLinesArePlain }
{}

/// The text of a certified program divides into the canonical text of the program and the line of
/// the certificate, for each formed program.
pub fn certified_texts_divide()
    ensures { CertifiedTextsDivide }
{}

/// The text of a certified program with its certificate's jitter divides into the canonical text
/// of the program and the line of the certificate, for each formed program.
pub fn texts_with_jitter_divide()
    ensures { TextsWithJitterDivide }
{}

/// JSON with a line end behind it is the same JSON.
pub fn line_ends_change_no_json()
    ensures { LineEndsChangeNoJson }
{}

/// The regions of a formed program's tables have ends from -10^12 to 10^12, and the modules' names
/// are words.
pub fn tables_have_short_regions()
    ensures { TablesHaveShortRegions }
{}

/// A text can say each certificate that is made for such regions.
pub fn made_certificates_are_writable()
    ensures { MadeCertificatesAreWritable }
{}

/// The text of a formed program with a certificate that is made for its tables divides into the
/// canonical text of the program and the line of the certificate, and that line says the
/// certificate.
pub fn certified_texts_say()
    ensures { CertifiedTextsSay }
{}
