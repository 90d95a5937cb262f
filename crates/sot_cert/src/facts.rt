//! Worked certificates of the running example, as facts that the check computes from the
//! definitions.
ghost use Rattle.std.specs.Global.{Global};
ghost use Rattle.sot_cert.specs.CertExamples.{Certificates, LastOfRepeated, NoJson, Numbers, Keys};
ghost use Rattle.sot_cert.specs.CertExamples.{Jitters, CellFaults, CellLimit};

/// What texts say as certificates.
pub fn certificates_are_as_stated()
    ensures both_formats { (g : Global) → Certificates g }
    ensures repeated { (g : Global) → LastOfRepeated g }
{}

/// The first faults of texts.
pub fn faults_are_as_stated()
    ensures no_json { (g : Global) → NoJson g }
    ensures numbers { (g : Global) → Numbers g }
    ensures keys { (g : Global) → Keys g }
    ensures jitters { (g : Global) → Jitters g }
    ensures cells { (g : Global) → CellFaults g }
    ensures limit { CellLimit }
{}
