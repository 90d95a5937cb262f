//! A program with the certificate that shows it to be safe.

ghost use Rattle.std.specs.Prelude.{◌≡◌};
ghost use Rattle.sot_tube.specs.Certified.{IsWellCertified};

use sot_lang::{Cert, Typed};
use std::marker::Model;

/// A program that is well certified by its certificate: all conditions hold, as long as this value
/// lives.
#[derive(Drop)]
pub struct Accepted<'a> {
    program: &'a Typed,
    cert: &'a Cert,
}

impl<'a> Model for Accepted<'a> {
    ghost use Rattle.sot_tube.specs.Admitted.{Admitted};
    ghost use Rattle.sot_lang.specs.TableRules.{MeetsTableRules};
    ghost use Rattle.sot_tube.specs.Certified.{IsWellCertified};
    ghost use Rattle.sot_lang.specs.contracts.term.Term as term;
    ghost use Rattle.sot_lang.specs.contracts.act.Act as act;
    ghost use Rattle.std.specs.Coded.{codes};

    ghost Value = { Admitted };

    ghost coded = { Prim.hlevel (codes, term.the_row.coded, act.the_row.coded) };

    ghost view = { λ a. record { program = a.program.now; cert = a.cert.now } };

    ghost invariant = { λ a. MeetsTableRules a.program.now
        × IsWellCertified a.program.now a.cert.now.jitter a.cert.now };
}

impl<'a> Accepted<'a> {
    /// Tests nothing: that the conditions hold is the caller's to show.
    pub fn of(program: &'a Typed, cert: &'a Cert) -> Accepted<'a>
        requires { IsWellCertified program.now cert.now.jitter cert.now }
        ensures program { result.program ≡ program.now }
        ensures cert { result.cert ≡ cert.now }
    {
        // A look at the tables brings their rules, which their type keeps.
        let _modules = program.modules.len();
        Accepted { program, cert }
    }

    /// The program, which lives on where this value does not.
    pub fn typed(&self) -> &'a Typed
        ensures program { result.now ≡ self.now.program }
        ensures certified { IsWellCertified self.now.program self.now.cert.jitter self.now.cert }
    {
        self.program
    }

    /// The certificate, which lives on where this value does not.
    pub fn cert(&self) -> &'a Cert
        ensures cert { result.now ≡ self.now.cert }
    {
        self.cert
    }
}
