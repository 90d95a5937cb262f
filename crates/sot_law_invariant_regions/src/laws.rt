//! What held regions are for: each of these functions does nothing, and its contract is the law.

ghost use Rattle.sot_law_invariant_regions.specs.Theorems.{CertifiedRegionsAreHeld};
ghost use Rattle.sot_law_invariant_regions.specs.Alone.{HeldRegionsStayHeld, NoneIsCertified};

/// A region with a certificate is one whose points' held tubes stay in it: with each point it
/// covers the tube of the point's cell, in which that of the point lies.
pub fn certified_regions_are_held()
    ensures { CertifiedRegionsAreHeld }
{}

/// The held tubes of a module that is alone do not turn on the regions of the program: a region
/// that is held in one program is held in each one whose module runs alike.
pub fn held_regions_stay_held()
    ensures { HeldRegionsStayHeld }
{}

/// Where no held region lies in a module's safe region, no region inside it has a certificate.
pub fn none_is_certified()
    ensures { NoneIsCertified }
{}
