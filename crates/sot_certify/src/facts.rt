//! Worked facts, proved here: what the definitions mean on small boxes.
ghost use Rattle.sot_certify.specs.Examples.{CutsAreAsStated, FindingsAreAsStated};

/// Three boxes and their halves.
pub fn cuts_are_as_stated()
    ensures { CutsAreAsStated }
{}

/// What is found in two boxes, for two notions of a good box.
pub fn findings_are_as_stated()
    ensures { FindingsAreAsStated }
{}
