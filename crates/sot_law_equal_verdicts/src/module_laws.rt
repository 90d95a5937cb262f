//! Each of these functions does nothing, and its contract is the law.

ghost use Rattle.sot_law_equal_verdicts.specs.ModuleLaws.{ModulesRunAlike, ModulesStayAlone};

/// In programs that look the same but for their modules, two modules with the same plant and the
/// same safe node run alike.
pub fn modules_run_alike()
    ensures { ModulesRunAlike }
{}

/// In programs that look the same but for their modules, of two modules with the same plant and
/// the same safe node both are alone or none is.
pub fn modules_stay_alone()
    ensures { ModulesStayAlone }
{}
