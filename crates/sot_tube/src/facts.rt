//! Worked examples of the definitions: each of these functions does nothing, and its contract is
//! what a person worked out.

ghost use Rattle.std.specs.Global.{Global};
ghost use Rattle.sot_tube.specs.Examples.{LineIsCertified, KeptAt12, JitterIsTwice, TubesOfTheLine};
ghost use Rattle.sot_tube.specs.Examples.{CommandsAreSureOrWhole, WholeCellLeaves};
ghost use Rattle.sot_tube.specs.Examples.{WideCellLeavesAtOnce, SeenPlantsAreInHulls};
ghost use Rattle.sot_tube.specs.Examples.{OutComesBeforeTrap, UnreadPlantsAreNoPremise};
ghost use Rattle.sot_tube.specs.RefusalExamples.{WideReachIsRefused, OneClosedCellIsRefused};
ghost use Rattle.sot_tube.specs.RefusalExamples.{GapsAreRefused, LongPeriodsAreRefused};
ghost use Rattle.sot_tube.specs.RefusalExamples.{OtherOutputsAreRefused, EmptyRegionsAreRefused};
ghost use Rattle.sot_tube.specs.RefusalExamples.{SharedNodesAreRefused, SharedOutputsAreRefused};
ghost use Rattle.sot_tube.specs.RefusalExamples.{ForeignInputsAreRefused, TrapsAreRefused};
ghost use Rattle.sot_tube.specs.RefusalExamples.{ShapeIsWellFormed, CrossedNodesAreRefused};
ghost use Rattle.sot_tube.specs.RefusalExamples.{RivalsAreRefusedInOrder, OtherTopicsAreNoInputs};
ghost use Rattle.sot_tube.specs.RefusalExamples.{VerdictsAreInOrder, TrapsOfCellsAreRefused};

/// The running example is well certified; what is well formed asks for more than safety needs, and
/// no unread plant makes it hold for nothing.
pub fn line_is_certified()
    ensures line { (g : Global) → LineIsCertified g }
    ensures shapes { (g : Global) → ShapeIsWellFormed g }
    ensures unread { (g : Global) → UnreadPlantsAreNoPremise g }
{}

/// Worked tubes.
pub fn tubes_are_as_stated()
    ensures line { (g : Global) → TubesOfTheLine g }
    ensures keeps { (g : Global) → KeptAt12 g }
    ensures jitter { (g : Global) → JitterIsTwice g }
    ensures commands { (g : Global) → CommandsAreSureOrWhole g }
    ensures whole_cell { (g : Global) → WholeCellLeaves g }
    ensures wide_cell { (g : Global) → WideCellLeavesAtOnce g }
    ensures seen { (g : Global) → SeenPlantsAreInHulls g }
    ensures order { (g : Global) → OutComesBeforeTrap g }
{}

/// Worked verdicts.
pub fn refusals_are_as_stated()
    ensures reach { (g : Global) → WideReachIsRefused g }
    ensures closed { (g : Global) → OneClosedCellIsRefused g }
    ensures gaps { (g : Global) → GapsAreRefused g }
    ensures periods { (g : Global) → LongPeriodsAreRefused g }
    ensures outputs { (g : Global) → OtherOutputsAreRefused g }
    ensures empty { (g : Global) → EmptyRegionsAreRefused g }
    ensures nodes { (g : Global) → SharedNodesAreRefused g }
    ensures topics { (g : Global) → SharedOutputsAreRefused g }
    ensures inputs { (g : Global) → ForeignInputsAreRefused g }
    ensures traps { (g : Global) → TrapsAreRefused g }
    ensures crossed { (g : Global) → CrossedNodesAreRefused g }
    ensures rivals { (g : Global) → RivalsAreRefusedInOrder g }
    ensures own { (g : Global) → OtherTopicsAreNoInputs g }
    ensures order { (g : Global) → VerdictsAreInOrder g }
    ensures cells { (g : Global) → TrapsOfCellsAreRefused g }
{}
