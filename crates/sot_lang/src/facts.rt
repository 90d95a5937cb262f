//! Worked values, firings and ticks, and the running example.

ghost use Rattle.std.specs.Global.{Global};
ghost use Rattle.sot_lang.specs.Examples.{QuotientsAreFloors, ZeroDivides, WideResultsTrap};
ghost use Rattle.sot_lang.specs.Examples.{Comparisons, TruthTables, Functions, Rescales};
ghost use Rattle.sot_lang.specs.Examples.{OperandsFromTheLeft, OneBranch, Calls, OtherExpressions};
ghost use Rattle.sot_lang.specs.BodyExamples.{LaterDrafts, AssignmentsAreRead, OutsideIsATrap};
ghost use Rattle.sot_lang.specs.BodyExamples.{FirstTrap, Blocks, SlowTurnsBack, ReadingsInOrder};
ghost use Rattle.sot_lang.specs.BodyExamples.{TickOfTheLine, PlantNamesInOrder, OldStateIsRead};
ghost use Rattle.sot_lang.specs.BodyExamples.{ReachOfTheLine};
ghost use Rattle.sot_lang.specs.TableRules.{MeetsTableRules};
ghost use Rattle.sot_lang.specs.CertRules.{FitsTables};
ghost use Rattle.sot_lang.specs.Line.{line, line_cert};

/// Worked values of expressions.
pub fn values_are_as_stated()
    ensures floors { QuotientsAreFloors }
    ensures zero { ZeroDivides }
    ensures wide { WideResultsTrap }
    ensures comparisons { Comparisons }
    ensures truths { TruthTables }
    ensures functions { Functions }
    ensures rescales { Rescales }
    ensures from_the_left { (g : Global) → OperandsFromTheLeft g }
    ensures one_branch { (g : Global) → OneBranch g }
    ensures calls { (g : Global) → Calls g }
    ensures others { (g : Global) → OtherExpressions g }
{}

/// Worked firings of nodes.
pub fn firings_are_as_stated()
    ensures later_drafts { (g : Global) → LaterDrafts g }
    ensures assignments { (g : Global) → AssignmentsAreRead g }
    ensures outside { (g : Global) → OutsideIsATrap g }
    ensures first_trap { (g : Global) → FirstTrap g }
    ensures blocks { (g : Global) → Blocks g }
    ensures slow { (g : Global) → SlowTurnsBack g }
    ensures readings { (g : Global) → ReadingsInOrder g }
{}

/// Worked ticks of plants.
pub fn ticks_are_as_stated()
    ensures line { (g : Global) → TickOfTheLine g }
    ensures names { (g : Global) → PlantNamesInOrder g }
    ensures old_state { (g : Global) → OldStateIsRead g }
    ensures reach { (g : Global) → ReachOfTheLine g }
{}

/// The running example meets the rules of tables, and its certificate fits it.
pub fn line_is_typed()
    ensures tables { (g : Global) → MeetsTableRules (line g) }
    ensures cert { (g : Global) → FitsTables (line g) (line_cert g) }
{}
