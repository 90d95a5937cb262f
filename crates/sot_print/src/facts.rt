//! Worked texts.
ghost use Rattle.sot_print.specs.Examples.{Literals, Operands, Negations, CallsAndChoices, Topics};
ghost use Rattle.sot_print.specs.Examples.{Plants, Nodes, Modules};

/// Worked texts of literals and expressions.
pub fn expressions_are_as_stated()
    ensures literals { Literals }
    ensures operands { Operands }
    ensures negations { Negations }
    ensures calls { CallsAndChoices }
{}

/// Worked texts of declarations.
pub fn declarations_are_as_stated()
    ensures topics { Topics }
    ensures plants { Plants }
    ensures nodes { Nodes }
    ensures modules { Modules }
{}
