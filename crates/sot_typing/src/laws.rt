//! The tables of a program in which no rule fails meet the rules of tables.
ghost use Rattle.sot_lang.specs.TableRules.{MeetsTableRules};
ghost use Rattle.sot_lang.specs.Tables.{Tables};
ghost use Rattle.sot_syntax_tree.specs.Trees.{Program};
ghost use Rattle.sot_rules.specs.First.{IsFaultless};
ghost use Rattle.sot_syntax_tree.specs.Formed.{IsFormed};
ghost use Rattle.sot_typing.specs.Resolved.{AreTables};

/// The tables of a program of the grammar in which no rule of typing fails satisfy what tables
/// must.
pub fn tables_meet_their_rules()
    ensures met { (p : Program) (t : Tables) → IsFormed p → IsFaultless p → AreTables p t
        → MeetsTableRules t }
{}
