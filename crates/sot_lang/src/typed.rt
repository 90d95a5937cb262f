//! The tables of a program together, with the rules that they keep.

use crate::tables::{ModuleInfo, NodeInfo, PlantInfo, ScalarInfo, TopicInfo};
use std::marker::Model;

/// A program's tables. Topics, scalars, plants, nodes and modules are named by their places here,
/// in declared order.
pub struct Typed {
    pub topics: Vec<TopicInfo>,
    pub scalars: Vec<ScalarInfo>,
    pub plants: Vec<PlantInfo>,
    pub nodes: Vec<NodeInfo>,
    pub modules: Vec<ModuleInfo>,
}

impl Drop for Typed {
    fn drop(self) {
        let Typed {
            topics: _,
            scalars: _,
            plants: _,
            nodes: _,
            modules: _,
        } = self;
    }
}

impl Model for Typed {
    ghost use Rattle.sot_lang.specs.contracts.term.Term as term;
    ghost use Rattle.sot_lang.specs.contracts.act.Act as act;
    ghost use Rattle.std.specs.Coded.{codes};
    ghost use Rattle.sot_lang.specs.Tables.{Tables};

    ghost Value = { Tables };

    ghost coded = { Prim.hlevel (codes, term.the_row.coded, act.the_row.coded) };

    ghost use Rattle.sot_lang.specs.TableRules.{MeetsTableRules};
    ghost use Rattle.sot_lang.specs.TypedView.{tables};

    ghost view = { tables };

    ghost invariant = { λ t. MeetsTableRules (tables t) };
}
