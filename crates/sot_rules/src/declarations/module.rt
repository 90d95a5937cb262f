//! The faults of a module.
ghost use Rattle.std.specs.Prelude.{◌≡◌};
ghost use Rattle.sot_syntax_tree.specs.TreeViews.{module_view};
ghost use Rattle.sot_rules.specs.Faults.{least, together, module_lists};
ghost use Rattle.sot_rules.specs.Indexes.{program_in, IsIndex};
ghost use Rattle.sot_rules.specs.Groups.{nodes_faults};

use crate::declarations::range::note_times;
use crate::declarations::region::note_region;
use crate::fault::{TypeFault, TypeKind, note};
use crate::names::index::Index;
use crate::names::meaning::{is_external, is_neither, is_node, is_topic, states_of};
use sot_names::are_same;
use sot_syntax_tree::ModuleDecl;

// The two nodes of a module.
#[tactic(auto, using(crate::proofs::Least::least_append))]
fn note_nodes(index: &Index, m: &ModuleDecl, first: &mut Option<TypeFault>)
    requires { IsIndex index.now }
    ensures { first.new ≡ least first.old
        (nodes_faults (program_in index.now) (module_view m.now)) }
{
    let advanced = index.meaning(&m.ac);
    let safe = index.meaning(&m.sc);
    note(first, !is_node(advanced), m.ac.at, TypeKind::Unknown);
    note(first, !is_node(safe), m.sc.at, TypeKind::Unknown);
    note(first, is_external(safe), m.sc.at, TypeKind::KindDiffers);
    note(first, are_same(&m.ac, &m.sc), m.sc.at, TypeKind::Twice);
}

/// A module: its nodes, its period and offset, its plant and its regions.
pub fn note_module(index: &Index, m: &ModuleDecl, first: &mut Option<TypeFault>)
    requires { IsIndex index.now }
    ensures { first.new ≡ least first.old
        (together (module_lists (program_in index.now) (module_view m.now))) }
{
    note_nodes(index, m, first);
    note_times(m.period, m.offset, first);
    let plant = index.meaning(&m.plant);
    note(first, is_neither(plant), m.plant.at, TypeKind::Unknown);
    note(first, is_topic(plant), m.plant.at, TypeKind::KindDiffers);
    let states = states_of(plant);
    note_region(states, &m.safe, first);
    note_region(states, &m.safer, first);
}
