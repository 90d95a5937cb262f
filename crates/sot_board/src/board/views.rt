//! Views of a board.

ghost use Rattle.std.specs.Prelude.{◌≡◌, ◌<◌, length};
ghost use Rattle.sot_lists.specs.Places.{At};
ghost use Rattle.sot_lang.specs.declared.tables.NodeInfo.{NodeInfo};
ghost use Rattle.sot_lang.specs.Readings.{reading};
ghost use Rattle.sot_board.specs.Views.{IsView};

use super::Board;
use crate::inputs::Inputs;
use crate::reads::{read_counts, read_numbers};
use crate::view::View;

impl<'a> Board<'a> {
    /// What a node sees now.
    pub fn view(&self, node: u32) -> View
        requires { node < length self.now.accepted.program.nodes }
        ensures { IsView self.now.accepted.program self.now.entries self.now.position node result }
    {
        let p = self.world.typed();
        let reads = &p.nodes[node as usize].reads;
        let mut numbers = [0; 64];
        read_numbers(&self.world, reads, &mut numbers);
        let mut versions = [0; 64];
        read_counts(p, reads, &self.versions, &mut versions);
        View {
            node,
            time: self.world.time(),
            entries: self.history.len() as u32,
            count: reads.len(),
            numbers,
            versions,
            locals: self.world.locals(node),
        }
    }

    /// The numbers that a node reads, lent from the board.
    pub fn lend(&self, node: u32) -> Inputs<'_, 'a>
        requires { node < length self.now.accepted.program.nodes }
        ensures { (info : NodeInfo) → At self.now.accepted.program.nodes node info
            → result ≡ reading info self.now.position.at.scalars self.now.position.at.points }
    {
        let p = self.world.typed();
        Inputs::of(&p.nodes[node as usize].reads, &self.world)
    }
}
