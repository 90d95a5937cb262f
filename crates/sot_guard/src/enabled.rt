//! Which nodes are enabled.

ghost use Rattle.std.specs.Prelude.{◌≡◌, length};
ghost use Rattle.sot_world.specs.Steps.{allows, allowed_by};

use sot_lang::ModuleInfo;
use sot_world::Mode;

// Whether a module in this mode lets a node publish: its advanced node in mode Ac, its safe node in
// mode Sc, and any other in both.
fn allows(info: &ModuleInfo, mode: Mode, node: u32) -> bool
    ensures { result ≡ allows info.now mode node }
{
    match mode {
        Mode::Ac => info.sc != node,
        Mode::Sc => info.ac != node,
    }
}

/// Whether a node is enabled, with the modules in these modes.
pub(crate) fn is_enabled(modules: &[ModuleInfo], modes: &[Mode], node: u32) -> bool
    requires { length modes.now ≡ length modules.now }
    ensures { result ≡ allowed_by modules.now modes.now node }
{
    for m in 0..modules.len() {
        if !allows(&modules[m], modes[m], node) {
            return false;
        }
    }
    true
}
