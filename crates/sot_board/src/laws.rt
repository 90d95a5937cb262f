//! Laws on views.

ghost use Rattle.sot_board.specs.Laws.{ViewsStay, CodeRunsOnViews, CodeRunsOnInputs};

/// A view of a board was taken from any later state of the board, so what the code gives on it may
/// be handed to `commit_code`.
pub fn views_stay()
    ensures { ViewsStay }
{}

/// The code of a coded node does not trap on a view of the node.
pub fn code_runs_on_views()
    ensures { CodeRunsOnViews }
{}

/// The code of a coded node does not trap on the present numbers, as a board lends them, with the
/// locals of now.
pub fn code_runs_on_inputs()
    ensures { CodeRunsOnInputs }
{}
