//! What is promised of an input in pieces, of which the lines are answered. There is nothing to run.

ghost use Rattle.replies.specs.Output.{OutputOfAnyPieces};

/// LOS-3: whatever pieces an input comes in, what a run over them prints is the answers of its lines.
pub fn output_of_any_pieces()
    ensures { OutputOfAnyPieces }
{}
