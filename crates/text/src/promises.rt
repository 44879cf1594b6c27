//! What is promised of an input in pieces. There is nothing to run.

ghost use Rattle.text.specs.Runs.{AnyPieces, SomeRun};

/// LOS-3: whatever pieces an input comes in, what a run over them prints is the texts of its lines. For any
/// pieces there is a run.
pub fn input_in_any_pieces()
    ensures any { AnyPieces }
    ensures some { SomeRun }
{}
