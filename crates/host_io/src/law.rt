//! What holds of pieces that are put on two sinks.

ghost use Rattle.std.specs.Prelude.{List};
ghost use Rattle.host_io.specs.Prefixes.{TakesAll, TakesPrefix};
ghost use Rattle.host_io.specs.Pieces.{Piece, PutsAll, PutsPrefix, Taken, errs_of, outs_of};

/// Where two sinks have taken all of the pieces that were due, each has taken all the bytes of its
/// own pieces; and where they have taken a prefix of the pieces, each has taken a prefix of these
/// bytes.
pub fn pieces_law()
    ensures all_of_out { (old new : Taken) (pieces : List Piece) →
        PutsAll old new pieces → TakesAll old.out new.out (outs_of pieces) }
    ensures all_of_err { (old new : Taken) (pieces : List Piece) →
        PutsAll old new pieces → TakesAll old.err new.err (errs_of pieces) }
    ensures prefix_of_out { (old new : Taken) (pieces : List Piece) →
        PutsPrefix old new pieces → TakesPrefix old.out new.out (outs_of pieces) }
    ensures prefix_of_err { (old new : Taken) (pieces : List Piece) →
        PutsPrefix old new pieces → TakesPrefix old.err new.err (errs_of pieces) }
{}
