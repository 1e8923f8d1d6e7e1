// The worked pieces: small cases on which the definitions are tried. Each function's contract is a theorem.
#![tactic(auto)]

ghost use Rattle.pieces.specs.Pieces.{Tapes, EmptySums, NoTime, Accepted, Graph, Reads35, Fits40, MultiplyAlike};

// Everything that computes from the definitions alone.
pub fn worked_pieces_hold<V>() -> u8
    ensures tapes { Tapes }
    ensures empty_sums { EmptySums V }
    ensures no_time { NoTime }
    ensures accepted { Accepted }
    ensures graph { Graph }
    ensures reads { Reads35 }
    ensures fits { Fits40 }
    ensures alike { MultiplyAlike }
{
    0
}
