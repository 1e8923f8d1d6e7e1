// The meaning of the engine. Its definitions stand in specs/; each function here has a theorem about them as its contract.
#![tactic(auto)]

ghost use Rattle.model.specs.Grammar.{OneLine};
ghost use Rattle.model.specs.Conditions.{OneAnswer};
ghost use Rattle.model.specs.Bounds.{SmallGraphs};
ghost use Rattle.model.specs.Costs.{Costs};
ghost use Rattle.model.specs.Meaning.{Meaning, Agreement};
ghost use Rattle.model.specs.Shapes.{WellShaped, OnlyAdds};
ghost use Rattle.model.specs.Payloads.{ReadsBack, RunsBounded};
ghost use Rattle.model.specs.Promises.{Promises, Agreements};
ghost use Rattle.model.specs.Worked.{Unfinished};
ghost use Rattle.model.specs.Positions.{Positions, HeldBelow};
ghost use Rattle.model.specs.Named.{Named, WritesKeys};

// No text is that of two lines.
pub fn one_line() -> u8
    ensures { OneLine }
{
    0
}

// No text has two answers: two lines, two reasons to refuse it, or a line and a reason.
pub fn one_answer() -> u8
    ensures { OneAnswer }
{
    0
}

// Where `R(i)=A(i`, which breaks off inside an access, is at fault: at its length, since some line begins so.
pub fn worked_fault() -> usize
    ensures { Unfinished result }
{
    8
}

// The graph of an accepted line has 1024 bytes at most. Its commands name streams up to 254 only, and every operand is a byte.
pub fn graph_bounds() -> u8
    ensures { SmallGraphs }
{
    0
}

// The central theorem: the graph of an accepted line computes the dense sum of products, for every kind of value.
pub fn meaning_holds<V>() -> u8
    ensures { Meaning V }
{
    0
}

// Lines with one left side that multiply out alike list the same, whatever their loop orders, brackets and levels.
pub fn agreement_holds<V>() -> u8
    ensures { Agreement V }
{
    0
}

// Whoever answers every call as the book says keeps the promises on counting and on results.
pub fn promises_hold<V>() -> u8
    ensures { Promises V }
{
    0
}

// And two who do so agree on lines that multiply out alike.
pub fn agreements_hold<V>() -> u8
    ensures { Agreements V }
{
    0
}

// Each command of an accepted line's graph finds, at its turn, streams of the sorts, depths and shapes that it asks for.
pub fn graphs_are_well_shaped<V>() -> u8
    ensures { WellShaped V }
{
    0
}

// A run changes no stream that it has made.
pub fn runs_only_add<V>() -> u8
    ensures { OnlyAdds V }
{
    0
}

// The words of a run's tapes are read back as its tokens: payloads and depths are small, and small ones are read back.
pub fn tapes_read_back<V>() -> u8
    ensures bounded { RunsBounded V }
    ensures read { ReadsBack V }
{
    0
}

// What a command takes of the stream words and values and of the result places, from the shapes of the streams that it reads.
pub fn commands_cost<V>() -> u8
    ensures { Costs V }
{
    0
}

// Levels and values that hold a tensor have the value positions that are computed from the tensor and the levels.
pub fn held_positions<V>() -> u8
    ensures { Positions V }
{
    0
}

// And their coordinates and children are small, where the extents and the numbers of fibers and values are.
pub fn held_payloads<V>() -> u8
    ensures { HeldBelow V }
{
    0
}

// The commands of an accepted line's graph name filled slots only, and levels that their tensors have.
pub fn graphs_name_held_slots() -> u8
    ensures { Named }
{
    0
}

// Every WRITE of a line's graph has a key for each left variable.
pub fn writes_have_left_keys() -> u8
    ensures { WritesKeys }
{
    0
}
