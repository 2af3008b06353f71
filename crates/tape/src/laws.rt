// The laws of tapes, each the contract of a function.
ghost use Rattle.tape.specs.Kinds.{Numbered};
ghost use Rattle.tape.specs.Laws.{OneMeaning, EveryListReadsBack, WritesBack};

// The ten kinds of record have the bytes 1 to 10, each its own.
pub fn ten_kinds()
    ensures { Numbered }
{}

// Any bytes have one meaning: a list of records with their places, then a regular end or a fault.
pub fn one_meaning()
    ensures { OneMeaning }
{}

// What the writer puts down for a list of contents reads back as that list, each at its place.
pub fn reads_back()
    ensures { EveryListReadsBack }
{}

// The contents read from a regular tape are written as the same bytes.
pub fn writes_back()
    ensures { WritesBack }
{}
