ghost use Rattle.pz_io.specs.Laws.{NothingIsWritten, PiecesJoin, HaltsBeforeMore, MemoryMayBeWanting};

/// How texts are written piece by piece, the contract of a function that does nothing: with no piece
/// nothing is written, a piece and what follows it are one text, and what halts in a piece, or between
/// two for want of memory, has halted in the whole.
pub fn pieces_join()
    ensures nothing { NothingIsWritten }
    ensures joins { PiecesJoin }
    ensures halts { HaltsBeforeMore }
    ensures wants { MemoryMayBeWanting }
{}
