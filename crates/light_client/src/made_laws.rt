//! Laws of light files that are made. Each is the contract of a function that does nothing.

ghost use Rattle.light_client.specs.MadeLaws.{BlockRootsAreOfTheirBlocks, PiecesMakeTheFile};

/// A light file that is made has of each block its digest and the root at it, and of no other
/// block.
pub fn block_roots_are_of_their_blocks()
    ensures { BlockRootsAreOfTheirBlocks }
{}

/// The head and the pieces, one after another, are the whole light file.
pub fn pieces_make_the_file()
    ensures { PiecesMakeTheFile }
{}
