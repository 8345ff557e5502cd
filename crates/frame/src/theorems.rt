// The theorems of the frames, each as the contract of a function.
ghost use Rattle.frame.specs.Theorems.{FrameIsCutOff, FrameIsUnique, FramesAreCutBack, HexIsReadBack, NumberIsReadBack, PairIsReadBack, PiecesOfInput, PiecesAreWhole};

// The frame of an admitted pair is read as that pair.
pub fn pairs_are_read_back()
    ensures { PairIsReadBack }
{}

// Bytes that are read as a pair are its frame.
pub fn frames_are_unique()
    ensures { FrameIsUnique }
{}

// A number below 2^n in size is read back from its k bytes.
pub fn numbers_are_read_back()
    ensures { NumberIsReadBack }
{}

// Bytes are read back from their hexadecimal text.
pub fn hexadecimal_text_is_read_back()
    ensures { HexIsReadBack }
{}

// Every input is cut into pieces, in one way only.
pub fn inputs_have_pieces()
    ensures { PiecesOfInput }
{}

// The pieces one behind the other are the input, and none of them is empty.
pub fn pieces_are_whole()
    ensures { PiecesAreWhole }
{}

// The frame of a pair is cut off whole, whatever is behind it.
pub fn frames_are_cut_off()
    ensures { FrameIsCutOff }
{}

// The frames of pairs one behind the other are cut back into these frames.
pub fn frames_are_cut_back()
    ensures { FramesAreCutBack }
{}
