// Laws of lexing, each the contract of a function that does nothing.
ghost use Rattle.task_parser.specs.Splitting.{LexingsSplit, TokensArePlaced, SplittingsAreLexed, FaultsStop};

/// The tokens of a lexing are those into which its text splits: at each place stands a space, a comment or the longest
/// token of the table, and each token has its places and its line.
pub fn lexings_split()
    ensures { LexingsSplit }
{}

/// The tokens of a lexing stand in order. The bytes of each are a token of the table and the longest at its place, and
/// its line is one more than the number of LF bytes before it.
pub fn tokens_are_placed()
    ensures { TokensArePlaced }
{}

/// A text of at most 1,048,576 bytes that splits so to its end is lexed to the tokens of the splitting, so it has one
/// splitting alone.
pub fn splittings_are_lexed()
    ensures { SplittingsAreLexed }
{}

/// A fault of a text of at most 1,048,576 bytes is where the text can't split further. A `BadByte` stands after bytes
/// that begin a token, or are none, where no token goes on so, and no space or comment begins. A `NumberTooBig` stands
/// at the first digit of a longest token whose value is beyond the range.
pub fn faults_stop()
    ensures { FaultsStop }
{}
