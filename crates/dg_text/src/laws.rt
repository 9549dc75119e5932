// What the tokens of a text are, and that what is written as tokens reads back.
ghost use Rattle.dg_text.specs.Laws.{FindsToken, FindsNone, FrontIsTokens, FrontReads, LexedIsTokens, LexedStops};
ghost use Rattle.dg_text.specs.Written.{WordsAreRead};
ghost use Rattle.dg_text.specs.Quoting.{QuotesAreWords, QuotesMeanTexts};
ghost use Rattle.dg_text.specs.SpellingLaws.{NodesReadBack, NodesAreBounded, IrisSayTheirText, IrisAreWords, NamesReadBack, NamesAreWhole, BlanksReadBack, SignsAreWords, NumbersReadBack, NumbersAreBounded, PatternsReadBack};

/// The token that is found at the front of a text is the one that starts it, and none is found exactly where none starts.
pub fn tokens_start()
    ensures found { FindsToken }
    ensures none { FindsNone }
{}

/// What is read from the front of a text are its tokens up to where none starts, for each text.
pub fn fronts_are_tokens()
    ensures exact { FrontIsTokens }
    ensures read { FrontReads }
{}

/// A text is read exactly where its tokens go to its end, and its fault is where they end before that.
pub fn texts_are_tokens()
    ensures tokens { LexedIsTokens }
    ensures fault { LexedStops }
{}

/// Words that are written with a blank behind each are read as the tokens that they are.
pub fn words_are_read()
    ensures { WordsAreRead }
{}

/// Each text can be written as a Quoted token, and this token means the text.
pub fn quotes_read_back()
    ensures word { QuotesAreWords }
    ensures meant { QuotesMeanTexts }
{}

/// What is written of a node, a name, a number or a pattern is a token that reads back as it.
pub fn spellings_read_back()
    ensures nodes { NodesReadBack }
    ensures bounded { NodesAreBounded }
    ensures said { IrisSayTheirText }
    ensures iris { IrisAreWords }
    ensures names { NamesReadBack }
    ensures whole { NamesAreWhole }
    ensures blanks { BlanksReadBack }
    ensures signs { SignsAreWords }
    ensures numbers { NumbersReadBack }
    ensures within { NumbersAreBounded }
    ensures patterns { PatternsReadBack }
{}
