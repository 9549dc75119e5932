// What holds of definitions that are added to others, and of their text.
ghost use Rattle.dg_schema.specs.Laws.{JoinsInPlace, KeepsNamesInOrder, NewerComesFirst, SchemaIsListed, StatementsAreListed, StaysDistinct};
ghost use Rattle.dg_schema.specs.Readable.{JoinsReadable, ReadsBack, ReadsReadable};

/// Where definitions are added to older ones, a name has its newer definition before its older one, names stay
/// distinct, and each stays in its place, those that are new behind them in their order.
pub fn definitions_join()
    ensures newer_first { NewerComesFirst }
    ensures distinct { StaysDistinct }
    ensures in_place { JoinsInPlace }
    ensures names { KeepsNamesInOrder }
{}

/// What is printed of definitions that can be written reads as these definitions, in ascending order of their names. All
/// that is read can be written, and so can what is joined of such.
pub fn schemas_read_back()
    ensures back { ReadsBack }
    ensures readable { ReadsReadable }
    ensures joined { JoinsReadable }
{}

/// Statements are read exactly where their tokens stand one after the other, and a text exactly where it has no token else.
pub fn statements_are_listed()
    ensures read { StatementsAreListed }
    ensures whole { SchemaIsListed }
{}
