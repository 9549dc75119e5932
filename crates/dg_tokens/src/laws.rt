// What holds of tokens, whatever the value.
ghost use Rattle.std.specs.Prelude.{◌↔◌};
ghost use Rattle.std.specs.List.{Contains};
ghost use Rattle.dg_values.specs.declared.kind.Tokenizer.{Tokenizer};
ghost use Rattle.dg_values.specs.declared.value.Value.{Value};
ghost use Rattle.dg_values.specs.Ascending.{Ascends};
ghost use Rattle.dg_tokens.specs.declared.tokens.IndexToken.{IndexToken};
ghost use Rattle.dg_tokens.specs.Tokens.{tokens_of, token_cmp, IsTokenOf};

/// The tokens of a value ascend strictly, so none stands twice.
pub fn tokens_ascend()
    ensures { (tokenizer : Tokenizer) (value : Value) → Ascends token_cmp (tokens_of tokenizer value) }
{}

/// The tokens of a text by terms are exactly its longest runs, folded, those by trigrams exactly its runs of three
/// characters, and those of any other value the one that its tokenizer makes.
pub fn tokens_are_exact()
    ensures { (tokenizer : Tokenizer) (value : Value) (token : IndexToken) → Contains (tokens_of tokenizer value) token ↔ IsTokenOf tokenizer value token }
{}
