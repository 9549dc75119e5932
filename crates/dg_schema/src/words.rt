// The words of the schema language.
ghost use Rattle.std.specs.Prelude.{◌≡◌, option_map};
ghost use Rattle.dg_text.specs.Tokens.{tok};
ghost use Rattle.dg_values.specs.Order.{tokenizer_rank};
ghost use Rattle.dg_schema.specs.Texts.{kind_word, tokenizer_word};
ghost use Rattle.dg_table.specs.Words.{placed};
ghost use Rattle.dg_text.specs.Words.{predicate_meant, is_whole_name, is_reserved};
ghost use Rattle.dg_schema.specs.Words.{kind_words, tokenizer_words, directive_words, kind_place, kind_of_word, tokenizer_of_word, directive_of_word, kind_meant, tokenizer_meant, directive_meant, fits_kind, default_token, is_uid};

use dg_table::{Table, rows};
use dg_text::Piece;
use dg_text::kinds::{is_a_name, is_an_at};
use dg_values::{Kind, Tokenizer};
use std::marker::Model;

/// The word of a directive.
#[derive(Clone, Copy, Debug, PartialEq, Eq)]
pub enum Directive {
    /// `@index`, with its tokenizers or without.
    Index,
    /// `@reverse`.
    Reverse,
    /// `@count`.
    Count,
    /// `@upsert`.
    Upsert,
}

// The kinds, each at the code of its word. One of them has two words.
const KINDS: [Kind; 7] = [
    Kind::Default,
    Kind::Int,
    Kind::Text,
    Kind::Bool,
    Kind::Time,
    Kind::Uid,
    Kind::Time,
];

// The tokenizers, each at the code of its word.
const TOKENIZERS: [Tokenizer; 10] = [
    Tokenizer::Exact,
    Tokenizer::Hash,
    Tokenizer::Term,
    Tokenizer::Trigram,
    Tokenizer::Int,
    Tokenizer::Bool,
    Tokenizer::Year,
    Tokenizer::Month,
    Tokenizer::Day,
    Tokenizer::Hour,
];

// The directives, each at the code of its word.
const DIRECTIVES: [Directive; 4] = [
    Directive::Index,
    Directive::Reverse,
    Directive::Count,
    Directive::Upsert,
];

/// The words of kinds, tokenizers and directives, each in a table. They take no memory.
///
/// The code of a word is the place of what it names in `KINDS`, `TOKENIZERS` or `DIRECTIVES`. For a word that is printed
/// this is the number of the variant.
#[derive(Debug, Drop)]
pub struct Words {
    kinds: Table<7>,
    tokenizers: Table<10>,
    directives: Table<4>,
}

impl Model for Words {
    ghost use Rattle.std.specs.Prelude.{◌≡◌};
    ghost use Rattle.dg_table.specs.Words.{placed};
    ghost use Rattle.dg_schema.specs.Words.{kind_words, tokenizer_words, directive_words};

    ghost Value = { Unit {0} };

    ghost view = { λ words. tt };

    ghost invariant = { λ words. (words.kinds ≡ placed 0 kind_words) × (words.tokenizers ≡ placed 0 tokenizer_words) × (words.directives ≡ placed 0 directive_words) };
}

// The words of kinds.
fn kinds() -> Table<7>
    ensures { result ≡ placed 0 kind_words }
{
    Table::new(rows! {
        "default" => 0,
        "int" => 1,
        "string" => 2,
        "bool" => 3,
        "dateTime" => 4,
        "uid" => 5,
        "datetime" => 6,
    })
    .unwrap()
}

// The words of tokenizers.
fn tokenizers() -> Table<10>
    ensures { result ≡ placed 0 tokenizer_words }
{
    Table::new(rows! {
        "exact" => 0,
        "hash" => 1,
        "term" => 2,
        "trigram" => 3,
        "int" => 4,
        "bool" => 5,
        "year" => 6,
        "month" => 7,
        "day" => 8,
        "hour" => 9,
    })
    .unwrap()
}

// The words of directives, with their `@`.
fn directives() -> Table<4>
    ensures { result ≡ placed 0 directive_words }
{
    Table::new(rows! {
        "@index" => 0,
        "@reverse" => 1,
        "@count" => 2,
        "@upsert" => 3,
    })
    .unwrap()
}

// The code of the word that a kind is printed by.
fn code_of_kind(kind: Kind) -> u16
    ensures { result ≡ kind_place kind }
{
    kind as u16
}

// The code of a tokenizer's word.
fn code_of_tokenizer(tokenizer: Tokenizer) -> u16
    ensures { result ≡ tokenizer_rank tokenizer }
{
    tokenizer as u16
}

impl Words {
    /// The words. This compares each two words of a table, so they are made once for a text.
    pub fn new() -> Words {
        Words {
            kinds: kinds(),
            tokenizers: tokenizers(),
            directives: directives(),
        }
    }

    /// The kind that a token names.
    pub fn kind_of(&self, token: &Piece) -> Option<Kind>
        ensures { result ≡ kind_meant (tok token.now) }
    {
        if is_a_name(token) {
            self.kind_named(token.text)
        } else {
            None
        }
    }

    /// The tokenizer that a token names.
    pub fn tokenizer_of(&self, token: &Piece) -> Option<Tokenizer>
        ensures { result ≡ tokenizer_meant (tok token.now) }
    {
        if is_a_name(token) {
            self.tokenizer_named(token.text)
        } else {
            None
        }
    }

    /// The directive that a token is.
    pub fn directive_of(&self, token: &Piece) -> Option<Directive>
        ensures { result ≡ directive_meant (tok token.now) }
    {
        if is_an_at(token) {
            self.directive_named(token.text)
        } else {
            None
        }
    }

    /// The word that a kind is printed by.
    pub fn kind_word(&self, kind: Kind) -> &'static str
        ensures { result.now ≡ kind_word kind }
    {
        self.kinds.name_of(code_of_kind(kind)).unwrap()
    }

    /// The word of a tokenizer.
    pub fn tokenizer_word(&self, tokenizer: Tokenizer) -> &'static str
        ensures { result.now ≡ tokenizer_word tokenizer }
    {
        self.tokenizers
            .name_of(code_of_tokenizer(tokenizer))
            .unwrap()
    }

    // The kind of a word.
    fn kind_named(&self, word: &str) -> Option<Kind>
        ensures { result ≡ kind_of_word word.now }
    {
        let code = self.kinds.find(word)?;
        KINDS.get(code as usize).copied()
    }

    // The tokenizer of a word.
    fn tokenizer_named(&self, word: &str) -> Option<Tokenizer>
        ensures { result ≡ tokenizer_of_word word.now }
    {
        let code = self.tokenizers.find(word)?;
        TOKENIZERS.get(code as usize).copied()
    }

    // The directive of a word with its `@`.
    fn directive_named(&self, word: &str) -> Option<Directive>
        ensures { result ≡ directive_of_word word.now }
    {
        let code = self.directives.find(word)?;
        DIRECTIVES.get(code as usize).copied()
    }
}

/// Whether a tokenizer is one of the kind's.
pub fn fits(kind: Kind, tokenizer: Tokenizer) -> bool
    ensures { result ≡ fits_kind kind tokenizer }
{
    match kind {
        Kind::Text => matches!(
            tokenizer,
            Tokenizer::Exact | Tokenizer::Hash | Tokenizer::Term | Tokenizer::Trigram
        ),
        Kind::Int => matches!(tokenizer, Tokenizer::Int),
        Kind::Bool => matches!(tokenizer, Tokenizer::Bool),
        Kind::Time => matches!(
            tokenizer,
            Tokenizer::Year | Tokenizer::Month | Tokenizer::Day | Tokenizer::Hour
        ),
        Kind::Default | Kind::Uid => false,
    }
}

/// The tokenizer that `@index` stands for without a list.
pub fn default_of(kind: Kind) -> Option<Tokenizer>
    ensures { result ≡ default_token kind }
{
    match kind {
        Kind::Int => Some(Tokenizer::Int),
        Kind::Bool => Some(Tokenizer::Bool),
        Kind::Time => Some(Tokenizer::Year),
        Kind::Default | Kind::Text | Kind::Uid => None,
    }
}

/// Whether the objects of the kind are nodes.
pub fn is_uid_kind(kind: Kind) -> bool
    ensures { result ≡ is_uid kind }
{
    matches!(kind, Kind::Uid)
}
