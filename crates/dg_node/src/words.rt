// The words behind the program's own name.
ghost use Rattle.std.specs.Prelude.{◌≡◌, ◌≢◌, ◌≤◌, ◌<◌, ◌^◌, ◌++◌, ◌↔◌, ℕ, List, [], ◌∷◌, Some, IfSome, IfNone, IsTrue, MatchOption, length, map, slice_index, string_bytes, codes};
ghost use Rattle.std.specs.Fmt.{decimal};
ghost use Rattle.dg_wire.specs.Numbers.{IsPlain};
ghost use Rattle.dg_node.specs.declared.words.Command.{Command};
ghost use Rattle.dg_node.specs.Words.{IsRun, IsSized, Means, Sets, SetsBoth};

/// The greatest seed of a generated script.
const MAX_SEED: u32 = 2_147_483_647;

/// The greatest number of nodes of a generated script.
const MAX_SIZE: u32 = 10_000;

/// What the words ask for.
#[derive(Clone, Copy, Debug, PartialEq, Eq)]
pub enum Command {
    /// To answer the script of the input.
    Run,
    /// To write the script that is generated of a seed, for so many nodes.
    Gen { seed: u32, size: u32 },
    /// To answer that script, and write what it came to.
    Load { seed: u32, size: u32 },
}

/// The command that the words are, if they are one.
///
/// The first word is its name. Options follow in any order, each at most once, as `--x V` or `--x=V`; a number is decimal
/// digits without a sign or a leading zero.
pub fn command_of(words: &[String]) -> Option<Command>
    ensures { (command : Command) → (result ≡ Some command) ↔ Means command (map (λ w. string_bytes w) words.now) }
{
    if is_run(words) {
        return Some(Command::Run);
    }
    if let Some((seed, size)) = sized("gen", words) {
        return Some(Command::Gen { seed, size });
    }
    let (seed, size) = sized("load", words)?;
    Some(Command::Load { seed, size })
}

// The one word is `run`.
fn is_run(words: &[String]) -> bool
    ensures { IsTrue result ↔ IsRun (map (λ w. string_bytes w) words.now) }
{
    match words {
        [word] => word.as_str() == "run",
        _ => false,
    }
}

// The seed and the size that stand behind this name.
fn sized(name: &str, words: &[String]) -> Option<(u32, u32)>
    ensures found { IfSome result (λ p. IsSized name.now p.0 p.1 (map (λ w. string_bytes w) words.now)) }
    ensures none { IfNone result ((seed size : ℕ) → ¬ IsSized name.now seed size (map (λ w. string_bytes w) words.now)) }
{
    let options = behind_name(name, words)?;
    match seed_first(options) {
        Some(both) => Some(both),
        None => size_first(options),
    }
}

// The words behind this name.
fn behind_name<'a>(name: &str, words: &'a [String]) -> Option<&'a [String]>
    ensures found { IfSome result (λ rest. map (λ w. string_bytes w) words.now ≡ name.now ∷ map (λ w. string_bytes w) rest.now) }
    ensures none { IfNone result ((rest : List (List ℕ)) → map (λ w. string_bytes w) words.now ≢ name.now ∷ rest) }
{
    let (first, rest) = words.split_first()?;
    if first.as_str() == name {
        Some(rest)
    } else {
        None
    }
}

// The seed and then the size.
fn seed_first(options: &[String]) -> Option<(u32, u32)>
    ensures found { IfSome result (λ p. SetsBoth (codes "--seed") (decimal p.0) (codes "--size") (decimal p.1) (map (λ w. string_bytes w) options.now) × (p.0 < 2 ^ 31) × (1 ≤ p.1) × (p.1 ≤ 10000)) }
    ensures none { IfNone result ((seed size : ℕ) → seed < 2 ^ 31 → 1 ≤ size → size ≤ 10000 → ¬ SetsBoth (codes "--seed") (decimal seed) (codes "--size") (decimal size) (map (λ w. string_bytes w) options.now)) }
{
    let (seed, rest) = number_at("--seed", 0, MAX_SEED, options)?;
    let size = last_number("--size", 1, MAX_SIZE, rest)?;
    Some((seed, size))
}

// The size and then the seed.
fn size_first(options: &[String]) -> Option<(u32, u32)>
    ensures found { IfSome result (λ p. SetsBoth (codes "--size") (decimal p.1) (codes "--seed") (decimal p.0) (map (λ w. string_bytes w) options.now) × (p.0 < 2 ^ 31) × (1 ≤ p.1) × (p.1 ≤ 10000)) }
    ensures none { IfNone result ((seed size : ℕ) → seed < 2 ^ 31 → 1 ≤ size → size ≤ 10000 → ¬ SetsBoth (codes "--size") (decimal size) (codes "--seed") (decimal seed) (map (λ w. string_bytes w) options.now)) }
{
    let (size, rest) = number_at("--size", 1, MAX_SIZE, options)?;
    let seed = last_number("--seed", 0, MAX_SEED, rest)?;
    Some((seed, size))
}

// The number of an option at the front, and the words behind it.
fn number_at<'a>(
    option: &str,
    least: u32,
    most: u32,
    words: &'a [String],
) -> Option<(u32, &'a [String])>
    ensures found { IfSome result (λ p. Sets option.now (decimal p.0) (map (λ w. string_bytes w) words.now) (map (λ w. string_bytes w) p.1.now) × (least ≤ p.0) × (p.0 ≤ most)) }
    ensures none { IfNone result ((n : ℕ) (rest : List (List ℕ)) → least ≤ n → n ≤ most → ¬ Sets option.now (decimal n) (map (λ w. string_bytes w) words.now) rest) }
{
    let (value, rest) = value_at(option, words)?;
    let number = number_within(least, most, value)?;
    Some((number, rest))
}

// The number of an option that is all that the words say.
fn last_number(option: &str, least: u32, most: u32, words: &[String]) -> Option<u32>
    ensures found { IfSome result (λ n. Sets option.now (decimal n) (map (λ w. string_bytes w) words.now) [] × (least ≤ n) × (n ≤ most)) }
    ensures none { IfNone result ((n : ℕ) → least ≤ n → n ≤ most → ¬ Sets option.now (decimal n) (map (λ w. string_bytes w) words.now) []) }
{
    let (number, rest) = number_at(option, least, most, words)?;
    if rest.is_empty() { Some(number) } else { None }
}

// The value of an option at the front, and the words behind it.
fn value_at<'a>(option: &str, words: &'a [String]) -> Option<(&'a str, &'a [String])>
    ensures found { IfSome result (λ p. Sets option.now p.0.now (map (λ w. string_bytes w) words.now) (map (λ w. string_bytes w) p.1.now)) }
    ensures none { IfNone result ((value : List ℕ) (rest : List (List ℕ)) → ¬ Sets option.now value (map (λ w. string_bytes w) words.now) rest) }
{
    let (first, rest) = words.split_first()?;
    let left = behind(option, first.as_str())?;
    if !left.is_empty() {
        let value = behind("=", left)?;
        return Some((value, rest));
    }
    let (value, rest) = rest.split_first()?;
    Some((value.as_str(), rest))
}

// What is left of a text behind this front; none where it doesn't begin with it.
fn behind<'a>(front: &str, text: &'a str) -> Option<&'a str>
    ensures { MatchOption result ((rest : List ℕ) → text.now ≢ front.now ++ rest) (λ rest. text.now ≡ front.now ++ rest.now) }
{
    text.strip_prefix(front)
}

// The number that the digits spell, if it lies within these bounds.
fn number_within(least: u32, most: u32, digits: &str) -> Option<u32>
    ensures found { IfSome result (λ n. (digits.now ≡ decimal n) × (least ≤ n) × (n ≤ most)) }
    ensures none { IfNone result ((n : ℕ) → least ≤ n → n ≤ most → digits.now ≢ decimal n) }
{
    let number = number_of(digits)?;
    if least <= number && number <= most {
        Some(number)
    } else {
        None
    }
}

// The number of 32 bits that the digits spell.
fn number_of(digits: &str) -> Option<u32>
    ensures found { IfSome result (λ n. (digits.now ≡ decimal n) × (n < 2 ^ 32)) }
    ensures none { IfNone result ((n : ℕ) → n < 2 ^ 32 → digits.now ≢ decimal n) }
{
    if !is_plain(digits.as_bytes()) {
        return None;
    }
    digits.parse::<u32>().ok()
}

// Neither a sign stands in front, nor a zero before other digits.
fn is_plain(digits: &[u8]) -> bool
    ensures { IsTrue result ↔ IsPlain digits.now × (slice_index digits.now 0 ≢ 43) }
{
    match digits {
        [] => false,
        [first, rest @ ..] => *first != b'+' && (*first != b'0' || rest.is_empty()),
    }
}
