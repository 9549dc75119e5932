// What checking queries costs, for queries of five forms and three sizes.
mod texts;

ghost use Rattle.std.specs.Prelude.{◌≤◌, length};

use crate::bench::checking::texts::{Form, query};
use crate::bench::growth::hundredths;
use anyhow::Result;
use dg_check::{CheckFault, Plan, RegexPatterns, check};
use dg_parse::parse;
use dg_schema::{Schema, read_schema};
use std::alloc::Global;
use std::time::{Clock, Instant};

// How often a query is checked, of which the shortest time counts.
const TURNS: u32 = 5;

// Prints nanoseconds a part, and the exponent by which the time grows with the number of parts, in hundredths; or, without
// times, what is wrong with small ones.
pub(crate) fn print_forms(rt: &(impl Print + Clock), alloc: Global, timed: bool) -> Result<()> {
    let schema = declared(alloc);
    for form in [
        Form::Chain,
        Form::Back,
        Form::Cycle,
        Form::Behind,
        Form::Literals,
    ] {
        if timed {
            print_times(rt, alloc, &schema, form)?;
        } else {
            print_outcomes(rt, alloc, &schema, form)?;
        }
    }
    Ok(())
}

// The predicate with which literals are compared.
fn declared(alloc: Global) -> Schema {
    match read_schema(alloc, "age: int @index(int) .") {
        Ok(schema) => schema,
        Err(_) => Schema::new(alloc),
    }
}

// What is wrong with small queries.
fn print_outcomes(rt: &impl Print, alloc: Global, schema: &Schema, form: Form) -> Result<()> {
    for count in [1, 10, 100] {
        let text = query(alloc, form, count)?;
        let word = outcome(alloc, schema, text.as_str());
        println!(rt; "{} of {count}: {word}", form.word())?;
    }
    Ok(())
}

// What becomes of a text, in a word.
fn outcome(alloc: Global, schema: &Schema, text: &str) -> &'static str
    requires { length text.now ≤ 1048576 }
{
    let Ok(query) = parse(alloc, text) else {
        return "unread";
    };
    let mut maker = RegexPatterns::new(alloc);
    word(&check(alloc, query, schema, &mut maker))
}

// A plan or a fault, in a word.
fn word(made: &Result<Plan, CheckFault>) -> &'static str {
    match made {
        Ok(_) => "a plan",
        Err(CheckFault::VariableCycle { .. }) => "a cycle",
        Err(_) => "another fault",
    }
}

// The times of three sizes, and how they grow.
fn print_times(
    rt: &(impl Print + Clock),
    alloc: Global,
    schema: &Schema,
    form: Form,
) -> Result<()> {
    let most = form.most();
    let quarter = print_size(rt, alloc, schema, form, most / 4)?;
    print_size(rt, alloc, schema, form, most / 2)?;
    let whole = print_size(rt, alloc, schema, form, most)?;
    let exponent = hundredths(quarter, whole);
    println!(rt; "{} grow by {exponent} hundredths", form.word())?;
    Ok(())
}

// Prints one size, and gives the nanoseconds of its shortest turn.
fn print_size(
    rt: &(impl Print + Clock),
    alloc: Global,
    schema: &Schema,
    form: Form,
    count: u32,
) -> Result<u128> {
    let text = query(alloc, form, count)?;
    let taken = shortest(rt, alloc, schema, text.as_str())?;
    let each = taken / (count.max(1) as u128);
    println!(rt; "{} of {count}: {taken} ns, {each} ns each", form.word())?;
    Ok(taken)
}

// The nanoseconds of the shortest of some turns.
fn shortest(rt: &impl Clock, alloc: Global, schema: &Schema, text: &str) -> Result<u128>
    requires { length text.now ≤ 1048576 }
{
    let mut least = u128::MAX;
    for _ in 0..TURNS {
        if let Ok(query) = parse(alloc, text) {
            let mut maker = RegexPatterns::new(alloc);
            let before = Instant::now(rt)?;
            let made = check(alloc, query, schema, &mut maker);
            least = least.min(before.elapsed(rt)?.as_nanos());
            drop(made);
        }
    }
    Ok(least)
}
