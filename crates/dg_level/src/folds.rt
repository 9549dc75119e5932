// What aggregates give of each variable, found once for all of them.
ghost use Rattle.std.specs.Prelude.{◌≡◌, ℕ, ◌≤◌, [], List, length, map, flat_map, option_copied, reverse, unsigned_abs, IfOk, IfSome, IfNone};
ghost use Rattle.dg_values.specs.Ascending.{ascending};
ghost use Rattle.dg_values.specs.Order.{value_cmp};
ghost use Rattle.dg_level.specs.Aggregates.{values_of, number_in, sum_of};
ghost use Rattle.dg_level.specs.Folded.{found_in, found_of};
ghost use Rattle.dg_level.specs.Lists.{first_value};
ghost use Rattle.dg_level.specs.PlannedAggregates.{lesser, greater};

use dg_check::{Variable, Vars};
use dg_values::{Mem, OutOfMemory, Value, cmp_value};
use std::alloc::Global;
use std::cmp::Ordering;
use std::marker::Model;

/// What aggregates give of the values of one variable.
#[derive(Drop)]
pub struct Found {
    /// The least value, if there are any.
    pub least: Option<Value>,
    /// The greatest one.
    pub greatest: Option<Value>,
    /// The sum of those that are numbers.
    pub sum: i128,
}

/// Variables, with what aggregates give of each. Contracts see the variables.
#[derive(Drop)]
pub struct Folds<'a> {
    vars: &'a Vars,
    found: Vec<Found>,
}

impl<'a> Model for Folds<'a> {
    ghost use Rattle.std.specs.Prelude.{◌≡◌, List, map};
    ghost use Rattle.dg_check.specs.declared.vars.Variable.{Variable};
    ghost use Rattle.dg_level.specs.Folded.{found_of};

    ghost Value = { List Variable };

    ghost view = { λ folds. folds.vars.now.variables };

    ghost invariant = { λ folds. folds.found.items ≡ map found_of folds.vars.now.variables };
}

impl<'a> Folds<'a> {
    /// These variables. Each value is looked at once. The error is want of memory.
    pub fn of(alloc: Global, vars: &'a Vars) -> Mem<Folds<'a>>
        ensures { IfOk result (λ folds. folds ≡ vars.now.variables) }
    {
        let found = all_found(alloc, vars.variables.as_slice())?;
        Ok(Folds { vars, found })
    }

    /// What aggregates give of the variable at a place; none where there is no such variable.
    pub fn at(&self, place: usize) -> Option<&Found>
        ensures some { IfSome result (λ found. found.now ≡ found_in (values_of self.now place)) }
        ensures none { IfNone result (values_of self.now place ≡ []) }
    {
        self.found.as_slice().get(place)
    }
}

// What aggregates give of each variable.
fn all_found(alloc: Global, variables: &[Variable]) -> Mem<Vec<Found>>
    ensures { IfOk result (λ all. all.items ≡ map found_of variables.now) }
{
    let mut all = Vec::with_capacity(alloc, variables.len())?;
    for variable in variables {
        all.push(found_in(alloc, variable.values.as_slice())?)?;
    }
    Ok(all)
}

// What they give of values.
fn found_in(alloc: Global, values: &[Value]) -> Mem<Found>
    ensures { IfOk result (λ found. found ≡ found_in values.now) }
{
    let least = copied(alloc, least(values))?;
    let greatest = copied(alloc, greatest(values))?;
    let sum = sum_of(values);
    Ok(Found {
        least,
        greatest,
        sum,
    })
}

// An equal value, where there is one.
fn copied(alloc: Global, value: Option<&Value>) -> Mem<Option<Value>>
    ensures { IfOk result (λ copied. copied ≡ option_copied value.entry) }
{
    match value {
        None => Ok(None),
        Some(value) => Ok(Some(value.copy(alloc)?)),
    }
}

// The lesser of two values, of which the first may be missing.
fn lesser<'a>(least: Option<&'a Value>, value: &'a Value) -> &'a Value
    ensures { result.now ≡ lesser (option_copied least.entry) value.now }
{
    match least {
        Some(least) if cmp_value(value, least) != Ordering::Less => least,
        _ => value,
    }
}

// The least of values, if there are any.
fn least(values: &[Value]) -> Option<&Value>
    ensures { option_copied result ≡ first_value (ascending value_cmp values.now) }
{
    let mut least = None;
    for value in values {
        least = Some(lesser(least, value));
    }
    least
}

// The greater of two values, of which the first may be missing.
fn greater<'a>(greatest: Option<&'a Value>, value: &'a Value) -> &'a Value
    ensures { result.now ≡ greater (option_copied greatest.entry) value.now }
{
    match greatest {
        Some(greatest) if cmp_value(value, greatest) != Ordering::Greater => greatest,
        _ => value,
    }
}

// The greatest of values, if there are any.
fn greatest(values: &[Value]) -> Option<&Value>
    ensures { option_copied result ≡ first_value (reverse (ascending value_cmp values.now)) }
{
    let mut greatest = None;
    for value in values {
        greatest = Some(greater(greatest, value));
    }
    greatest
}

// A value as a number, where it is one, and else 0.
fn number_in(value: &Value) -> i128
    ensures number { result ≡ sum_of (number_in value.now) }
    ensures small { unsigned_abs result ≤ 9223372036854775808 }
{
    match value {
        Value::Int(n) => i128::from(*n),
        Value::Bool(_) | Value::Text(_) | Value::Time(_) => 0,
    }
}

// The sum of the numbers among values. There are fewer than 2 ^ 63 values, each of 64 bits, so it fits.
fn sum_of(values: &[Value]) -> i128
    ensures { result ≡ sum_of (flat_map number_in values.now) }
{
    let mut sum = 0;
    for value in values {
        sum += number_in(value);
    }
    sum
}
