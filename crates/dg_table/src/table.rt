// A table of names and codes.
ghost use Rattle.std.specs.Prelude.{◌≡◌, ◌≤◌, ◌↔◌, ◌==◌, ℕ, List, IsSome, IsNone, IfSome, is_some, option_map};
ghost use Rattle.std.specs.List.{Contains, list_any, position};
ghost use Rattle.std.specs.Str.{bytes_eq};
ghost use Rattle.dg_table.specs.Rows.{rows_of, IsOneToOne, HasDouble, IsCodeOf, IsNameOf, AreInverse};
ghost use Rattle.dg_table.specs.Tests.{share, is_one_to_one};

use crate::Name;
use std::marker::Model;

/// Rows of a name and a code, in which no two names and no two codes are equal.
///
/// Contracts see the rows in order, each as the bytes of its name and its code. No call takes memory.
///
/// A look-up reads the rows in turn and compares names by their bytes: tables have at most some
/// dozens of rows, and keep them in the order in which they are written, which is neither that of
/// the names nor that of the codes, so halving would need a second array in another order.
#[derive(Debug, Drop)]
pub struct Table<const N: usize, S: Name = &'static str> {
    rows: [(S, u16); N],
}

impl<const N: usize, S: Name> Model for Table<N, S> {
    ghost use Rattle.std.specs.Prelude.{List};
    ghost use Rattle.dg_table.specs.Rows.{Row, rows_of, IsOneToOne};

    ghost Value = { List Row };

    ghost view = { λ table. rows_of S.bytes table.rows };

    ghost invariant = { λ table. IsOneToOne (rows_of S.bytes table.rows) };
}

impl<const N: usize, S: Name> Table<N, S> {
    /// The table of these rows, or None exactly where two of them have one name or one code.
    ///
    /// It compares each two rows.
    pub fn new(rows: [(S, u16); N]) -> Option<Table<N, S>>
        requires { N ≤ 1000 }
        ensures rows { IfSome result (λ table. table ≡ rows_of S.bytes rows) }
        ensures some { IsSome result ↔ IsOneToOne (rows_of S.bytes rows) }
        ensures none { IsNone result ↔ HasDouble (rows_of S.bytes rows) }

        // The same, by a test that computes over rows that are written out.
        ensures test { is_some result ≡ is_one_to_one (rows_of S.bytes rows) }
    {
        if is_one_to_one(&rows) {
            Some(Table { rows })
        } else {
            None
        }
    }

    /// The code of that name, or None exactly where no row has it.
    pub fn find(&self, name: &str) -> Option<u16>
        ensures answer { IsCodeOf self.now name.now result }
        ensures none { IsNone result ↔ ((code : ℕ) → ¬ Contains self.now (name.now, code)) }
        ensures inverse { AreInverse self.now }
    {
        let place = place_of_name(&self.rows, name)?;
        Some(self.rows[place].1)
    }

    /// The name of that code, or None exactly where no row has it.
    pub fn name_of(&self, code: u16) -> Option<S>
        ensures answer { IsNameOf self.now code (option_map S.bytes result) }
        ensures none { IsNone result ↔ ((name : List ℕ) → ¬ Contains self.now (name, code)) }
        ensures inverse { AreInverse self.now }
    {
        let place = place_of_code(&self.rows, code)?;
        Some(self.rows[place].0)
    }
}

// Whether no two rows have one name, and no two have one code.
fn is_one_to_one<S: Name>(rows: &[(S, u16)]) -> bool
    ensures { result ≡ is_one_to_one (rows_of S.bytes rows.now) }
{
    for (i, row) in rows.iter().enumerate() {
        if has_either(&rows[i + 1..], row.0.as_str(), row.1) {
            return false;
        }
    }
    true
}

// Whether a row has that name or that code.
fn has_either<S: Name>(rows: &[(S, u16)], name: &str, code: u16) -> bool
    ensures { result ≡ list_any (λ row. share (S.bytes row.0, row.1) (name.now, code)) rows.now }
{
    rows.iter()
        .any(|row| row.0.as_str() == name || row.1 == code)
}

// The place of the first row of that name.
fn place_of_name<S: Name>(rows: &[(S, u16)], name: &str) -> Option<usize>
    ensures { result ≡ position (λ row. bytes_eq (S.bytes row.0) name.now) rows.now }
{
    rows.iter().position(|row| row.0.as_str() == name)
}

// The place of the first row of that code.
fn place_of_code<S: Name>(rows: &[(S, u16)], code: u16) -> Option<usize>
    ensures { result ≡ position (λ row. row.1 == code) rows.now }
{
    rows.iter().position(|row| row.1 == code)
}
