// What is said of a text in which one byte is another.
ghost use Rattle.std.specs.Prelude.{◌≤◌, length};

use dg_parse::{DqlFault, parse};
use dg_values::{Mem, OutOfMemory};
use std::alloc::Global;
use std::str;

// What was said of many texts: how many say a query, how many have each fault, and the sum of the offsets of faults, of
// which each counts as often as its text is far from the first.
#[derive(Clone, Copy)]
struct Tally {
    texts: u64,
    queries: u64,
    no_token: u64,
    too_deep: u64,
    bad_syntax: u64,
    sum: u64,
}

impl Tally {
    // Adds an offset, in its turn.
    fn place(&mut self, offset: u32) {
        let weighed = self.texts.wrapping_mul(u64::from(offset));
        self.sum = self.sum.wrapping_add(weighed) % 1_000_000_007;
    }

    // Counts what is said of one more text.
    fn count(&mut self, alloc: Global, text: &str) -> Mem<()>
        requires { length text.now ≤ 1048576 }
    {
        self.texts = self.texts.wrapping_add(1);
        match parse(alloc, text) {
            Ok(_) => self.queries = self.queries.wrapping_add(1),
            Err(DqlFault::BadToken { offset }) => {
                self.no_token = self.no_token.wrapping_add(1);
                self.place(offset);
            }
            Err(DqlFault::TooDeep { offset }) => {
                self.too_deep = self.too_deep.wrapping_add(1);
                self.place(offset);
            }
            Err(DqlFault::BadSyntax { offset }) => {
                self.bad_syntax = self.bad_syntax.wrapping_add(1);
                self.place(offset);
            }
            Err(DqlFault::OutOfMemory) => return Err(OutOfMemory),
        }
        Ok(())
    }
}

// What is said of a text of ASCII with each byte from 1 to 127 at each place in turn.
pub(crate) fn changed(alloc: Global, text: &str) -> Mem<Option<String>>
    requires { length text.now ≤ 1048576 }
{
    let mut tally = Tally {
        texts: 0,
        queries: 0,
        no_token: 0,
        too_deep: 0,
        bad_syntax: 0,
        sum: 0,
    };
    for at in 0..text.len() {
        change_at(alloc, &mut tally, text.as_bytes(), at)?;
    }
    let Tally {
        texts,
        queries,
        no_token,
        too_deep,
        bad_syntax,
        sum,
    } = tally;
    Ok(Some(format!(in alloc;
        "{texts} texts, {queries} read, T{no_token} D{too_deep} S{bad_syntax}, sum {sum}"
    )?))
}

// The same at one place.
fn change_at(alloc: Global, tally: &mut Tally, bytes: &[u8], at: usize) -> Mem<()>
    requires { length bytes.now ≤ 1048576 }
{
    for byte in 1..128 {
        count_with(alloc, tally, bytes, at, byte)?;
    }
    Ok(())
}

// The same with one byte there.
fn count_with(alloc: Global, tally: &mut Tally, bytes: &[u8], at: usize, byte: u8) -> Mem<()>
    requires { length bytes.now ≤ 1048576 }
{
    let mut changed = bytes.to_vec(alloc)?;
    if let Some(place) = changed.get_mut(at) {
        *place = byte;
    }
    match str::from_utf8(changed.as_slice()) {
        Ok(text) => tally.count(alloc, text),
        Err(_) => Ok(()),
    }
}
