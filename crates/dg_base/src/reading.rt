// Packed numbers read one after another.
ghost use Rattle.std.specs.Prelude.{◌≡◌, ℕ, List, ◌∷◌, ◌+◌, ◌^◌, ◌<◌, ◌≤◌, true, length, take, drop};
ghost use Rattle.std.specs.Int.{w64, from_be_bytes};
ghost use Rattle.dg_base.specs.Unpacked.{read_groups, has_groups};

use crate::packing::{ROOM, Start};

// How many bytes the head of a block has.
const HEAD: usize = 9;

// A place between packed numbers.
#[derive(Clone, Copy, Debug)]
pub(crate) struct Cursor {
    // The number that was read last.
    pub(crate) last: u64,
    // The place of the bytes that come next.
    pub(crate) at: usize,
    // How many more numbers the block has room for.
    pub(crate) room: usize,
}

// A number, and the place behind its bytes.
#[derive(Clone, Copy)]
struct Grouped {
    number: u64,
    next: usize,
}

impl Cursor {
    ghost use Rattle.dg_base.specs.Cursors.{StandsBefore};

    // Before the first number of a block.
    pub(crate) fn new(start: Start) -> Cursor
        ensures last { result.last ≡ 0 }
        ensures at { result.at ≡ start.at }
        ensures room { result.room ≡ 0 }
    {
        Cursor {
            last: 0,
            at: start.at,
            room: 0,
        }
    }

    // The cursor behind the next number, which is then the last one.
    pub(crate) fn next(self, bytes: &[u8]) -> Cursor
        requires { (x : ℕ) × (xs : List ℕ) × StandsBefore bytes.now self (x ∷ xs) }
        ensures { (x : ℕ) (xs : List ℕ) → StandsBefore bytes.now self (x ∷ xs) → (result.last ≡ x) × StandsBefore bytes.now result xs }
    {
        if self.room == 0 {
            Cursor {
                last: first_at(bytes, self.at + 1),
                at: self.at + HEAD,
                room: ROOM,
            }
        } else {
            let read = number_at(bytes, self.at);
            Cursor {
                last: self.last + read.number,
                at: read.next,
                room: self.room - 1,
            }
        }
    }

    // The cursor behind so many numbers.
    pub(crate) fn behind(self, bytes: &[u8], most: usize) -> Cursor
        requires { (xs : List ℕ) × (most ≤ length xs) × StandsBefore bytes.now self xs }
        ensures { (xs : List ℕ) → most ≤ length xs → StandsBefore bytes.now self xs → StandsBefore bytes.now result (drop most xs) }
    {
        let mut cursor = self;
        for _read in 0..most {
            cursor = cursor.next(bytes);
        }
        cursor
    }
}

// The number in 8 bytes at a place, the highest first.
fn first_at(bytes: &[u8], at: usize) -> u64
    requires { at + 8 ≤ length bytes.now }
    ensures { result ≡ from_be_bytes w64 (take 8 (drop at bytes.now)) }
{
    let (_, rest) = bytes.split_at(at);
    u64::from_be_bytes(*rest.first_chunk::<8>().unwrap())
}

// The number in groups of 7 bits at a place. Most numbers have one group.
fn number_at(bytes: &[u8], at: usize) -> Grouped
    requires within { has_groups 9 (drop at bytes.now) ≡ true }
    requires fits { (read_groups 9 (drop at bytes.now)).0 < 2 ^ 64 }
    ensures number { result.number ≡ (read_groups 9 (drop at bytes.now)).0 }
    ensures next { drop result.next bytes.now ≡ (read_groups 9 (drop at bytes.now)).1 }
{
    let group = bytes[at];
    if group < 128 {
        return Grouped {
            number: u64::from(group),
            next: at + 1,
        };
    }
    let high = groups_at(bytes, at + 1, 8);
    Grouped {
        number: u64::from(group - 128) + 128 * high.number,
        next: high.next,
    }
}

// The number in groups of 7 bits at a place. At most `more` groups follow the first.
fn groups_at(bytes: &[u8], at: usize, more: u32) -> Grouped
    requires within { has_groups more (drop at bytes.now) ≡ true }
    requires fits { (read_groups more (drop at bytes.now)).0 < 2 ^ 64 }
    ensures number { result.number ≡ (read_groups more (drop at bytes.now)).0 }
    ensures next { drop result.next bytes.now ≡ (read_groups more (drop at bytes.now)).1 }
{
    let group = bytes[at];
    if more == 0 || group < 128 {
        return Grouped {
            number: u64::from(group),
            next: at + 1,
        };
    }
    let high = groups_at(bytes, at + 1, more - 1);
    Grouped {
        number: u64::from(group - 128) + 128 * high.number,
        next: high.next,
    }
}
