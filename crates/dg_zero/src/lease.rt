// The calls that lease nodes.
ghost use Rattle.std.specs.Prelude.{◌≡◌, ◌+◌, ◌≤◌, ◌^◌, max, nat_le, Some, None, if◌then◌else◌, IfOk, IfErr, OnErr, IfSome};
ghost use Rattle.dg_zero.specs.Counters.{next_uid, leased};
ghost use Rattle.dg_zero.specs.Legal.{IsLegal};
ghost use Rattle.dg_zero.specs.States.{and_then};

use crate::appending::append;
use crate::chain::What;
use crate::{Event, Slip, ZeroFault, ZeroState};

// The nodes are those below this one.
const END: u64 = 1 << 62;

// The first of `count` nodes above `top` and not below `next`, where so many are left.
fn first_of(next: u64, top: u64, count: u64) -> Option<u64>
    ensures first { result ≡ (if nat_le (max next (top + 1) + count) (2 ^ 62) then Some (max next (top + 1)) else None) }
    ensures within { IfSome result (λ first. first + count ≤ 2 ^ 62) }
{
    let first = top.checked_add(1)?.max(next);
    if first.checked_add(count)? <= END {
        Some(first)
    } else {
        None
    }
}

impl ZeroState {
    /// The next node: the one above all that were leased, at first 1. It takes no memory.
    pub fn next_uid(&self) -> u64
        ensures { result ≡ next_uid self.now.history }
    {
        self.next_uid
    }

    /// Leases `count` nodes above `top` and above all that were leased, and answers the first. `UidsSpent` comes exactly
    /// where so many aren't left, with the next node; then nothing is leased, and a look is appended. It takes no memory.
    pub fn lease(&mut self, slip: Slip, top: u64, count: u64) -> Result<u64, ZeroFault>
        ensures first { IfOk result (λ first. leased self.old.history top count ≡ Some first) }
        ensures spent { IfErr result (λ fault. (leased self.old.history top count ≡ None) × (fault ≡ ZeroFault.UidsSpent (next_uid self.old.history))) }
        ensures ok { IfOk result (λ first. self.new ≡ and_then self.old slip (Event.Lease top count first)) }
        ensures err { OnErr result (self.new ≡ and_then self.old slip Event.Look) }
        ensures legal { IsLegal self.new.groups self.new.history }
    {
        match first_of(self.next_uid, top, count) {
            Some(first) => {
                self.next_uid = first + count;
                append(&mut self.past, slip, What::Lease { top, count, first });
                Ok(first)
            }
            None => {
                append(&mut self.past, slip, What::Look);
                Err(ZeroFault::UidsSpent {
                    next: self.next_uid,
                })
            }
        }
    }
}
