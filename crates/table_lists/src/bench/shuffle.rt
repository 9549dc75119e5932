// Keys in orders that neither rise nor fall.

// From one place to the next: a prime, so that each place comes once in as many turns as there are places.
const STEP: u64 = 617_011;

// The key of a turn, from 1 up to how many there are.
pub(crate) fn shuffled(turn: u64, size: u64) -> u64 {
    let place = turn.wrapping_mul(STEP).checked_rem(size).unwrap_or(0);
    place.wrapping_add(1)
}

// The key of a turn, from 1 up to how many there are, as if drawn at random.
pub(crate) fn drawn(turn: u64, size: u64) -> u64 {
    let drawn = turn.wrapping_mul(0x9e37_79b9_7f4a_7c15) >> 30;
    (drawn % size.max(1)).wrapping_add(1)
}
