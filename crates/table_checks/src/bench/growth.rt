// The exponent by which a time grows with the length of a text, or with the number of its parts.

// The fourth part of it, and all of it, took so long: the exponent in hundredths, to 400 at most.
pub fn hundredths(quarter: u128, whole: u128) -> u32 {
    let whole = whole.saturating_mul(1_000_000);
    let mut reached = quarter.saturating_mul(1_000_000);
    for step in 0..400 {
        if whole <= reached {
            return step;
        }
        // The hundredth root of 4.
        reached = reached.saturating_mul(1_013_960) / 1_000_000;
    }
    400
}
