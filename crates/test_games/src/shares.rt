//! Shares from their numerators, and these again.
use std::alloc::Global;
use std::test::Fail;
use worth_core::Shares;

/// Shares with these numerators over this denominator.
pub(crate) fn shares_of(alloc: Global, num: &[i128], den: i128) -> Result<Shares, Fail> {
    Ok(Shares::new(num.to_vec(alloc)?, den).ok_or("not shares")?)
}

/// Whether the numerators of the shares are these.
pub(crate) fn are_numbers(x: &Shares, wanted: &[i128]) -> bool {
    if x.players() as usize != wanted.len() {
        return false;
    }
    for i in 0..x.players() {
        if x.num(i) != wanted[i as usize] {
            return false;
        }
    }
    true
}
