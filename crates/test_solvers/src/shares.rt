//! What players get.

use fractions::Frac;
use worth_core::Shares;

/// Whether player `i` gets so much.
pub(crate) fn gets(x: &Shares, i: u32, share: (i128, i128)) -> bool {
    i < x.players() && Some(x.share(i)) == Frac::new(share.0, share.1)
}

/// Whether these are the shares, in the order of the players.
pub(crate) fn are(x: &Shares, shares: &[(i128, i128)]) -> bool {
    x.players() as usize == shares.len() && (0..shares.len()).all(|i| gets(x, i as u32, shares[i]))
}
