//! The limits of shares.

/// The most players of a game, and so the most shares.
pub(crate) const MOST_PLAYERS: usize = 64;

/// The greatest common denominator of shares.
pub(crate) const GREATEST_DEN: i128 = 1 << 63;

/// What the numerators of shares stay below in size.
pub(crate) const NUMERATOR_LIMIT: u128 = 1 << 110;
