//! Rules that divide in the same way what is left when some players take their shares and go: they are consistent. Each
//! function's contract is a theorem, and its body is empty. No crate of the program needs them.
#![tactic(auto)]

pub mod airports_left;
pub mod estates_left;
pub mod reduced_games;
pub mod sobolevs_theorem;
