//! Looking into a JSON tree: its parts, its keys, its integers and fractions, the players that its integers name, the
//! forms that its parts may have, and what parts of a form describe.
#![tactic(auto)]

mod form;
mod looking;
mod numbers;
mod reader;

pub use form::{ArrayOf, Form, Member, Number, Numeric, PairOf, SecondOf, Text, has, has_if_there};
pub use looking::{has_only_keys, pair_members, parts, parts_at, text};
pub use numbers::{WrittenFractions, fraction_of, integer, numbered_player, scaled, scaled_of};
pub use reader::{Reader, read_at};
