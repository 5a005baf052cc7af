//! The list of classes: the class that a document names, and the game of a class. Each class has its arm in each
//! `match` here, and a module of its own.
//!
//! A new class adds here its module, the class, its arm of `by_class!`, its word in `class_named`, its making in
//! `game_of`, the game, its arm of `of_its_class!`, and `is_cost`.
ghost use Rattle.std.specs.Prelude.{◌≡◌, true, false, Some, None, if◌then◌else◌, ◌≤◌};
ghost use Rattle.std.specs.Prelude.{length, MatchResult, IfOk, IfSome, IfNone};
ghost use Rattle.serde_json.specs.View.{view};
ghost use Rattle.document_parts.specs.Names.{names_of};
ghost use Rattle.game_text.specs.Classes.{class_named, class_of, is_shaped_as, players, is_cost, description_in};
ghost use Rattle.game_text.specs.Classes.{game_of, has_players, are_numbers_as, own_values, own_numbers};
ghost use Rattle.document_parts.specs.Numbers.{AreWorths};
ghost use Rattle.document_parts.specs.Version.{has_texts};
ghost use Rattle.game_text.specs.Shape.{is_shaped};
ghost use Rattle.game_text.specs.Readings.{IsBuilt, IsBuildFault};

mod airport_class;
mod assignment_class;
mod bankruptcy_class;
mod market_class;
mod matrix_class;
mod table_class;
mod tree_class;
mod voting_class;

use crate::document::TextFault;
use crate::shape::{ShapedGame, SizedGame};
use airport::AirportGame;
use airport_class::airport_of;
use assignment_class::assignment_of;
use assignment_games::AssignmentGame;
use bankruptcy::BankruptcyGame;
use bankruptcy_class::bankruptcy_of;
use big_assignment::MarketGame;
use coalitions::Coalition;
use document_parts::{Names, Numbers};
use fractions::OutOfMemory;
use market_class::market_of;
use serde_json::Value;
use std::alloc::Global;
use table_class::{costs_of, worths_of};
use tree_class::tree_of;
use tree_games::TreeGame;
use voting::VotingGame;
use voting_class::voting_of;
use worth_core::{Shares, Worth};
use worth_tables::{CostGame, TableGame};

/// The class that a document names.
#[derive(Clone, Copy, Debug, PartialEq, Eq)]
pub enum Class {
    /// The worth of each coalition.
    Table,
    /// The cost of each coalition.
    Cost,
    /// The cost of each player.
    Airport,
    /// An estate and the claim of each player.
    Bankruptcy,
    /// The cost of the link between each two of the source and the players.
    Tree,
    /// What each buyer and each seller are worth together.
    Assignment,
    /// What each buyer and each seller are worth together, for up to 32 of each, to be matched.
    Market,
    /// A quota and the weight of each player.
    Voting,
}

/// The function of this name in the module of the class. The module of each class has `is_shaped`, `players` and
/// `numbers`; both tables share theirs.
macro_rules! by_class {
    ($class:expr, $function:ident($($argument:expr),*)) => {
        match $class {
            Class::Table | Class::Cost => table_class::$function($($argument),*),
            Class::Airport => airport_class::$function($($argument),*),
            Class::Bankruptcy => bankruptcy_class::$function($($argument),*),
            Class::Tree => tree_class::$function($($argument),*),
            Class::Assignment => assignment_class::$function($($argument),*),
            Class::Market => market_class::$function($($argument),*),
            Class::Voting => voting_class::$function($($argument),*),
        }
    };
}

/// The class that a word names.
pub(crate) fn class_named(word: &str) -> Option<Class>
    ensures { result ≡ class_named word.now }
{
    match word {
        "table" => Some(Class::Table),
        "cost-table" => Some(Class::Cost),
        "airport" => Some(Class::Airport),
        "bankruptcy" => Some(Class::Bankruptcy),
        "tree" => Some(Class::Tree),
        "assignment" => Some(Class::Assignment),
        "market" => Some(Class::Market),
        "voting" => Some(Class::Voting),
        _ => None,
    }
}

/// Whether a game, whose numbers may be texts or not, has the keys and kinds of the class.
pub(crate) fn is_shaped_as(class: Class, game: &Value, texts: bool) -> bool
    requires { texts ≡ has_texts (view game.now) }
    ensures { result ≡ is_shaped_as (Some class) (view game.now) }
{
    by_class!(class, is_shaped(game, texts))
}

/// The number of players. None unless there are as many, and numbers for them, as the class of the game allows.
pub(crate) fn players(game: &ShapedGame) -> Option<usize>
    ensures { let tree = view game.now.tree.now in
        result ≡ (if has_players tree then Some (players tree) else None) }
{
    by_class!(game.class, players(game.tree))
}

/// The numbers of the game, times their scale. None unless the scale and each number are within their limits.
pub(crate) fn numbers(alloc: Global, game: &ShapedGame) -> Result<Option<Numbers>, OutOfMemory>
    ensures none { let tree = view game.now.tree.now in
        IfOk result (λ o. IfNone o (are_numbers_as (class_of tree) (own_values tree) ≡ false)) }
    ensures within { let tree = view game.now.tree.now in
        IfOk result (λ o. IfSome o (λ n. are_numbers_as (class_of tree) (own_values tree) ≡ true)) }
    ensures numbers { let tree = view game.now.tree.now in
        IfOk result (λ o. IfSome o (λ n. AreWorths (own_values tree) n.scale n.items.items)) }
{
    by_class!(game.class, numbers(alloc, game.tree))
}

/// The game that a tree describes, by its numbers, or the refusal of its class.
pub(crate) fn game_of(
    alloc: Global,
    game: &SizedGame,
    names: &Names,
    numbers: Vec<i64>,
) -> Result<Game, TextFault>
    requires named { length names.now ≤ players (view game.now.tree.now) }
    requires names { names.now ≡ names_of (view game.now.tree.now) }
    requires numbers { numbers.items ≡ own_numbers (view game.now.tree.now) }
    ensures { MatchResult result (IsBuilt (view game.now.tree.now)) (IsBuildFault (view game.now.tree.now)) }
{
    match game.class {
        Class::Table => worths_of(alloc, game.tree, game.players(), names, numbers),
        Class::Cost => costs_of(alloc, game.tree, game.players(), names, numbers),
        Class::Airport => airport_of(alloc, game.tree, numbers),
        Class::Bankruptcy => bankruptcy_of(alloc, game.tree, numbers),
        Class::Tree => tree_of(alloc, game.tree, numbers),
        Class::Assignment => assignment_of(alloc, game.tree, numbers),
        Class::Market => market_of(alloc, game.tree, numbers),
        Class::Voting => voting_of(alloc, game.tree, numbers),
    }
}

/// A game of one of the classes.
#[derive(Debug, Drop)]
pub enum Game {
    /// The worth of each coalition.
    Table(TableGame),
    /// The cost of each coalition.
    Cost(CostGame<TableGame>),
    /// The cost of each player.
    Airport(AirportGame),
    /// An estate and the claim of each player.
    Bankruptcy(BankruptcyGame),
    /// The cost of the link between each two of the source and the players.
    Tree(TreeGame),
    /// What each buyer and each seller are worth together.
    Assignment(AssignmentGame),
    /// What each buyer and each seller are worth together, for up to 32 of each.
    Market(MarketGame),
    /// A quota and the weight of each player.
    Voting(VotingGame),
}

/// The body, in which the name stands for the game of the class.
macro_rules! of_its_class {
    ($game:expr, $inner:ident => $body:expr) => {
        match $game {
            Game::Table($inner) => $body,
            Game::Cost($inner) => $body,
            Game::Airport($inner) => $body,
            Game::Bankruptcy($inner) => $body,
            Game::Tree($inner) => $body,
            Game::Assignment($inner) => $body,
            Game::Market($inner) => $body,
            Game::Voting($inner) => $body,
        }
    };
}

impl Game {
    /// Returns whether its numbers are costs. Shares are then read and printed as payments.
    pub fn is_cost(&self) -> bool
        ensures { result ≡ is_cost (description_in self.now) }
    {
        match self {
            Game::Cost(_) | Game::Airport(_) | Game::Tree(_) => true,
            Game::Table(_)
            | Game::Bankruptcy(_)
            | Game::Assignment(_)
            | Game::Market(_)
            | Game::Voting(_) => false,
        }
    }
}

impl Worth for Game {
    ghost game = { λ g. game_of (description_in g) };

    fn players(&self) -> u32 {
        of_its_class!(self, game => game.players())
    }

    fn worth(&self, s: Coalition) -> i64 {
        of_its_class!(self, game => game.worth(s))
    }

    fn blocker(&self, x: &Shares) -> Option<Coalition> {
        of_its_class!(self, game => game.blocker(x))
    }

    fn split_bound(&self, x: &Shares, free: Coalition) -> i128 {
        of_its_class!(self, game => game.split_bound(x, free))
    }
}
