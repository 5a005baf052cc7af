//! What the commands do with each class of games: the list of classes.
//!
//! A new class adds here who solves it (`solve_plain`, `core_answer`) and whether its worths are kept for the checker
//! (`kept_where_slow`); and, if it isn't as most classes, who serves it, to how many players, and who finds its Shapley
//! shares.
ghost use Rattle.std.specs.Prelude.{◌≡◌, ◌≤◌, IfOk, ◌<◌, ◌↔◌, IsErrOf, IfSome};
ghost use Rattle.definitions.specs.declared.Measure.{Measure};
ghost use Rattle.definitions.specs.Shapley.{IsShapley};
ghost use Rattle.game_text.specs.Classes.{description_in, game_of};
ghost use Rattle.coop.specs.Classes.{is_market, is_tree, is_no_market, serves_class, nucleolus_limit, core_limit};
ghost use Rattle.coop.specs.Classes.{HasFewPlayers, shapley_limit};
ghost use Rattle.coop.specs.Finding.{IsFoundFor, IsChosenFound};
ghost use Rattle.coop.specs.CoreClaims.{IsCoreAnswer};
ghost use Rattle.coop.specs.Limits.{check_limit};
ghost use Rattle.kohlberg.specs.Certificate.{IsCertificate};
ghost use Rattle.voting.specs.Voting.{voting_game};

use crate::commands::recall_limits;
use balanced::{CoreAnswer, core_of_few};
use definitions::{Family, Measure};
use fractions::OutOfMemory;
use game_text::{Command, Game};
use kohlberg::Certificate;
use nested_programs::{Found, solve_few};
use shapley::{ShapleyFault, airport_shapley, shapley};
use std::alloc::Global;
use voting::{VotingGame, voting_shapley};
use worth_core::Shares;
use worth_tables::KeptWorths;

/// Whether the command serves the class of the game: only `matching` serves a market, and `bird` serves tree games
/// alone.
pub(crate) fn serves_class(command: Command, game: &Game) -> bool
    ensures { result ≡ serves_class command (description_in game.now) }
{
    match command {
        Command::Matching => is_market(game),
        Command::Bird => is_tree(game),
        Command::Nucleolus
        | Command::Prenucleolus
        | Command::Propose
        | Command::Core
        | Command::Check
        | Command::Shapley
        | Command::Convex
        | Command::Kernel => is_no_market(game),
    }
}

fn is_market(game: &Game) -> bool
    ensures { result ≡ is_market (description_in game.now) }
{
    matches!(game, Game::Market(_))
}

fn is_tree(game: &Game) -> bool
    ensures { result ≡ is_tree (description_in game.now) }
{
    matches!(game, Game::Tree(_))
}

fn is_no_market(game: &Game) -> bool
    ensures { result ≡ is_no_market (description_in game.now) }
{
    !matches!(game, Game::Market(_))
}

/// The most players of a game whose coalitions are all looked at.
pub(crate) const FEW_PLAYERS: u32 = 16;

/// The most players of a game that the nested programs solve with excess per head.
pub(crate) const FEW_PER_HEAD: u32 = 8;

/// The most players of any game.
pub(crate) const MANY_PLAYERS: u32 = 64;

/// The most players of a game whose certificates are checked: 16 with excess per head, and 64 with plain excess.
pub(crate) fn check_limit(measure: Measure) -> u32
    ensures { result ≡ check_limit measure }
{
    match measure {
        Measure::Plain => MANY_PLAYERS,
        Measure::PerHead => FEW_PLAYERS,
    }
}

/// The most players of a game whose nucleolus is answered: 8 with excess per head. With plain excess they are 64 for an
/// airport or bankruptcy game, which has a scheme of its own, and 16 for another.
pub(crate) fn nucleolus_limit(measure: Measure, game: &Game) -> u32
    ensures { result ≡ nucleolus_limit measure (description_in game.now) }
{
    match (measure, game) {
        (Measure::PerHead, _) => FEW_PER_HEAD,
        (Measure::Plain, Game::Airport(_) | Game::Bankruptcy(_)) => MANY_PLAYERS,
        (Measure::Plain, _) => FEW_PLAYERS,
    }
}

/// The most players of a game whose core is answered: 16 for a voting game, and 64, which no game exceeds, for another.
pub(crate) fn core_limit(game: &Game) -> u32
    ensures { result ≡ core_limit (description_in game.now) }
{
    if matches!(game, Game::Voting(_)) {
        FEW_PLAYERS
    } else {
        MANY_PLAYERS
    }
}

/// What the scheme of the game's class finds with plain excess, or else the nested programs.
pub(crate) fn solve_plain(alloc: Global, game: &Game, family: Family) -> Result<Found, OutOfMemory>
    requires { HasFewPlayers (description_in game.now) }
    ensures found { IfOk result (IsFoundFor family Measure.Plain (game_of (description_in game.now))) }
    ensures chosen { IfOk result (IsChosenFound Measure.Plain (description_in game.now)) }
{
    match game {
        Game::Airport(game) => {
            let solution = airport_scheme::solve(alloc, game)?;
            Ok(found_point(solution))
        }
        Game::Bankruptcy(game) => {
            let solution = talmud::solve(alloc, game)?;
            Ok(found_point(solution))
        }
        Game::Table(game) => solve_few(alloc, game, family, Measure::Plain),
        Game::Cost(_) | Game::Tree(_) | Game::Assignment(_) | Game::Voting(_) => {
            // Each worth is asked for many times, and only a table keeps them.
            let kept = KeptWorths::new(alloc, game)?;
            solve_few(alloc, &kept, family, Measure::Plain)
        }
        Game::Market(_) => unreachable!(),
    }
}

/// Returns the point and the certificate of a scheme's solution.
fn found_point(solution: (Shares, Certificate)) -> Found
    ensures { result ≡ Found.Point solution.0 solution.1 }
{
    Found::Point(solution.0, solution.1)
}

/// What the scheme of the game's class says, or else the balanced program.
pub(crate) fn core_answer(alloc: Global, game: &Game) -> Result<CoreAnswer, OutOfMemory>
    requires { HasFewPlayers (description_in game.now) }
    ensures { IfOk result (IsCoreAnswer (description_in game.now)) }
{
    match game {
        Game::Airport(game) => Ok(core_point(airport_scheme::solve(alloc, game)?)),
        Game::Bankruptcy(game) => Ok(core_point(talmud::solve(alloc, game)?)),
        Game::Tree(game) => Ok(CoreAnswer::Point(game.bird(alloc)?.0)),
        Game::Table(_) | Game::Cost(_) | Game::Assignment(_) | Game::Voting(_) => {
            // Each worth is asked for many times.
            core_of_few(alloc, &KeptWorths::new(alloc, game)?)
        }
        Game::Market(_) => unreachable!(),
    }
}

/// Returns the point of a scheme's solution, without its certificate.
fn core_point(solution: (Shares, Certificate)) -> CoreAnswer
    ensures point { result ≡ CoreAnswer.Point solution.0 }
    ensures certificate { IsCertificate solution.1 }
{
    recall_limits(&solution.0, &solution.1);
    CoreAnswer::Point(solution.0)
}

/// The shares of an airport game by the steps of its costs, those of a voting game by its sums of weights, and those of
/// another by its coalitions.
pub(crate) fn shares_of(alloc: Global, game: &Game) -> Result<Shares, ShapleyFault>
    ensures value { IfOk result (IsShapley (game_of (description_in game.now))) }
    ensures too_many { IsErrOf result ShapleyFault.TooMany
        ↔ (shapley_limit (description_in game.now) < (game_of (description_in game.now)).players) }
{
    match game {
        Game::Airport(game) => airport_shapley(alloc, game),
        Game::Voting(game) => votes_of(alloc, game),
        _ => shapley(alloc, game),
    }
}

// The most players of a voting game.
const MOST_VOTERS: u32 = 32;

/// The shares of a voting game, which never has too many players.
fn votes_of(alloc: Global, game: &VotingGame) -> Result<Shares, ShapleyFault>
    ensures value { IfOk result (IsShapley (voting_game game.now)) }
    ensures few { ¬ (IsErrOf result ShapleyFault.TooMany) }
    ensures players { (voting_game game.now).players ≤ MOST_VOTERS }
{
    game.len(); // There are at most 32, by its type.
    match voting_shapley(alloc, game) {
        Ok(shares) => Ok(shares),
        Err(_) => Err(ShapleyFault::Memory),
    }
}

/// Returns the game with its worths kept, if it computes each anew when it is asked, as a tree game does. The checker
/// asks for each worth at each level.
pub(crate) fn kept_where_slow(
    alloc: Global,
    game: &Game,
) -> Result<Option<KeptWorths<'_, Game>>, OutOfMemory>
    ensures same { IfOk result (λ o. IfSome o (λ kept. kept ≡ game.now)) }
    ensures few { IfOk result (λ o. IfSome o (λ kept. (game_of (description_in kept)).players ≤ FEW_PLAYERS)) }
{
    match game {
        Game::Tree(tree) => {
            tree.points(); // There are at most 17, by its type.
            Ok(Some(KeptWorths::new(alloc, game)?))
        }
        Game::Table(_)
        | Game::Cost(_)
        | Game::Airport(_)
        | Game::Bankruptcy(_)
        | Game::Assignment(_)
        | Game::Market(_)
        | Game::Voting(_) => Ok(None),
    }
}
