//! Teams: a coalition is worth the square of the number of its members.
#![tactic(auto)]

use coalitions::Coalition;
use std::marker::Model;
use worth_core::Worth;

/// A team of 1 to 64 players.
#[derive(Debug)]
pub struct Team {
    players: u32,
}

impl Model for Team {
    ghost use Rattle.std.specs.Prelude.{ℕ};
    ghost use Rattle.example_class.specs.Team.{IsTeam};

    ghost Value = { ℕ };

    ghost view = { λ t. t.players };

    ghost invariant = { λ t. IsTeam t.players };
}

impl Team {
    ghost use Rattle.std.specs.Prelude.{◌≡◌, MatchOption};
    ghost use Rattle.example_class.specs.Team.{IsTeam};

    /// Makes the team of that number of players. Returns none exactly if the number isn't from 1 to 64.
    pub fn new(players: u32) -> Option<Team>
        ensures { MatchOption result (¬ IsTeam players) (λ team. team ≡ players) }
    {
        if players < 1 || players > 64 {
            return None;
        }
        Some(Team { players })
    }
}

impl Worth for Team {
    ghost use Rattle.example_class.specs.Team.{team_game};

    ghost game = { team_game };

    fn players(&self) -> u32 {
        self.players
    }

    fn worth(&self, s: Coalition) -> i64 {
        let members = s.len();
        (members * members) as i64
    }
}
