//! The Bird plan, in which each player pays for its link (Bird 1976).
ghost use Rattle.std.specs.Prelude.{◌≡◌, ℕ, ◌^◌, ◌<◌, length, slice_index, IfOk, neg_ℤ, pos, unsigned_abs};
ghost use Rattle.definitions.specs.Coalitions.{has_player};
ghost use Rattle.matrices.specs.Rows.{entries_of};
ghost use Rattle.tree_games.specs.Steps.{nearest, reach, next_end};
ghost use Rattle.tree_games.specs.Trees.{IsBird};

use crate::TreeGame;
use crate::prim::closest;
use crate::tree_game::POINTS;
use coalitions::Coalition;
use fractions::OutOfMemory;
use std::alloc::Global;
use std::marker::Model;
use worth_core::Shares;

/// The links of a plan in the order of connection: the connected end, the new player and the cost. The source is 0,
/// and players count from 1.
#[derive(Debug, Drop)]
pub struct Tree {
    pub edges: Vec<(u32, u32, i64)>,
}

impl Model for Tree {
    ghost use Rattle.std.specs.Prelude.{List, ℕ, ℤ};

    ghost Value = { List (ℕ × ℕ × ℤ) };

    ghost view = { λ t. t.edges.items };
}

impl TreeGame {
    /// Returns the Bird plan, and the shares by which each player pays for its link, as worth: each step takes the link
    /// of least (cost, connected end, new player). No plan costs less, and the shares lie in the core.
    ///
    /// Fails only if memory runs out.
    pub fn bird(&self, alloc: Global) -> Result<(Shares, Tree), OutOfMemory>
        ensures { IfOk result (λ r. IsBird self.now r.0 r.1) }
    {
        let points = self.points();
        let mut num = vec![in alloc; 0i128; (points - 1) as usize]?;
        let mut edges = Vec::new(alloc);
        let mut connected = Coalition(1);
        let mut waiting = Coalition(Coalition::all(points - 1).0 << 1);
        for _k in 0..points - 1 {
            let end = self.next_end(connected, waiting);
            let player = self.nearest(end, waiting);
            num[player as usize - 1] = self.owed(end, player);
            edges.push(self.edge(end, player))?;
            connected = connected.with(player);
            waiting = waiting.without(player);
        }
        let shares = Shares::new(num, 1).unwrap();
        Ok((shares, Tree { edges }))
    }

    /// That link with its cost.
    fn edge(&self, end: u32, player: u32) -> (u32, u32, i64)
        requires row { end < length self.now }
        requires column { player < length self.now }
        ensures { result ≡ (end, player, pos (entries_of self.now end player)) }
    {
        (end, player, self.cost(end, player) as i64)
    }

    /// What a player gets who pays for that link, as worth.
    fn owed(&self, end: u32, player: u32) -> i128
        requires row { end < length self.now }
        requires column { player < length self.now }
        ensures value { result ≡ neg_ℤ (pos (entries_of self.now end player)) }
        ensures small { unsigned_abs result < 2 ^ 40 }
    {
        -(self.cost(end, player) as i128)
    }

    /// The first connected point from which a waiting one is nearest.
    fn next_end(&self, connected: Coalition, waiting: Coalition) -> u32
        ensures value { result
            ≡ next_end (entries_of self.now) (length self.now) (has_player connected) (has_player waiting) }
        ensures below { result < length self.now }
    {
        let reaches = self.reaches(waiting);
        closest(&reaches, self.points(), connected)
    }

    /// What the link of each point to the waiting one nearest to it costs.
    fn reaches(&self, waiting: Coalition) -> [u64; POINTS]
        ensures len { length result ≡ 17 }
        ensures value { (b : ℕ) → b < length self.now
            → slice_index result b ≡ reach (entries_of self.now) (length self.now) (has_player waiting) b }
    {
        let mut reaches = [0u64; POINTS];
        for b in 0..self.points() {
            reaches[b as usize] = self.cost(b, self.nearest(b, waiting));
        }
        reaches
    }

    /// The first waiting point that is nearest to point `p`.
    fn nearest(&self, p: u32, waiting: Coalition) -> u32
        requires { p < length self.now }
        ensures value { result ≡ nearest (entries_of self.now) (length self.now) (has_player waiting) p }
        ensures below { result < length self.now }
    {
        let links = self.links_of(p);
        closest(&links, self.points(), waiting)
    }
}
