//! The least cost of connecting a coalition, by Prim's steps (Prim 1957).
ghost use Rattle.std.specs.Prelude.{◌≡◌, ℕ, ◌-◌, ◌^◌, ◌<◌, ◌≤◌, length, slice_index, min};
ghost use Rattle.definitions.specs.Coalitions.{has_player};
ghost use Rattle.definitions.specs.Classes.{is_source, is_point_of};
ghost use Rattle.matrices.specs.Rows.{entries_of};
ghost use Rattle.tree_games.specs.Steps.{closest, prim_cost};

use crate::TreeGame;
use crate::tree_game::POINTS;
use coalitions::Coalition;

impl TreeGame {
    /// What the cheapest plan for the members costs.
    pub(crate) fn least_cost(&self, s: Coalition) -> u64
        requires { s < 2 ^ (length self.now - 1) }
        ensures value { result
            ≡ prim_cost (entries_of self.now) (length self.now) (length self.now - 1) is_source (is_point_of s) }
        ensures small { result < 2 ^ 45 }
    {
        let points = self.points();
        let mut best = self.links_of(0);
        let mut connected = Coalition(1);
        let mut waiting = Coalition(s.0 << 1);
        let mut total = 0;
        for _k in 0..points - 1 {
            let p = closest(&best, points, waiting);
            if waiting.contains(p) {
                total += best[p as usize];
                connected = connected.with(p);
                waiting = waiting.without(p);
                self.relax(&mut best, p);
            }
        }
        total
    }

    /// What the link of point `p` to each point costs.
    pub(crate) fn links_of(&self, p: u32) -> [u64; POINTS]
        requires { p < length self.now }
        ensures len { length result ≡ 17 }
        ensures value { (j : ℕ) → j < length self.now → slice_index result j ≡ entries_of self.now p j }
    {
        let mut links = [0u64; POINTS];
        for j in 0..self.points() {
            links[j as usize] = self.cost(p, j);
        }
        links
    }

    /// The lesser of what it cost to connect each point and of the cost of its link to point `p`.
    fn relax(&self, best: &mut [u64; POINTS], p: u32)
        requires { p < length self.now }
        ensures len { length best.new ≡ 17 }
        ensures value { (j : ℕ) → j < length self.now
            → slice_index best.new j ≡ min (slice_index best.old j) (entries_of self.now p j) }
    {
        for j in 0..self.points() {
            let cost = self.cost(p, j);
            if cost < best[j as usize] {
                best[j as usize] = cost;
            }
        }
    }
}

/// The first of the given points whose number is least, 0 if there is none.
pub(crate) fn closest(numbers: &[u64; POINTS], points: u32, given: Coalition) -> u32
    requires some { 1 ≤ points }
    requires few { points ≤ 17 }
    ensures value { result ≡ closest (slice_index numbers.now) (has_player given) points }
    ensures below { result < points }
{
    let mut p = 0;
    for t in 0..points {
        if given.contains(t) && (!given.contains(p) || numbers[t as usize] < numbers[p as usize]) {
            p = t;
        }
    }
    p
}
