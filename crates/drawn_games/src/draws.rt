//! The numbers of the generator: a linear congruential generator (Lehmer 1951) with the constants of the example of
//! `rand` in the C standard.
ghost use Rattle.std.specs.Prelude.{◌≡◌, ◌^◌, ◌<◌, map, pos, IfOk};
ghost use Rattle.std.specs.List.{range_with_len};
ghost use Rattle.drawn_games.specs.Draws.{next_state, state, long_of, short_of, short_draw};
ghost use Rattle.drawn_games.specs.Numbers.{long_draws};

use std::alloc::{AllocError, Global};

/// The state of the generator, below 2^31.
#[derive(Drop)]
pub(crate) struct Draws {
    state: u32,
}

impl Draws {
    /// The generator that begins with a seed.
    pub(crate) fn new(seed: u32) -> Draws
        requires { seed < 2 ^ 31 }
        ensures { result.state ≡ state seed 0 }
    {
        Draws { state: seed }
    }

    /// The next number, below 2^20.
    pub(crate) fn long(&mut self) -> u32
        requires { self.old.state < 2 ^ 31 }
        ensures state { self.new.state ≡ next_state self.old.state }
        ensures value { result ≡ long_of self.new.state }
        ensures small { result < 2 ^ 20 }
        ensures within { self.new.state < 2 ^ 31 }
    {
        let next = (u64::from(self.state) * 1103515245 + 12345) % (1 << 31);
        self.state = next as u32;
        self.state / 2048
    }

    /// The next number, below 2^16.
    pub(crate) fn short(&mut self) -> u32
        requires { self.old.state < 2 ^ 31 }
        ensures state { self.new.state ≡ next_state self.old.state }
        ensures value { result ≡ short_of self.new.state }
        ensures small { result < 2 ^ 16 }
        ensures within { self.new.state < 2 ^ 31 }
    {
        self.long() / 16
    }
}

/// That many numbers below 2^20.
pub(crate) fn long_draws(alloc: Global, count: u32, seed: u32) -> Result<Vec<i64>, AllocError>
    requires { seed < 2 ^ 31 }
    ensures { IfOk result (λ v. v.items ≡ map pos (long_draws seed count)) }
{
    let mut draws = Draws::new(seed);
    let mut found = Vec::new(alloc);
    for k in 0..count {
        found.push(i64::from(draws.long()))?;
    }
    Ok(found)
}

/// That many numbers below 2^16.
pub(crate) fn short_draws(alloc: Global, count: u32, seed: u32) -> Result<Vec<u32>, AllocError>
    requires { seed < 2 ^ 31 }
    ensures { IfOk result (λ v. v.items ≡ map (short_draw seed) (range_with_len 0 count)) }
{
    let mut draws = Draws::new(seed);
    let mut found = Vec::new(alloc);
    for k in 0..count {
        found.push(draws.short())?;
    }
    Ok(found)
}
