//! Sums over coalitions of a number for each player, in 64 bits, by two tables: one for the members among the first
//! eight players and one for those among the next eight.

ghost use Rattle.std.specs.Prelude.{◌≡◌, ℕ, ◌*◌, ◌+◌, ◌^◌, ◌<◌, ◌≤◌, pos, unsigned_abs, slice_index_or};
ghost use Rattle.spans.specs.Sums.{number_at, IsEightSum, AreEightSums};

/// The sums over each coalition of the first eight players, and over each of the next eight.
#[derive(Drop)]
pub struct PlayerSums {
    pub low: [i64; 256],
    pub high: [i64; 256],
}

/// Puts the sums over the coalitions with one more of the eight players from `first` on behind those over the
/// coalitions of the players before it.
fn add_player(sums: &mut [i64; 256], numbers: &[i64; 16], first: u32, player: u32)
    requires first { first ≤ 8 }
    requires player { player < 8 }
    requires numbers { (i : ℕ) → unsigned_abs (number_at numbers.now i) ≤ 2 ^ 58 }
    requires before { (s : ℕ) → s < 2 ^ player → IsEightSum numbers.now first s (slice_index_or sums.old s (pos 0)) }
    ensures { (s : ℕ) → s < 2 * 2 ^ player → IsEightSum numbers.now first s (slice_index_or sums.new s (pos 0)) }
{
    let number = numbers[(first + player) as usize];
    let size = 1usize << player;
    for s in 0..size {
        sums[size + s] = sums[s] + number;
    }
}

/// Fills a table with the sums over each coalition of the eight players from `first` on.
pub fn fill_sums(sums: &mut [i64; 256], numbers: &[i64; 16], first: u32)
    requires first { first ≤ 8 }
    requires numbers { (i : ℕ) → unsigned_abs (number_at numbers.now i) ≤ 2 ^ 58 }
    ensures { (s : ℕ) → s < 256 → IsEightSum numbers.now first s (slice_index_or sums.new s (pos 0)) }
{
    sums[0] = 0;
    for player in 0..8u32 {
        add_player(sums, numbers, first, player);
    }
}

impl PlayerSums {
    /// Makes the sums over coalitions of 16 players of a number for each player, at most 2^58 in size.
    pub fn of(numbers: &[i64; 16]) -> PlayerSums
        requires { (i : ℕ) → unsigned_abs (number_at numbers.now i) ≤ 2 ^ 58 }
        ensures { AreEightSums numbers.now result.low result.high }
    {
        let mut sums = PlayerSums {
            low: [0; 256],
            high: [0; 256],
        };
        fill_sums(&mut sums.low, numbers, 0);
        fill_sums(&mut sums.high, numbers, 8);
        sums
    }
}
