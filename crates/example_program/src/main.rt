//! Three airlines share a runway: what each pays, and whether the certificate holds.
#![tactic(auto)]

use airport::AirportGame;
use checker::{Verdict, check};
use definitions::{Family, Measure};
use nested_programs::{Found, solve};
use std::process::ExitCode;

fn main(rt: HostRuntime) -> ExitCode {
    let Ok(costs) = Vec::from_array(rt.alloc(), [2, 4, 6]) else {
        return ExitCode::from(7);
    };
    let Ok(game) = AirportGame::new(rt.alloc(), costs) else {
        return ExitCode::from(3);
    };
    match solve(rt.alloc(), &game, Family::Imputations, Measure::Plain) {
        Ok(Found::Point(shares, certificate)) => {
            match check(
                &game,
                Family::Imputations,
                Measure::Plain,
                &shares,
                &certificate,
            ) {
                Verdict::Yes => ExitCode::from(0),
                Verdict::No(_) => ExitCode::from(1),
            }
        }
        Ok(Found::NoImputation { .. }) => ExitCode::from(1),
        Err(_) => ExitCode::from(7),
    }
}
