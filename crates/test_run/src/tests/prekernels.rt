//! Shares in and outside of the prekernel.
use super::expect_runs;
use std::test::Fail;

const RUNS: &str = r#"
kernel {"game":{"class":"table","players":3,"worths":[0,0,1,0,1,1,1]},"shares":["1/3","1/3","1/3"]}
  => Done {"answer":"prekernel"}
kernel {"game":{"class":"table","players":3,"worths":[0,0,4,0,0,0,0]},"shares":[1,1,-2]}
  => Done {"answer":"prekernel"}
kernel {"game":{"class":"assignment","matrix":[[5,8],[7,6]]},"shares":["7/2","7/2","7/2","9/2"]}
  => Done {"answer":"prekernel"}
kernel {"game":{"class":"airport","costs":[2,4,6]},"shares":[1,"3/2","7/2"]}
  => Done {"answer":"prekernel"}
kernel {"game":{"class":"table","players":1,"worths":[5]},"shares":[5]}
  => Done {"answer":"prekernel"}
kernel {"game":{"class":"table","players":3,"worths":[0,0,1,0,1,1,1]},"shares":[1,0,0]}
  => Negative {"answer":"not prekernel","i":1,"ij":"0","j":2,"ji":"1"}
kernel {"game":{"class":"table","players":3,"worths":[0,0,4,0,0,0,0]},"shares":[0,0,0]}
  => Negative {"answer":"not prekernel","i":1,"ij":"4","j":3,"ji":"0"}
kernel {"game":{"class":"airport","costs":[2,4,6]},"shares":[1,2,3]}
  => Negative {"answer":"not prekernel","i":2,"ij":"-1","j":3,"ji":"-2"}
kernel {"game":{"class":"airport","costs":[2,4,6]},"shares":[3,1,1]}
  => Negative {"answer":"not efficient","sum":"5","total":"6"}
kernel {"game":{"class":"airport","costs":[1,1,1,1,1,1,1,1,1,1,1,1,1,1,1,1,1]},"shares":[1,0,0,0,0,0,0,0,0,0,0,0,0,0,0,
  0,0]}
  => Usage {"usage":"players"}
"#;

#[test]
fn of_shares_out_of_balance_the_first_two_players_are_printed(rt: HostRuntime) -> Result<(), Fail> {
    expect_runs(&rt, rt.alloc(), RUNS)
}
