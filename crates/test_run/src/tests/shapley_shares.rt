//! Shapley shares, and games that have too many players for them.
use super::expect_runs;
use std::test::Fail;

const RUNS: &str = r#"
shapley {"game":{"class":"table","players":3,"worths":[0,0,1,0,1,1,1]}}
  => Done {"answer":"shapley","shares":["1/3","1/3","1/3"]}
shapley {"game":{"class":"airport","costs":[2,4,6]}}
  => Done {"answer":"shapley","shares":["2/3","5/3","11/3"]}
shapley {"game":{"class":"cost-table","default":18,"names":["Sales","Ops","Legal","IT","HR"],"players":5,
  "sparse":[[["Sales"],6],[["Ops"],6],[["Legal"],6],[["IT"],6],[["HR"],6],[["Sales","Ops","Legal","IT","HR"],20]]}}
  => Done {"answer":"shapley","shares":["4","4","4","4","4"]}
shapley {"game":{"class":"airport","costs":[32,32,32,32,32,32,32,32,32,32,32,32,32,32,32,32,32,32,32,32,32,32,32,32,32,
  32,32,32,32,32,32,32]}}
  => Done {"answer":"shapley","shares":["1","1","1","1","1","1","1","1","1","1","1","1","1","1","1","1","1","1","1","1",
  "1","1","1","1","1","1","1","1","1","1","1","1"]}
shapley {"game":{"class":"airport","costs":[32,32,32,32,32,32,32,32,32,32,32,32,32,32,32,32,32,32,32,32,32,32,32,32,32,
  32,32,32,32,32,32,32,32]}}
  => Usage {"usage":"players"}
shapley {"game":{"claims":[1,1,1,1,1,1,1,1,1,1,1,1,1,1,1,1,1],"class":"bankruptcy","estate":17}}
  => Usage {"usage":"players"}
"#;

#[test]
fn prints_shapley_shares_of_games_that_are_not_too_large(rt: HostRuntime) -> Result<(), Fail> {
    expect_runs(&rt, rt.alloc(), RUNS)
}
