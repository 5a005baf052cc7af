//! Games that are convex and games that aren't, and games that have too many players to be tested.
use super::expect_runs;
use std::test::Fail;

const RUNS: &str = r#"
convex {"game":{"class":"airport","costs":[2,4,6]}}
  => Done {"answer":"convex","marginal":["2","2","2"],"shapley":["2/3","5/3","11/3"]}
convex {"game":{"claims":[100,200,300],"class":"bankruptcy","estate":200}}
  => Done {"answer":"convex","marginal":["0","0","200"],"shapley":["100/3","250/3","250/3"]}
convex {"game":{"class":"tree","matrix":[[0,10,10],[10,0,1],[10,1,0]]}}
  => Done {"answer":"convex","marginal":["10","1"],"shapley":["11/2","11/2"]}
convex {"game":{"class":"table","players":1,"worths":[5]}}
  => Done {"answer":"convex","marginal":["5"],"shapley":["5"]}
convex {"game":{"class":"table","players":3,"worths":[0,0,1,0,1,1,1]}}
  => Negative {"answer":"not convex","deficit":"1","i":2,"j":3,"set":[1]}
convex {"game":{"class":"cost-table","players":2,"worths":[1,1,3]}}
  => Negative {"answer":"not convex","deficit":"1","i":1,"j":2,"set":[]}
convex {"game":{"class":"assignment","matrix":[[5,8],[7,6]]}}
  => Negative {"answer":"not convex","deficit":"5","i":3,"j":4,"set":[1]}
convex {"game":{"class":"airport","costs":[1,1,1,1,1,1,1,1,1,1,1,1,1,1,1,1,1]}}
  => Usage {"usage":"players"}
convex {"game":{"claims":[1,1,1,1,1,1,1,1,1,1,1,1,1,1,1,1,1],"class":"bankruptcy","estate":17}}
  => Usage {"usage":"players"}
"#;

#[test]
fn convex_games_have_their_shares_and_others_their_first_failure(
    rt: HostRuntime,
) -> Result<(), Fail> {
    expect_runs(&rt, rt.alloc(), RUNS)
}
