//! Proposals that are judged.
use super::expect_runs;
use std::test::Fail;

const RUNS: &str = r#"
propose {"game":{"class":"table","players":3,"worths":[0,0,1,0,1,1,1]},"shares":[1,0,0]}
  => Negative {"answer":"blocked","coalition":[2,3],"excess":"1"}
propose {"game":{"class":"table","players":3,"worths":[0,0,1,0,1,1,1]},"shares":[1,1,0]}
  => Negative {"answer":"not efficient","sum":"2","total":"1"}
propose {"game":{"class":"table","players":2,"worths":[1,2,7]},"shares":[3,4]}
  => Done {"answer":"core"}
propose {"game":{"class":"table","players":1,"worths":[5]},"shares":[5]}
  => Done {"answer":"core"}
propose {"game":{"class":"table","players":3,"worths":[0,0,1,0,1,1,1]},"shares":["1/3","1/3","1/3"]}
  => Negative {"answer":"blocked","coalition":[1,2],"excess":"1/3"}
propose {"game":{"class":"airport","costs":[2,4,6]},"shares":[3,1,2]}
  => Negative {"answer":"blocked","coalition":[1],"excess":"1"}
propose {"game":{"class":"airport","costs":[2,4,6]},"shares":[3,1,"1/2"]}
  => Negative {"answer":"not efficient","sum":"9/2","total":"6"}
propose {"game":{"class":"bankruptcy","claims":[100,200,300],"estate":200},"shares":[110,45,45]}
  => Negative {"answer":"blocked","coalition":[2,3],"excess":"10"}
propose {"game":{"class":"cost-table","default":18,"names":["Sales","Ops","Legal","IT","HR"],"players":5,
  "sparse":[[["Sales"],6],[["Ops"],6],[["Legal"],6],[["IT"],6],[["HR"],6],[["Sales","Ops","Legal","IT","HR"],20]]},
  "shares":[6,5,4,3,2]}
  => Done {"answer":"core"}
propose {"game":{"class":"cost-table","default":18,"names":["Sales","Ops","Legal","IT","HR"],"players":5,
  "sparse":[[["Sales"],6],[["Ops"],6],[["Legal"],6],[["IT"],6],[["HR"],6],[["Sales","Ops","Legal","IT","HR"],20]]},
  "shares":[7,5,4,2,2]}
  => Negative {"answer":"blocked","coalition":[1],"excess":"1"}
propose {"game":{"class":"table","names":["a"],"players":1,"worths":[5]},"shares":["5"]}
  => Done {"answer":"core"}
propose {"answer":1,"game":{"class":"table","players":1,"worths":[5]},"shares":[5]}
  => Done {"answer":"core"}
propose {"game":{"class":"table","players":2,"worths":[0,0,1099511627775]},"shares":["1099511627775/2",
  "1099511627775/2"]}
  => Done {"answer":"core"}
propose {"game":{"class":"table","players":3,"sparse":[[[1,2],6],[[3,2,1],12]]},"shares":["9/2","9/2",3]}
  => Done {"answer":"core"}
"#;

#[test]
fn judges_proposals(rt: HostRuntime) -> Result<(), Fail> {
    expect_runs(&rt, rt.alloc(), RUNS)
}
