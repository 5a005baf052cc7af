//! The nucleolus of tables and of cost tables, its certificate read back, and games without one.
use super::{FAMILIES, expect_checked, expect_runs};
use std::test::Fail;

const RUNS: &str = r#"
nucleolus {"game":{"class":"table","players":1,"worths":[5]}}
  => Done {"answer":"nucleolus","certificate":{"levels":[],"mode":"span"},"game":{"class":"table","players":1,
  "worths":[5]},"shares":["5"]}
nucleolus {"game":{"class":"table","players":2,"worths":[3,3,5]}}
  => Negative {"answer":"no imputation","singles":"6","total":"5"}
nucleolus {"game":{"class":"cost-table","players":2,"worths":[1,1,5]}}
  => Negative {"answer":"no imputation","singles":"2","total":"5"}
nucleolus {"game":{"class":"table","players":2,"worths":[0,0,1099511627776]}}
  => Refused {"number":5,"refused":"Number"}
prenucleolus {"game":{"class":"table","players":2,"worths":[0,0,1099511627776]}}
  => Refused {"number":5,"refused":"Number"}
nucleolus {"game":{"class":"table","players":3,"worths":[0,0,0,0,0,0]}}
  => Refused {"number":4,"refused":"Players"}
prenucleolus {"game":{"class":"table","players":3,"worths":[0,0,0,0,0,0]}}
  => Refused {"number":4,"refused":"Players"}
nucleolus {"game":{"class":
  => Refused {"number":2,"refused":"NotJson"}
prenucleolus {"game":{"class":
  => Refused {"number":2,"refused":"NotJson"}
nucleolus {"game":{"claims":[100,200,300],"class":"bankruptcy","estate":601}}
  => Refused {"number":8,"refused":"Estate"}
prenucleolus {"game":{"claims":[100,200,300],"class":"bankruptcy","estate":601}}
  => Refused {"number":8,"refused":"Estate"}
nucleolus {"game":{"class":"table","players":3,"sparse":[[[1,2],6],[[3,2,1],12],[[2,1],6]]}}
  => Refused {"number":7,"refused":"Coalition"}
prenucleolus {"game":{"class":"table","players":3,"sparse":[[[1,2],6],[[3,2,1],12],[[2,1],6]]}}
  => Refused {"number":7,"refused":"Coalition"}
"#;

const OF_BOTH: &str = r#"
{"game":{"class":"cost-table","default":18,"names":["Sales","Ops","Legal","IT","HR"],"players":5,"sparse":[[["Sales"],
  6],[["Ops"],6],[["Legal"],6],[["IT"],6],[["HR"],6],[["Sales","Ops","Legal","IT","HR"],20]]}}
  => .."shares":["4","4","4","4","4"]}
"#;

const OF_IMPUTATIONS: &str = r#"
{"game":{"class":"table","players":2,"worths":[1,2,7]}}
  => .."shares":["3","4"]}
{"game":{"class":"table","players":1,"worths":[5]}}
  => .."shares":["5"]}
{"game":{"class":"table","players":3,"worths":[0,0,1,0,1,1,1]}}
  => .."shares":["1/3","1/3","1/3"]}
{"game":{"class":"table","players":3,"worths":[0,0,4,0,0,0,0]}}
  => .."shares":["0","0","0"]}
{"game":{"class":"table","players":2,"worths":[0,0,1099511627775]}}
  => .."shares":["1099511627775/2","1099511627775/2"]}
{"game":{"class":"table","players":3,"sparse":[[[1,2],6],[[3,2,1],12]]}}
  => .."shares":["9/2","9/2","3"]}
{"game":{"class":"table","players":10,"sparse":[[[1,2,3,4,5,6,7,8,9,10],1099511627775]]}}
  => .."shares":["219902325555/2","219902325555/2","219902325555/2","219902325555/2","219902325555/2","219902325555/2",
  "219902325555/2","219902325555/2","219902325555/2","219902325555/2"]}
{"game":{"class":"table","players":16,"sparse":[[[1,2,3,4,5,6,7,8,9,10,11,12,13,14,15,16],16]]}}
  => .."shares":["1","1","1","1","1","1","1","1","1","1","1","1","1","1","1","1"]}
"#;

const OF_PREIMPUTATIONS: &str = r#"
{"game":{"class":"table","players":3,"worths":[0,0,4,0,0,0,0]}}
  => .."shares":["1","1","-2"]}
{"game":{"class":"table","players":2,"worths":[3,3,5]}}
  => .."shares":["5/2","5/2"]}
{"game":{"class":"cost-table","players":2,"worths":[1,1,5]}}
  => .."shares":["5/2","5/2"]}
"#;

#[test]
fn prints_shares_of_tables_that_are_checked(rt: HostRuntime) -> Result<(), Fail> {
    expect_checked(&rt, rt.alloc(), FAMILIES, OF_BOTH)?;
    expect_checked(&rt, rt.alloc(), &["nucleolus"], OF_IMPUTATIONS)?;
    expect_checked(&rt, rt.alloc(), &["prenucleolus"], OF_PREIMPUTATIONS)
}

#[test]
fn players_who_have_more_alone_have_no_imputation_and_one_has_no_level(
    rt: HostRuntime,
) -> Result<(), Fail> {
    expect_runs(&rt, rt.alloc(), RUNS)
}
