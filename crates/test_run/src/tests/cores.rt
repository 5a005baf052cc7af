//! Points of the core, and the evidence that there is none.
use super::{expect_runs, said_on};
use std::test::Fail;

const RUNS: &str = r#"
core {"game":{"class":"airport","costs":[2,4,6]}}
  => Done {"answer":"core point","shares":["1","3/2","7/2"]}
core {"game":{"claims":[100,200,300],"class":"bankruptcy","estate":400}}
  => Done {"answer":"core point","shares":["50","125","225"]}
core {"game":{"class":"table","players":1,"worths":[-5]}}
  => Done {"answer":"core point","shares":["-5"]}
core {"game":{"class":"cost-table","players":2,"worths":[1,2,3]}}
  => Done {"answer":"core point","shares":["1","2"]}
core {"game":{"class":"table","players":3,"worths":[0,0,1,0,1,1,1]}}
  => Negative {"against":"2","answer":"empty core","collection":[[[1,2],1],[[1,3],1],[[2,3],1]],"k":2,"value":"3"}
core {"game":{"class":"cost-table","players":3,"worths":[6,6,6,6,6,6,12]}}
  => Negative {"against":"24","answer":"empty core","collection":[[[1,2],1],[[1,3],1],[[2,3],1]],"k":2,"value":"18"}
"#;

// Games that have more than one point.
const DEPARTMENTS: &str = concat!(
    r#"{"game":{"class":"cost-table","default":18,"names":["Sales","Ops","Legal","IT","HR"],"players":5,"#,
    r#""sparse":[[["Sales"],6],[["Ops"],6],[["Legal"],6],[["IT"],6],[["HR"],6],[["Sales","Ops","Legal","IT","#,
    r#""HR"],20]]}}"#,
);

const SIXTEEN: &str =
    r#"{"game":{"class":"table","players":16,"sparse":[[[1,2,3,4,5,6,7,8,9,10,11,12,13,14,15,16],16]]}}"#;

#[test]
fn prints_a_point_or_a_collection(rt: HostRuntime) -> Result<(), Fail> {
    expect_runs(&rt, rt.alloc(), RUNS)?;
    for input in [DEPARTMENTS, SIXTEEN] {
        let found = said_on(rt.alloc(), "core", input.as_bytes())?;
        assert!(rt;
            found.starts_with(r#"Done {"answer":"core point","shares":["#),
            "{input}"
        );
    }
    Ok(())
}
