//! Documents that are refused.
use super::{expect_runs, said_on};
use std::test::Fail;

const SHAPE: &str = r#"Refused {"number":3,"refused":"Shape"}"#;

const NOT_JSON: &str = r#"Refused {"number":2,"refused":"NotJson"}"#;

const TOO_LONG: &str = r#"Refused {"number":1,"refused":"TooLong"}"#;

const RUNS: &str = r#"
# No JSON.
propose {"game":{"class":
  => Refused {"number":2,"refused":"NotJson"}
propose {"game":{},}
  => Refused {"number":2,"refused":"NotJson"}
propose [1e999]
  => Refused {"number":2,"refused":"NotJson"}
propose => Refused {"number":2,"refused":"NotJson"}
# The first reason decides.
propose []
  => Refused {"number":3,"refused":"Shape"}
propose {"game":{"class":"table","players":1,"worths":[5]},"shares":[5],"answers":1}
  => Refused {"number":3,"refused":"Shape"}
propose {"game":{"class":"table","players":1,"worths":[5]}}
  => Refused {"number":3,"refused":"Shape"}
propose {"game":{"class":"airport","players":1,"worths":[5]},"shares":[5]}
  => Refused {"number":3,"refused":"Shape"}
propose {"game":{"players":1,"worths":[5]},"shares":[5]}
  => Refused {"number":3,"refused":"Shape"}
propose {"game":{"class":"table","players":0,"worths":[]},"shares":[]}
  => Refused {"number":4,"refused":"Players"}
propose {"game":{"class":"table","players":17,"worths":[5]},"shares":[5]}
  => Refused {"number":4,"refused":"Players"}
propose {"game":{"class":"table","players":2,"worths":[5,6]},"shares":[5,6]}
  => Refused {"number":4,"refused":"Players"}
propose {"game":{"class":"table","players":1,"worths":[1099511627776]},"shares":[5]}
  => Refused {"number":5,"refused":"Number"}
propose {"game":{"class":"table","players":1,"worths":[5.0]},"shares":[5]}
  => Refused {"number":5,"refused":"Number"}
propose {"game":{"class":"table","players":1,"worths":[5]},"shares":["05"]}
  => Refused {"number":5,"refused":"Number"}
propose {"game":{"class":"table","names":["a","a"],"players":2,"worths":[1,2,7]},"shares":[3,4]}
  => Refused {"number":6,"refused":"Names"}
propose {"game":{"class":"table","default":0,"players":2,"sparse":[[[1,1],7]]},"shares":[3,4]}
  => Refused {"number":7,"refused":"Coalition"}
propose {"game":{"class":"bankruptcy","claims":[1,2],"estate":4},"shares":[2,2]}
  => Refused {"number":8,"refused":"Estate"}
propose {"game":{"class":"table","players":1,"worths":[5]},"shares":[5,6]}
  => Refused {"number":10,"refused":"Proposal"}
propose {"game":{"class":"table","players":1,"worths":[5]},"shares":["1/9223372036854775809"]}
  => Refused {"number":11,"refused":"TooFine"}
propose {"game":{"class":"table","players":3,"sparse":[[[1,2],6],[[3,2,1],12],[[2,1],6]]},"shares":[4,4,4]}
  => Refused {"number":7,"refused":"Coalition"}
propose {"game":{"class":"table","players":3,"worths":[0,0,1,0,1,1]},"shares":[1,0,0]}
  => Refused {"number":4,"refused":"Players"}
propose {"game":{"class":"table","players":2,"worths":[0,0,1099511627776]},"shares":[1,0]}
  => Refused {"number":5,"refused":"Number"}
propose {"game":{"claims":[100,200,300],"class":"bankruptcy","estate":200},"shares":["2/4",0,0]}
  => Refused {"number":5,"refused":"Number"}
propose {"game":{"claims":[100,200,300],"class":"bankruptcy","estate":200},"shares":[100,100]}
  => Refused {"number":10,"refused":"Proposal"}
propose {"game":{"clas":"airport","costs":[2,4,6]},"shares":[1,2,3]}
  => Refused {"number":3,"refused":"Shape"}
"#;

#[test]
fn refuses_each_for_its_first_reason(rt: HostRuntime) -> Result<(), Fail> {
    expect_runs(&rt, rt.alloc(), RUNS)?;
    let no_text = said_on(rt.alloc(), "propose", b"\"\xff\"".as_slice())?;
    assert_eq!(rt; no_text.as_str(), NOT_JSON);
    Ok(())
}

// A line of `nucleolus` without its game.
const FRONT: &str = concat!(
    r#"{"answer":"nucleolus","certificate":{"levels":[{"bounds":[],"coalitions":[[[1],1],[[2,3],1]],"earlier":[],"#,
    r#""excess":"-1","total":1},{"bounds":[],"coalitions":[[[1,2],1],[[1,3],1]],"earlier":[[[1],-1]],"#,
    r#""excess":"-3/2","total":1}],"mode":"players"},"game":"#,
);

const BACK: &str = r#","shares":["1","3/2","7/2"]}"#;

#[test]
fn refuses_what_is_nested_deeper_than_is_read(rt: HostRuntime) -> Result<(), Fail> {
    let alloc = rt.alloc();
    for &(command, front, depth, back, wanted) in &[
        ("propose", "", 127, "", SHAPE),
        ("propose", "", 128, "", NOT_JSON),
        ("propose", "", 200, "", NOT_JSON),
        ("check", FRONT, 200, BACK, NOT_JSON),
    ] {
        let (open, close) = ("[".repeat(alloc, depth)?, "]".repeat(alloc, depth)?);
        let input = format!(in alloc; "{front}{open}{close}{back}")?;
        let found = said_on(alloc, command, input.as_bytes())?;
        assert_eq!(rt; found.as_str(), wanted, "{command} of {depth}");
    }
    Ok(())
}

#[test]
fn refuses_one_byte_past_the_limit_and_not_the_limit_itself(rt: HostRuntime) -> Result<(), Fail> {
    for &(command, limit) in &[
        ("propose", 2_097_152),
        ("nucleolus", 2_097_152),
        ("prenucleolus", 2_097_152),
        ("check", 8_388_608),
    ] {
        let mut blanks = vec![in rt.alloc(); b' '; limit]?;
        let read = said_on(rt.alloc(), command, &blanks)?;
        blanks.push(b' ')?;
        let refused = said_on(rt.alloc(), command, &blanks)?;
        assert_eq!(rt;
            (read.as_str(), refused.as_str()),
            (NOT_JSON, TOO_LONG),
            "{command}"
        );
    }
    Ok(())
}
