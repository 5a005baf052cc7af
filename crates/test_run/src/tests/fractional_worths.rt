//! Games of version 2, whose numbers may be fraction texts.
use super::{FAMILIES, expect_checked, expect_runs};
use std::test::Fail;

// The two of the first game together have more than alone, by 1/3.
const CHECKED: &str = r#"
{"game":{"class":"table","players":2,"version":2,"worths":["1/2","1/3","7/6"]}}
  => .."shares":["2/3","1/2"]}
{"game":{"class":"table","players":2,"version":2,"worths":["1/65536",0,1]}}
  => .."shares":["65537/131072","65535/131072"]}
{"game":{"claims":["100/3","200/3",100],"class":"bankruptcy","estate":"200/3","version":2}}
  => .."shares":["50/3","25","25"]}
"#;

const LEVEL: &str = r#"
{"game":{"class":"table","players":2,"version":2,"worths":["1/2","1/3","7/6"]}}
  => {"answer":"nucleolus","certificate":{"levels":[{"bounds":[],"coalitions":[[[1],1],[[2],1]],"earlier":[],
  "excess":"-1/6","total":1}],..
"#;

const RUNS: &str = r#"
nucleolus {"game":{"class":"table","players":2,"version":2,"worths":["1/65537",0,1]}}
  => Refused {"number":5,"refused":"Number"}
bird {"game":{"class":"tree","matrix":[[0,"1/2"],["1/2",0]],"version":2}}
  => Done {"answer":"bird","shares":["1/2"],"tree":[[0,1,"1/2"]]}
bird {"game":{"class":"tree","matrix":[[0,2],[2,0]],"version":2}}
  => Done {"answer":"bird","shares":["2"],"tree":[[0,1,2]]}
propose {"game":{"class":"table","players":2,"version":2,"worths":["1/2","1/3","7/6"]},"shares":["1/3","5/6"]}
  => Negative {"answer":"blocked","coalition":[1],"excess":"1/6"}
propose {"game":{"class":"table","players":2,"version":2,"worths":["1/2","1/3","7/6"]},"shares":["1/3","1/3"]}
  => Negative {"answer":"not efficient","sum":"2/3","total":"7/6"}
nucleolus {"game":{"class":"table","players":2,"version":2,"worths":["1/2","1/3","1/6"]}}
  => Negative {"answer":"no imputation","singles":"5/6","total":"1/6"}
shapley {"game":{"class":"airport","costs":["1/2",1],"version":2}}
  => Done {"answer":"shapley","shares":["1/4","3/4"]}
core {"game":{"class":"table","players":2,"version":2,"worths":["1/2","1/3","1/6"]}}
  => Negative {"against":"1/6","answer":"empty core","collection":[[[1],1],[[2],1]],"k":1,"value":"5/6"}
check {"answer":"nucleolus","certificate":{"levels":[{"bounds":[],"coalitions":[[[1],1],[[2],1]],"earlier":[],
  "excess":"-1/6","total":1}],"mode":"span"},"game":{"class":"table","players":2,"version":2,"worths":["1/2","1/3",
  "7/6"]},"shares":["2/3","1/2"]}
  => Done {"answer":"yes"}
check {"answer":"nucleolus","certificate":{"levels":[{"bounds":[],"coalitions":[[[1],1],[[2],1]],"earlier":[],
  "excess":"-1","total":1}],"mode":"span"},"game":{"class":"table","players":2,"version":2,"worths":["1/2","1/3",
  "7/6"]},"shares":["2/3","1/2"]}
  => Negative {"answer":"no","coalition":[1],"level":1,"reason":3}
matching {"game":{"class":"market","matrix":[["5/2"],["3/2"]],"version":2}}
  => Done {"answer":"matching","buyers best":["1","0","3/2"],"pairs":[[1,3]],"sellers best":["0","0","5/2"],
  "value":"5/2"}
convex {"game":{"class":"table","players":2,"version":2,"worths":["1/2","1/3","1/6"]}}
  => Negative {"answer":"not convex","deficit":"2/3","i":1,"j":2,"set":[]}
kernel {"game":{"class":"table","players":2,"version":2,"worths":["1/2","1/3","7/6"]},"shares":["1/3","5/6"]}
  => Negative {"answer":"not prekernel","i":1,"ij":"1/6","j":2,"ji":"-1/2"}
shapley {"game":{"class":"voting","quota":5,"version":2,"weights":[4,2,1]}}
  => Done {"answer":"shapley","shares":["2/3","1/6","1/6"]}
shapley {"game":{"class":"voting","quota":"5","version":2,"weights":[4,2,1]}}
  => Refused {"number":3,"refused":"Shape"}
"#;

#[test]
fn each_answer_is_over_the_scale(rt: HostRuntime) -> Result<(), Fail> {
    expect_runs(&rt, rt.alloc(), RUNS)?;
    expect_checked(&rt, rt.alloc(), &["nucleolus"], LEVEL)?;
    expect_checked(&rt, rt.alloc(), FAMILIES, CHECKED)
}
