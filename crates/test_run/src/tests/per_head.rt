//! Excess per head.
use super::{FAMILIES, expect_checked, expect_runs};
use std::test::Fail;

// The pair that is worth half gets more per head.
const LEVEL: &str = r#"
{"game":{"class":"table","excess":"per-head","players":3,"worths":[0,0,6,0,0,0,12]}}
  => {"answer":"nucleolus","certificate":{"levels":[{"bounds":[],"coalitions":[[[1,2],1],[[3],1]],"earlier":[],
  "excess":"-2","total":1},.."shares":["5","5","2"]}
"#;

// Each class is solved per head. Of the first game, the pair gets as much in the other family.
const CHECKED: &str = r#"
{"game":{"class":"table","excess":"per-head","players":3,"worths":[0,0,6,0,0,0,12]}}
  => .."shares":["5","5","2"]}
{"game":{"class":"airport","costs":[2,4,6],"excess":"per-head"}}
  => ..
{"game":{"claims":[100,200,300],"class":"bankruptcy","estate":400,"excess":"per-head"}}
  => ..
{"game":{"class":"cost-table","excess":"per-head","players":3,"worths":[2,2,3,2,3,3,4]}}
  => ..
{"game":{"class":"tree","excess":"per-head","matrix":[[0,5,6],[5,0,2],[6,2,0]]}}
  => ..
{"game":{"class":"assignment","excess":"per-head","matrix":[[4,3],[2,1]]}}
  => ..
{"game":{"class":"airport","costs":[1,2,3,4,5,6,7,8],"excess":"per-head"}}
  => ..
"#;

// Of the game of nine costs the program answers the nucleolus with plain excess alone.
const RUNS: &str = r#"
check {"answer":"nucleolus","certificate":{"levels":[{"bounds":[],"coalitions":[[[1,2],1],[[3],1]],"earlier":[],
  "excess":"-2","total":1},{"bounds":[],"coalitions":[[[1,3],1],[[2,3],1]],"earlier":[[[3],-1]],"excess":"-7/2",
  "total":1}],"mode":"span"},"game":{"class":"table","excess":"per-head","players":3,"worths":[0,0,6,0,0,0,12]},
  "shares":["5","5","2"]}
  => Done {"answer":"yes"}
check {"answer":"nucleolus","certificate":{"levels":[{"bounds":[],"coalitions":[[[1,2],1],[[3],1]],"earlier":[],
  "excess":"-2","total":1},{"bounds":[],"coalitions":[[[1,3],1],[[2,3],1]],"earlier":[[[3],-1]],"excess":"-7/2",
  "total":1}],"mode":"span"},"game":{"class":"table","excess":"per-head","players":3,"worths":[0,0,6,0,0,0,12]},
  "shares":["9/2","9/2","3"]}
  => Negative {"answer":"no","coalition":[1,2],"level":1,"reason":3}
check {"answer":"nucleolus","certificate":{"levels":[{"bounds":[],"coalitions":[[[1,2],1],[[3],1]],"earlier":[],
  "excess":"-2","total":1},{"bounds":[],"coalitions":[[[1,3],1],[[2,3],1]],"earlier":[[[3],-1]],"excess":"-7/2",
  "total":1}],"mode":"span"},"game":{"class":"table","excess":"plain","players":3,"worths":[0,0,6,0,0,0,12]},
  "shares":["5","5","2"]}
  => Negative {"answer":"no","coalition":[1,2],"level":1,"reason":3}
check {"answer":"nucleolus","certificate":{"levels":[],"mode":"players"},"game":{"class":"airport","costs":[1,1,1,1,1,1,
  1,1,1,1,1,1,1,1,1,1,1],"excess":"per-head"},"shares":[1,0,0,0,0,0,0,0,0,0,0,0,0,0,0,0,0]}
  => Usage {"usage":"players"}
nucleolus {"game":{"class":"airport","costs":[1,2,3,4,5,6,7,8,9],"excess":"per-head"}}
  => Usage {"usage":"players"}
prenucleolus {"game":{"class":"airport","costs":[1,2,3,4,5,6,7,8,9],"excess":"per-head"}}
  => Usage {"usage":"players"}
core {"game":{"class":"airport","costs":[2,4,6],"excess":"per-head"}}
  => Done {"answer":"core point","shares":["1","3/2","7/2"]}
propose {"game":{"class":"table","excess":"per-head","players":3,"worths":[0,0,6,0,0,0,6]},"shares":[1,1,4]}
  => Negative {"answer":"blocked","coalition":[1,2],"excess":"4"}
nucleolus {"game":{"class":"airport","costs":[2,4,6],"excess":"half"}}
  => Refused {"number":3,"refused":"Shape"}
"#;

#[test]
fn the_nucleolus_and_its_certificate_alone_go_per_head(rt: HostRuntime) -> Result<(), Fail> {
    expect_runs(&rt, rt.alloc(), RUNS)?;
    expect_checked(&rt, rt.alloc(), &["nucleolus"], LEVEL)?;
    expect_checked(&rt, rt.alloc(), FAMILIES, CHECKED)
}
