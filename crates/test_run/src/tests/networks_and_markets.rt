//! Games of trees and assignments.
use super::{FAMILIES, expect_checked, expect_runs};
use std::test::Fail;

const RUNS: &str = r#"
bird {"game":{"class":"tree","matrix":[[0,10,10],[10,0,1],[10,1,0]]}}
  => Done {"answer":"bird","shares":["10","1"],"tree":[[0,1,10],[1,2,1]]}
core {"game":{"class":"tree","matrix":[[0,10,10],[10,0,1],[10,1,0]]}}
  => Done {"answer":"core point","shares":["10","1"]}
shapley {"game":{"class":"tree","matrix":[[0,10,10],[10,0,1],[10,1,0]]}}
  => Done {"answer":"shapley","shares":["11/2","11/2"]}
check {"answer":"nucleolus","certificate":{"levels":[{"bounds":[],"coalitions":[[[2,3],1],[[1,4],1]],"earlier":[],
  "excess":"0","total":1},{"bounds":[],"coalitions":[[[1,3],1],[[2,4],1]],"earlier":[],"excess":"-2","total":1},
  {"bounds":[],"coalitions":[[[1],1],[[3],1]],"earlier":[[[1,3],-1]],"excess":"-7/2","total":0}],"mode":"span"},
  "game":{"class":"assignment","matrix":[[5,8],[7,6]]},"shares":["7/2","7/2","7/2","9/2"]}
  => Done {"answer":"yes"}
check {"answer":"nucleolus","certificate":{"levels":[{"bounds":[],"coalitions":[[[2,3],1],[[1,4],1]],"earlier":[],
  "excess":"0","total":1},{"bounds":[],"coalitions":[[[1,3],1],[[2,4],1]],"earlier":[],"excess":"-2","total":1}],
  "mode":"span"},"game":{"class":"assignment","matrix":[[5,8],[7,6]]},"shares":["2","2","5","6"]}
  => Negative {"answer":"no","player":1,"reason":8}
propose {"game":{"class":"tree","matrix":[[0,10,10],[10,0,1],[10,1,0]]},"shares":[10,1]}
  => Done {"answer":"core"}
propose {"game":{"class":"tree","matrix":[[0,10,10],[10,0,1],[10,1,0]]},"shares":["21/2","1/2"]}
  => Negative {"answer":"blocked","coalition":[1],"excess":"1/2"}
propose {"game":{"class":"assignment","matrix":[[5,8],[7,6]]},"shares":[4,3,3,5]}
  => Negative {"answer":"blocked","coalition":[2,3],"excess":"1"}
propose {"game":{"class":"assignment","matrix":[[5,8],[7,6]]},"shares":[2,2,5,6]}
  => Done {"answer":"core"}
nucleolus {"game":{"class":"tree","matrix":[[0,1],[2,0]]}}
  => Refused {"number":9,"refused":"Matrix"}
nucleolus {"game":{"class":"assignment","matrix":[[5,8],[7]]}}
  => Refused {"number":9,"refused":"Matrix"}
bird {"game":{"class":"airport","costs":[2,4,6]}}
  => Usage {"usage":"class"}
bird {"game":{"class":"table","players":1,"worths":[5]}}
  => Usage {"usage":"class"}
bird {"game":{"class":"assignment","matrix":[[5,8],[7,6]]}}
  => Usage {"usage":"class"}
"#;

const CHECKED: &str = r#"
{"game":{"class":"tree","matrix":[[0,10,10],[10,0,1],[10,1,0]]}}
  => .."shares":["11/2","11/2"]}
{"game":{"class":"assignment","matrix":[[5,8],[7,6]]}}
  => .."shares":["7/2","7/2","7/2","9/2"]}
{"game":{"class":"tree","matrix":[[0,3],[3,0]],"names":["one"]}}
  => .."shares":["3"]}
{"game":{"class":"assignment","matrix":[[9]]}}
  => .."shares":["9/2","9/2"]}
"#;

#[test]
fn what_the_commands_say_of_networks_and_markets(rt: HostRuntime) -> Result<(), Fail> {
    expect_runs(&rt, rt.alloc(), RUNS)?;
    expect_checked(&rt, rt.alloc(), FAMILIES, CHECKED)
}
