//! Weighted voting games.
use super::{FAMILIES, expect_checked, expect_runs};
use std::test::Fail;

// The shares are those of a dictator. A command that needs none doesn't look at them.
const SEVENTEEN: &str = concat!(
    r#"{"game":{"class":"voting","quota":9,"weights":[1,1,1,1,1,1,1,1,1,1,1,1,1,1,1,1,1]},"#,
    r#""shares":[1,0,0,0,0,0,0,0,0,0,0,0,0,0,0,0,0]}"#,
);

// Among the voters are five of weight 7 and ten of weight 1. If all 32 have to agree, they share alike, and the
// certificate has one level, of the players alone. SEVENTEEN stands for its document.
const RUNS: &str = r#"
shapley {"game":{"class":"voting","quota":5,"weights":[4,2,1]}}
  => Done {"answer":"shapley","shares":["2/3","1/6","1/6"]}
shapley {"game":{"class":"voting","quota":39,"weights":[7,7,7,7,7,1,1,1,1,1,1,1,1,1,1]}}
  => Done {"answer":"shapley","shares":["421/2145","421/2145","421/2145","421/2145","421/2145","4/2145","4/2145",
  "4/2145","4/2145","4/2145","4/2145","4/2145","4/2145","4/2145","4/2145"]}
shapley {"game":{"class":"voting","quota":17,"weights":[1,1,1,1,1,1,1,1,1,1,1,1,1,1,1,1,1,1,1,1,1,1,1,1,1,1,1,1,1,1,1,
  1]}}
  => Done {"answer":"shapley","shares":["1/32","1/32","1/32","1/32","1/32","1/32","1/32","1/32","1/32","1/32","1/32",
  "1/32","1/32","1/32","1/32","1/32","1/32","1/32","1/32","1/32","1/32","1/32","1/32","1/32","1/32","1/32","1/32",
  "1/32","1/32","1/32","1/32","1/32"]}
propose {"game":{"class":"voting","quota":5,"weights":[4,2,1]},"shares":[0,"1/2","1/2"]}
  => Negative {"answer":"blocked","coalition":[1,2],"excess":"1/2"}
propose {"game":{"class":"voting","quota":5,"weights":[4,2,1]},"shares":[1,0,0]}
  => Done {"answer":"core"}
propose SEVENTEEN
  => Negative {"answer":"blocked","coalition":[2,3,4,5,6,7,8,9,10],"excess":"1"}
propose {"game":{"class":"voting","quota":0,"weights":[1]},"shares":[]}
  => Refused {"number":13,"refused":"Quota"}
propose {"game":{"class":"voting","names":[],"quota":0,"weights":[1]},"shares":[]}
  => Refused {"number":6,"refused":"Names"}
propose {"game":{"class":"voting","quota":1,"weights":[1]},"shares":[]}
  => Refused {"number":10,"refused":"Proposal"}
check {"answer":"nucleolus","certificate":{"levels":[{"bounds":[],"coalitions":[[[1],1],[[2],1],[[3],1],[[4],1],[[5],1],
  [[6],1],[[7],1],[[8],1],[[9],1],[[10],1],[[11],1],[[12],1],[[13],1],[[14],1],[[15],1],[[16],1],[[17],1],[[18],1],
  [[19],1],[[20],1],[[21],1],[[22],1],[[23],1],[[24],1],[[25],1],[[26],1],[[27],1],[[28],1],[[29],1],[[30],1],[[31],1],
  [[32],1]],"earlier":[],"excess":"-1/32","total":1}],"mode":"players"},"game":{"class":"voting","quota":32,
  "weights":[1,1,1,1,1,1,1,1,1,1,1,1,1,1,1,1,1,1,1,1,1,1,1,1,1,1,1,1,1,1,1,1]},"shares":["1/32","1/32","1/32","1/32",
  "1/32","1/32","1/32","1/32","1/32","1/32","1/32","1/32","1/32","1/32","1/32","1/32","1/32","1/32","1/32","1/32",
  "1/32","1/32","1/32","1/32","1/32","1/32","1/32","1/32","1/32","1/32","1/32","1/32"]}
  => Done {"answer":"yes"}
nucleolus SEVENTEEN
  => Usage {"usage":"players"}
prenucleolus SEVENTEEN
  => Usage {"usage":"players"}
core SEVENTEEN
  => Usage {"usage":"players"}
convex SEVENTEEN
  => Usage {"usage":"players"}
kernel SEVENTEEN
  => Usage {"usage":"players"}
bird SEVENTEEN
  => Usage {"usage":"class"}
core {"game":{"class":"voting","quota":5,"weights":[4,2,1]}}
  => Done {"answer":"core point","shares":["1","0","0"]}
"#;

// Who can block gets all.
const CHECKED: &str = r#"
{"game":{"class":"voting","quota":5,"weights":[4,2,1]}}
  => .."shares":["1","0","0"]}
"#;

#[test]
fn what_the_commands_say_of_voters(rt: HostRuntime) -> Result<(), Fail> {
    let runs = RUNS.replace(rt.alloc(), "SEVENTEEN", SEVENTEEN)?;
    expect_runs(&rt, rt.alloc(), runs.as_str())?;
    expect_checked(&rt, rt.alloc(), FAMILIES, CHECKED)
}
