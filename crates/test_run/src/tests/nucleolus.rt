//! The nucleolus of airport and bankruptcy games, and its certificate read back.
use super::{FAMILIES, expect_checked, expect_runs};
use std::test::Fail;

const RUNS: &str = r#"
nucleolus {"game":{"class":"airport","costs":[2,4,6]}}
  => Done {"answer":"nucleolus","certificate":{"levels":[{"bounds":[],"coalitions":[[[1],1],[[2,3],1]],"earlier":[],
  "excess":"-1","total":1},{"bounds":[],"coalitions":[[[1,2],1],[[1,3],1]],"earlier":[[[1],-1]],"excess":"-3/2",
  "total":1}],"mode":"players"},"game":{"class":"airport","costs":[2,4,6]},"shares":["1","3/2","7/2"]}
nucleolus {"game":{"class":"airport","costs":[0,0,3]}}
  => Done {"answer":"nucleolus","certificate":{"levels":[{"bounds":[],"coalitions":[[[1,2],1],[[1,3],1],[[2,3],1]],
  "earlier":[],"excess":"0","total":2}],"mode":"players"},"game":{"class":"airport","costs":[0,0,3]},"shares":["0","0",
  "3"]}
nucleolus {"game":{"claims":[100,200,300],"class":"bankruptcy","estate":400}}
  => Done {"answer":"nucleolus","certificate":{"levels":[{"bounds":[],"coalitions":[[[1],1],[[2,3],1]],"earlier":[],
  "excess":"-50","total":1},{"bounds":[],"coalitions":[[[1,2],1],[[1,3],1]],"earlier":[[[2,3],1]],"excess":"-75",
  "total":2}],"mode":"players"},"game":{"claims":[100,200,300],"class":"bankruptcy","estate":400},"shares":["50","125",
  "225"]}
nucleolus {"game":{"claims":[100,200,300],"class":"bankruptcy","estate":0}}
  => Done {"answer":"nucleolus","certificate":{"levels":[{"bounds":[],"coalitions":[[[1],1],[[2],1],[[1,2],1],[[3],1],
  [[1,3],1],[[2,3],1]],"earlier":[],"excess":"0","total":3}],"mode":"players"},"game":{"claims":[100,200,300],
  "class":"bankruptcy","estate":0},"shares":["0","0","0"]}
nucleolus {"game":{"class":"airport","costs":[5]}}
  => Done {"answer":"nucleolus","certificate":{"levels":[],"mode":"players"},"game":{"class":"airport","costs":[5]},
  "shares":["5"]}
# The scheme names both families, and the line keeps the document of the game.
prenucleolus {"shares":[1.5],"game":{"names":["a","b"],"costs":[0,3],"class":"airport"},"answer":null}
  => Done {"answer":"prenucleolus","certificate":{"levels":[{"bounds":[],"coalitions":[[[1],1],[[2],1]],"earlier":[],
  "excess":"0","total":1}],"mode":"players"},"game":{"class":"airport","costs":[0,3],"names":["a","b"]},"shares":["0",
  "3"]}
"#;

const CHECKED: &str = r#"
{"game":{"class":"airport","costs":[2,4,6]}}
  => .."shares":["1","3/2","7/2"]}
{"game":{"class":"airport","costs":[0,0,3]}}
  => .."shares":["0","0","3"]}
{"game":{"claims":[100,200,300],"class":"bankruptcy","estate":0}}
  => .."shares":["0","0","0"]}
{"game":{"class":"airport","costs":[5]}}
  => .."shares":["5"]}
{"game":{"claims":[100,200,300],"class":"bankruptcy","estate":100}}
  => .."shares":["100/3","100/3","100/3"]}
{"game":{"claims":[100,200,300],"class":"bankruptcy","estate":200}}
  => .."shares":["50","75","75"]}
{"game":{"claims":[100,200,300],"class":"bankruptcy","estate":300}}
  => .."shares":["50","100","150"]}
{"game":{"claims":[100,200,300],"class":"bankruptcy","estate":400}}
  => .."shares":["50","125","225"]}
{"game":{"class":"airport","costs":[64,64,64,64,64,64,64,64,64,64,64,64,64,64,64,64,64,64,64,64,64,64,64,64,64,64,64,64,
  64,64,64,64,64,64,64,64,64,64,64,64,64,64,64,64,64,64,64,64,64,64,64,64,64,64,64,64,64,64,64,64,64,64,64,64]}}
  => .."shares":["1","1","1","1","1","1","1","1","1","1","1","1","1","1","1","1","1","1","1","1","1","1","1","1","1",
  "1","1","1","1","1","1","1","1","1","1","1","1","1","1","1","1","1","1","1","1","1","1","1","1","1","1","1","1","1",
  "1","1","1","1","1","1","1","1","1","1"]}
{"game":{"class":"airport","costs":[1,4,9,16,25,36,49,64,81,100,121,144,169,196,225,256,289,324,361,400,441,484,529,576,
  625,676,729,784,841,900,961,1024,1089,1156,1225,1296,1369,1444,1521,1600,1681,1764,1849,1936,2025,2116,2209,2304,2401,
  2500,2601,2704,2809,2916,3025,3136,3249,3364,3481,3600,3721,3844,3969,4096]}}
  => ..,"2305843009213693952003/9223372036854775808"]}
"#;

#[test]
fn prints_shares_and_a_certificate_that_is_checked(rt: HostRuntime) -> Result<(), Fail> {
    expect_runs(&rt, rt.alloc(), RUNS)?;
    expect_checked(&rt, rt.alloc(), FAMILIES, CHECKED)
}
