//! Certificates that are checked.
use super::expect_runs;
use std::test::Fail;

const RUNS: &str = r#"
check {"answer":"nucleolus","certificate":{"levels":[{"bounds":[],"coalitions":[[[1],1],[[2,3],1]],"earlier":[],
  "excess":"-1","total":1},{"bounds":[],"coalitions":[[[1,2],1],[[1,3],1]],"earlier":[[[1],-1]],"excess":"-3/2",
  "total":1}],"mode":"players"},"game":{"class":"airport","costs":[2,4,6]},"shares":["1","3/2","7/2"]}
  => Done {"answer":"yes"}
check {"answer":"nucleolus","certificate":{"levels":[{"bounds":[],"coalitions":[[[1],1],[[2,3],1]],"earlier":[],
  "excess":"-1","total":1},{"bounds":[],"coalitions":[[[1,2],2],[[1,3],1]],"earlier":[[[1],-1]],"excess":"-3/2",
  "total":1}],"mode":"players"},"game":{"class":"airport","costs":[2,4,6]},"shares":["1","3/2","7/2"]}
  => Negative {"answer":"no","level":2,"player":1,"reason":5}
check {"answer":"nucleolus","certificate":{"levels":[{"bounds":[],"coalitions":[[[1],1],[[2,3],1]],"earlier":[],
  "excess":"-1","total":1},{"bounds":[],"coalitions":[[[1,2],1],[[1,3],1]],"earlier":[[[1],-1]],"excess":"-3/2",
  "total":1}],"mode":"players"},"game":{"class":"airport","costs":[2,4,6]},"shares":["1","3/2","9/2"]}
  => Negative {"answer":"no","reason":1}
check {"answer":"prenucleolus","certificate":{"levels":[{"bounds":[],"coalitions":[[[1,2],1],[[3],1]],"earlier":[],
  "excess":"2","total":1},{"bounds":[],"coalitions":[[[1,3],1],[[2,3],1]],"earlier":[[[3],-1]],"excess":"1","total":1}],
  "mode":"span"},"game":{"class":"table","players":3,"worths":[0,0,4,0,0,0,0]},"shares":["1","1","-2"]}
  => Done {"answer":"yes"}
check {"answer":"nucleolus","certificate":{"levels":[{"bounds":[],"coalitions":[[[1,2],1],[[3],1]],"earlier":[],
  "excess":"2","total":1},{"bounds":[],"coalitions":[[[1,3],1],[[2,3],1]],"earlier":[[[3],-1]],"excess":"1","total":1}],
  "mode":"span"},"game":{"class":"table","players":3,"worths":[0,0,4,0,0,0,0]},"shares":["1","1","-2"]}
  => Negative {"answer":"no","player":3,"reason":2}
check {"answer":"nucleolus","certificate":{"levels":[{"bounds":[],"coalitions":[[[2,3],1],[[1,4],1]],"earlier":[],
  "excess":"0","total":1},{"bounds":[],"coalitions":[[[1,3],1],[[2,4],1]],"earlier":[],"excess":"-2","total":1},
  {"bounds":[],"coalitions":[[[1],1],[[3],1]],"earlier":[[[1,3],-1]],"excess":"-7/2","total":0}],"mode":"span"},
  "game":{"class":"table","players":4,"worths":[0,0,0,0,5,7,7,0,8,6,8,0,8,7,15]},"shares":["7/2","7/2","7/2","9/2"]}
  => Done {"answer":"yes"}
check {"answer":"nucleolus","certificate":{"levels":[{"bounds":[],"coalitions":[[[2,3],1],[[1,4],1]],"earlier":[],
  "excess":"0","total":1},{"bounds":[],"coalitions":[[[1,3],1],[[2,4],1]],"earlier":[],"excess":"-2","total":1}],
  "mode":"span"},"game":{"class":"table","players":4,"worths":[0,0,0,0,5,7,7,0,8,6,8,0,8,7,15]},"shares":["2","2","5",
  "6"]}
  => Negative {"answer":"no","player":1,"reason":8}
check {"answer":"nucleolus","certificate":{"levels":[{"bounds":[],"coalitions":[[[1,3],1],[[2,4],1]],"earlier":[],
  "excess":"-2","total":1}],"mode":"span"},"game":{"class":"table","players":4,"worths":[0,0,0,0,5,7,7,0,8,6,8,0,8,7,
  15]},"shares":["7/2","7/2","7/2","9/2"]}
  => Negative {"answer":"no","excess":"0","level":1,"reason":7}
# A certificate by spans is for 16 players at most.
check {"answer":"nucleolus","certificate":{"levels":[{"bounds":[],"coalitions":[[[1],1]],"earlier":[],"excess":"0",
  "total":1}],"mode":"span"},"game":{"class":"airport","costs":[1,1,1,1,1,1,1,1,1,1,1,1,1,1,1,1,1]},"shares":["1","0",
  "0","0","0","0","0","0","0","0","0","0","0","0","0","0","0"]}
  => Refused {"number":12,"refused":"Certificate"}
# It meets all eight conditions, but `earlier` names {1}, which no earlier level lists; the nucleolus is 1 and 1.
check {"answer":"nucleolus","certificate":{"levels":[{"bounds":[],"coalitions":[[[2],1]],"earlier":[[[1],1]],
  "excess":"0","total":1}],"mode":"players"},"game":{"class":"table","players":2,"worths":[0,0,2]},"shares":["2","0"]}
  => Refused {"number":12,"refused":"Certificate"}
# A document to check needs an answer and a certificate.
check {"game":{"class":"airport","costs":[2,4,6]},"shares":["1","3/2","7/2"]}
  => Refused {"number":3,"refused":"Shape"}
"#;

#[test]
fn each_certificate_has_its_verdict(rt: HostRuntime) -> Result<(), Fail> {
    expect_runs(&rt, rt.alloc(), RUNS)
}
