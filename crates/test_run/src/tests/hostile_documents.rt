//! Documents made to mislead the reader or the checker, all of them changes of one line that `nucleolus` prints.
use super::{expect_runs, said_on};
use std::test::Fail;

const LINE: &str = concat!(
    r#"{"answer":"nucleolus","certificate":{"levels":[{"bounds":[],"coalitions":[[[1],1],[[2,3],1]],"earlier":[],"#,
    r#""excess":"-1","total":1},{"bounds":[],"coalitions":[[[1,2],1],[[1,3],1]],"earlier":[[[1],-1]],"#,
    r#""excess":"-3/2","total":1}],"mode":"players"},"game":{"class":"airport","costs":[2,4,6]},"#,
    r#""shares":["1","3/2","7/2"]}"#,
);

const CHANGES: &str = r#"
# A weight of 2^63 - 1.
check {"answer":"nucleolus","certificate":{"levels":[{"bounds":[],"coalitions":[[[1],1],[[2,3],1]],"earlier":[],
  "excess":"-1","total":1},{"bounds":[],"coalitions":[[[1,2],9223372036854775807],[[1,3],1]],"earlier":[[[1],-1]],
  "excess":"-3/2","total":1}],"mode":"players"},"game":{"class":"airport","costs":[2,4,6]},"shares":["1","3/2","7/2"]}
  => Negative {"answer":"no","level":2,"player":1,"reason":5}
# A weight of -2^63.
check {"answer":"nucleolus","certificate":{"levels":[{"bounds":[],"coalitions":[[[1],1],[[2,3],1]],"earlier":[],
  "excess":"-1","total":1},{"bounds":[],"coalitions":[[[1,2],-9223372036854775808],[[1,3],1]],"earlier":[[[1],-1]],
  "excess":"-3/2","total":1}],"mode":"players"},"game":{"class":"airport","costs":[2,4,6]},"shares":["1","3/2","7/2"]}
  => Refused {"number":12,"refused":"Certificate"}
# A coalition that stands twice.
check {"answer":"nucleolus","certificate":{"levels":[{"bounds":[],"coalitions":[[[1],1],[[2,3],1]],"earlier":[],
  "excess":"-1","total":1},{"bounds":[],"coalitions":[[[1,2],1],[[1,2],1],[[1,3],1]],"earlier":[[[1],-1]],
  "excess":"-3/2","total":1}],"mode":"players"},"game":{"class":"airport","costs":[2,4,6]},"shares":["1","3/2","7/2"]}
  => Refused {"number":12,"refused":"Certificate"}
# Levels exchanged.
check {"answer":"nucleolus","certificate":{"levels":[{"bounds":[],"coalitions":[[[1,2],1],[[1,3],1]],"earlier":[[[1],
  -1]],"excess":"-3/2","total":1},{"bounds":[],"coalitions":[[[1],1],[[2,3],1]],"earlier":[],"excess":"-1","total":1}],
  "mode":"players"},"game":{"class":"airport","costs":[2,4,6]},"shares":["1","3/2","7/2"]}
  => Refused {"number":12,"refused":"Certificate"}
# The coalition of all.
check {"answer":"nucleolus","certificate":{"levels":[{"bounds":[],"coalitions":[[[1],1],[[1,2,3],1]],"earlier":[],
  "excess":"-1","total":1},{"bounds":[],"coalitions":[[[1,2],1],[[1,3],1]],"earlier":[[[1],-1]],"excess":"-3/2",
  "total":1}],"mode":"players"},"game":{"class":"airport","costs":[2,4,6]},"shares":["1","3/2","7/2"]}
  => Refused {"number":12,"refused":"Certificate"}
# The empty coalition.
check {"answer":"nucleolus","certificate":{"levels":[{"bounds":[],"coalitions":[[[],1],[[2,3],1]],"earlier":[],
  "excess":"-1","total":1},{"bounds":[],"coalitions":[[[1,2],1],[[1,3],1]],"earlier":[[[1],-1]],"excess":"-3/2",
  "total":1}],"mode":"players"},"game":{"class":"airport","costs":[2,4,6]},"shares":["1","3/2","7/2"]}
  => Refused {"number":12,"refused":"Certificate"}
# An excess not in lowest terms.
check {"answer":"nucleolus","certificate":{"levels":[{"bounds":[],"coalitions":[[[1],1],[[2,3],1]],"earlier":[],
  "excess":"-2/2","total":1},{"bounds":[],"coalitions":[[[1,2],1],[[1,3],1]],"earlier":[[[1],-1]],"excess":"-3/2",
  "total":1}],"mode":"players"},"game":{"class":"airport","costs":[2,4,6]},"shares":["1","3/2","7/2"]}
  => Refused {"number":12,"refused":"Certificate"}
# Another excess.
check {"answer":"nucleolus","certificate":{"levels":[{"bounds":[],"coalitions":[[[1],1],[[2,3],1]],"earlier":[],
  "excess":"-2","total":1},{"bounds":[],"coalitions":[[[1,2],1],[[1,3],1]],"earlier":[[[1],-1]],"excess":"-3/2",
  "total":1}],"mode":"players"},"game":{"class":"airport","costs":[2,4,6]},"shares":["1","3/2","7/2"]}
  => Negative {"answer":"no","coalition":[1],"level":1,"reason":3}
# A weight of 0.
check {"answer":"nucleolus","certificate":{"levels":[{"bounds":[],"coalitions":[[[1],1],[[2,3],0]],"earlier":[],
  "excess":"-1","total":1},{"bounds":[],"coalitions":[[[1,2],1],[[1,3],1]],"earlier":[[[1],-1]],"excess":"-3/2",
  "total":1}],"mode":"players"},"game":{"class":"airport","costs":[2,4,6]},"shares":["1","3/2","7/2"]}
  => Negative {"answer":"no","coalition":[2,3],"level":1,"reason":4}
# A bound on a player above its own worth.
check {"answer":"nucleolus","certificate":{"levels":[{"bounds":[[1,1]],"coalitions":[[[1],1],[[2,3],2]],"earlier":[],
  "excess":"-1","total":2},{"bounds":[],"coalitions":[[[1,2],1],[[1,3],1]],"earlier":[[[1],-1]],"excess":"-3/2",
  "total":1}],"mode":"players"},"game":{"class":"airport","costs":[2,4,6]},"shares":["1","3/2","7/2"]}
  => Negative {"answer":"no","level":1,"player":1,"reason":6}
# One level alone.
check {"answer":"nucleolus","certificate":{"levels":[{"bounds":[],"coalitions":[[[1],1],[[2,3],1]],"earlier":[],
  "excess":"-1","total":1}],"mode":"players"},"game":{"class":"airport","costs":[2,4,6]},"shares":["1","3/2","7/2"]}
  => Negative {"answer":"no","player":2,"reason":8}
# A cost that is no whole number.
check {"answer":"nucleolus","certificate":{"levels":[{"bounds":[],"coalitions":[[[1],1],[[2,3],1]],"earlier":[],
  "excess":"-1","total":1},{"bounds":[],"coalitions":[[[1,2],1],[[1,3],1]],"earlier":[[[1],-1]],"excess":"-3/2",
  "total":1}],"mode":"players"},"game":{"class":"airport","costs":[2.0,4,6]},"shares":["1","3/2","7/2"]}
  => Refused {"number":5,"refused":"Number"}
"#;

#[test]
fn each_change_of_a_certificate_has_its_answer(rt: HostRuntime) -> Result<(), Fail> {
    expect_runs(&rt, rt.alloc(), CHANGES)
}

#[test]
fn no_front_of_a_line_is_a_document(rt: HostRuntime) -> Result<(), Fail> {
    let bytes = LINE.as_bytes();
    for end in 0..bytes.len() {
        let found = said_on(rt.alloc(), "check", &bytes[..end])?;
        let wanted = r#"Refused {"number":2,"refused":"NotJson"}"#;
        assert_eq!(rt; found.as_str(), wanted, "the first {end} bytes");
    }
    Ok(())
}
