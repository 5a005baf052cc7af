//! The line of a nucleolus that no small document has.
use coalitions::Coalition;
use definitions::{Family, Mode};
use fractions::Frac;
use kohlberg::{Certificate, Level};
use report::{Answer, write_report};
use serde_json::Value;
use std::test::Fail;
use worth_core::Shares;

#[test]
fn bounds_and_the_greatest_weights(rt: HostRuntime) -> Result<(), Fail> {
    let alloc = rt.alloc();
    let most = (1 << 63) - 1;
    let mut levels = Vec::new(alloc);
    levels.push(Level {
        excess: Frac::from_int(2),
        coalitions: [(Coalition(4), most)].to_vec(alloc)?,
        earlier: Vec::new(alloc),
        bounds: [(0, 1), (1, -most)].to_vec(alloc)?,
        total: most,
    })?;
    let answer = Answer::Nucleolus {
        family: Family::Preimputations,
        tree: Value::Null,
        is_cost: false,
        shares: Shares::new([1, 1, -2].to_vec(alloc)?, 1).ok_or("not shares")?,
        certificate: Certificate::new(3, Mode::Span, levels)
            .ok()
            .ok_or("malformed")?,
    };
    let written = write_report(alloc, answer, 1).ok().ok_or("memory")?;
    let line = concat!(
        r#"{"answer":"prenucleolus","certificate":{"levels":[{"bounds":[[1,1],[2,-9223372036854775807]],"#,
        r#""coalitions":[[[3],9223372036854775807]],"earlier":[],"excess":"2","total":9223372036854775807}],"#,
        r#""mode":"span"},"game":null,"shares":["1","1","-2"]}"#,
        "\n",
    );
    assert_eq!(rt; written.as_slice(), line.as_bytes());
    Ok(())
}
