//! Markets and their matchings, and what other commands say of a market.
use super::expect_runs;
use std::alloc::Global;
use std::test::Fail;

// A document that every command on documents could read.
const ONE_PAIR: &str = concat!(
    r#"{"answer":"nucleolus","certificate":{"levels":[],"mode":"players"},"game":{"class":"market","#,
    r#""matrix":[[9]]},"shares":[4,5]}"#,
);

// A market of so many buyers, each with an entry for each of so many sellers: 1 for the seller of its own number,
// else 0.
fn diagonal(alloc: Global, buyers: u32, sellers: u32) -> Result<String, Fail> {
    let mut text = String::from_str(alloc, r#"{"game":{"class":"market","matrix":["#)?;
    for i in 0..buyers {
        text.push_str(if i == 0 { "[" } else { ",[" })?;
        for j in 0..sellers {
            text.push_str(if j == 0 { "" } else { "," })?;
            text.push_str(if i == j { "1" } else { "0" })?;
        }
        text.push_str("]")?;
    }
    text.push_str("]}}")?;
    Ok(text)
}

// ONE_PAIR, DIAGONAL, TALL and WIDE stand for their documents.
const RUNS: &str = r#"
matching {"game":{"class":"market","matrix":[[5],[3]]}}
  => Done {"answer":"matching","buyers best":["2","0","3"],"pairs":[[1,3]],"sellers best":["0","0","5"],"value":"5"}
matching {"game":{"class":"market","matrix":[[5,8],[7,6]],"names":["Ann","Ben","house","flat"]}}
  => Done {"answer":"matching","buyers best":["8","7","0","0"],"pairs":[[1,4],[2,3]],"sellers best":["0","0","7","8"],
  "value":"15"}
matching {"game":{"class":"table","players":1,"worths":[5]}}
  => Usage {"usage":"class"}
matching {"game":{"class":"cost-table","players":1,"worths":[5]}}
  => Usage {"usage":"class"}
matching {"game":{"class":"airport","costs":[2,4,6]}}
  => Usage {"usage":"class"}
matching {"game":{"claims":[100,200,300],"class":"bankruptcy","estate":200}}
  => Usage {"usage":"class"}
matching {"game":{"class":"tree","matrix":[[0,3],[3,0]]}}
  => Usage {"usage":"class"}
matching {"game":{"class":"assignment","matrix":[[9]]}}
  => Usage {"usage":"class"}
matching {"game":{"class":"voting","quota":5,"weights":[4,2,1]}}
  => Usage {"usage":"class"}
nucleolus ONE_PAIR
  => Usage {"usage":"class"}
prenucleolus ONE_PAIR
  => Usage {"usage":"class"}
propose ONE_PAIR
  => Usage {"usage":"class"}
core ONE_PAIR
  => Usage {"usage":"class"}
check ONE_PAIR
  => Usage {"usage":"class"}
shapley ONE_PAIR
  => Usage {"usage":"class"}
bird ONE_PAIR
  => Usage {"usage":"class"}
convex ONE_PAIR
  => Usage {"usage":"class"}
kernel ONE_PAIR
  => Usage {"usage":"class"}
# Each of 32 buyers is matched with the seller of its own number.
matching DIAGONAL
  => Done {"answer":"matching","buyers best":["1","1","1","1","1","1","1","1","1","1","1","1","1","1","1","1","1","1",
  "1","1","1","1","1","1","1","1","1","1","1","1","1","1","0","0","0","0","0","0","0","0","0","0","0","0","0","0","0",
  "0","0","0","0","0","0","0","0","0","0","0","0","0","0","0","0","0"],"pairs":[[1,33],[2,34],[3,35],[4,36],[5,37],[6,
  38],[7,39],[8,40],[9,41],[10,42],[11,43],[12,44],[13,45],[14,46],[15,47],[16,48],[17,49],[18,50],[19,51],[20,52],[21,
  53],[22,54],[23,55],[24,56],[25,57],[26,58],[27,59],[28,60],[29,61],[30,62],[31,63],[32,64]],"sellers best":["0","0",
  "0","0","0","0","0","0","0","0","0","0","0","0","0","0","0","0","0","0","0","0","0","0","0","0","0","0","0","0","0",
  "0","1","1","1","1","1","1","1","1","1","1","1","1","1","1","1","1","1","1","1","1","1","1","1","1","1","1","1","1",
  "1","1","1","1"],"value":"32"}
# The first cause decides.
matching TALL
  => Refused {"number":4,"refused":"Players"}
matching WIDE
  => Refused {"number":4,"refused":"Players"}
matching {"game":{"class":"market","matrix":[[1,2],[1099511627776]]}}
  => Refused {"number":5,"refused":"Number"}
matching {"game":{"class":"market","matrix":[[1,2],[3]],"names":["one"]}}
  => Refused {"number":6,"refused":"Names"}
matching {"game":{"class":"market","matrix":[[1,2],[3]]}}
  => Refused {"number":9,"refused":"Matrix"}
"#;

#[test]
fn matching_and_markets_are_for_one_another(rt: HostRuntime) -> Result<(), Fail> {
    let alloc = rt.alloc();
    let mut runs = RUNS.replace(alloc, "ONE_PAIR", ONE_PAIR)?;
    for &(name, buyers, sellers) in &[("DIAGONAL", 32, 32), ("TALL", 33, 1), ("WIDE", 1, 33)] {
        let document = diagonal(alloc, buyers, sellers)?;
        runs = runs.replace(alloc, name, document.as_str())?;
    }
    expect_runs(&rt, alloc, runs.as_str())
}
