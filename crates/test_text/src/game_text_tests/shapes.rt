//! Kinds, keys and words of documents and games.
use super::expect_each;
use game_text::{Command, Refusal};
use std::test::Fail;

const OTHER_SHAPES: &str = r#"
    {"shares":[1]}
    {"game":{"class":"airport","costs":[1]}}
    {"game":[],"shares":[1]}
    {"game":{"class":"airport","costs":[1]},"price":1,"shares":[1]}
    {"game":{"clas":"airport","costs":[1]},"shares":[1]}
    {"game":{"class":1,"costs":[1]},"shares":[1]}
    {"game":{"class":"airports","costs":[1]},"shares":[1]}
    {"game":{"class":"trees","matrix":[[0,1],[1,0]]},"shares":[1]}
    {"game":{"class":"tree","matrix":[[0,1],"10"]},"shares":[1]}
    {"game":{"class":"tree","matrix":[[0,"1"],[1,0]]},"shares":[1]}
    {"game":{"class":"tree","costs":[1]},"shares":[1]}
    {"game":{"class":"assignment","matrix":1},"shares":[1,1]}
    {"game":{"class":"assignment","matrix":[[1]],"players":2},"shares":[1,1]}
    {"game":{"class":"airport","costs":1},"shares":[1]}
    {"game":{"class":"airport","costs":["1"]},"shares":[1]}
    {"game":{"class":"airport","costs":[1],"players":1},"shares":[1]}
    {"game":{"class":"airport","costs":[1],"names":["a",1]},"shares":[1]}
    {"game":{"class":"airport","costs":[1],"excess":"half"},"shares":[1]}
    {"game":{"class":"airport","costs":[1],"excess":"Plain"},"shares":[1]}
    {"game":{"class":"tree","excess":1,"matrix":[[0,1],[1,0]]},"shares":[1]}
    {"game":{"claims":[1],"class":"bankruptcy"},"shares":[1]}
    {"game":{"claims":[1],"class":"bankruptcy","estate":"1"},"shares":[1]}
    {"game":{"class":"table","worths":[1]},"shares":[1]}
    {"game":{"class":"table","players":"1","worths":[1]},"shares":[1]}
    {"game":{"class":"table","players":1},"shares":[1]}
    {"game":{"class":"table","players":1,"sparse":[],"worths":[1]},"shares":[1]}
    {"game":{"class":"table","default":0,"players":1,"worths":[1]},"shares":[1]}
    {"game":{"class":"table","default":"0","players":1,"sparse":[]},"shares":[1]}
    {"game":{"class":"cost-table","players":1,"sparse":[[[1],1,1]]},"shares":[1]}
    {"game":{"class":"cost-table","players":1,"sparse":[[1,1]]},"shares":[1]}
    {"game":{"class":"cost-table","players":1,"sparse":[[[null],1]]},"shares":[1]}
    {"game":{"class":"airport","costs":[1]},"shares":[null]}
    {"game":{"class":"airport","costs":[1]},"shares":1}
"#;

#[test]
fn other_kinds_keys_and_words_are_refused(rt: HostRuntime) -> Result<(), Fail> {
    let rows = &[(Some(Refusal::Shape), OTHER_SHAPES)];
    expect_each(&rt, rt.alloc(), Command::Propose, ("", ""), rows)
}

#[test]
fn the_last_of_two_equal_keys_counts(rt: HostRuntime) -> Result<(), Fail> {
    let rows = &[
        (
            None,
            r#"{"game":{"class":"airport","costs":[]},"game":{"class":"airport","costs":[1]},"shares":[1]}"#,
        ),
        (
            Some(Refusal::Players),
            r#"{"game":{"class":"airport","costs":[1]},"game":{"class":"airport","costs":[]},"shares":[1]}"#,
        ),
        (
            Some(Refusal::Proposal),
            r#"{"game":{"class":"airport","costs":[],"costs":[1]},"shares":[1],"shares":[2,3]}"#,
        ),
    ];
    expect_each(&rt, rt.alloc(), Command::Propose, ("", ""), rows)
}
