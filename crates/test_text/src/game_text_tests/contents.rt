//! What the documents of proposals say.
use coalitions::Coalition;
use game_text::{Command, Game, read_document};
use std::alloc::Global;
use std::process::Abort;
use std::test::Fail;
use worth_core::Worth;

// The worth of each coalition, in mask order.
pub(crate) fn worths_of(rt: &impl Abort, alloc: Global, game: &Game) -> Result<Vec<i64>, Fail> {
    let players = game.players();
    let mut worths = Vec::new(alloc);
    for s in Coalition::subsets(players) {
        assert!(rt; s <= Coalition::all(players));
        worths.push(game.worth(s))?;
    }
    Ok(worths)
}

// What a document says: the worth of each coalition over the scale, the shares as worth over their denominator, who
// blocks them, and how excess is measured.
fn said(rt: &impl Abort, alloc: Global, text: &str) -> Result<String, Fail> {
    let read = read_document(alloc, text.as_bytes(), Command::Propose)?;
    let x = read.shares.as_ref().ok_or("no shares")?;
    let players = read.game.players();
    assert!(rt; x.players() == players);
    let mut shares = Vec::new(alloc);
    for i in 0..players {
        shares.push(x.num(i))?;
    }
    Ok(format!(in alloc;
        "{} {:?} over {}, shares {:?} over {}, blocker {:?}, {:?}",
        if read.game.is_cost() {
            "costs"
        } else {
            "worths"
        },
        worths_of(rt, alloc, &read.game)?,
        read.scale,
        shares,
        x.den(),
        read.game.blocker(x),
        read.measure,
    )?)
}

// Each document, and below it what it says, found by the definitions alone. First there are worked proposals and the
// other classes, then the measures of excess, and then version 2, whose numbers are over their least common
// denominator.
const DOCUMENTS: &str = r#"
{"game":{"class":"airport","costs":[2,4,6]},"shares":["3/4",-1,"5/6"]}
costs [0, -2, -4, -4, -6, -6, -6, -6] over 1, shares [-9, 12, -10] over 12, blocker None, Plain;
{"game":{"class":"table","default":-5,"names":["a","b"],"players":2,"sparse":[[["b",1],7]]},"shares":["1/3","-1/3"]}
worths [0, -5, -5, 7] over 1, shares [1, -1] over 3, blocker Some(Coalition(3)), Plain;
{"game":{"class":"airport","costs":[2,4,6]},"shares":[3,1,2]}
costs [0, -2, -4, -4, -6, -6, -6, -6] over 1, shares [-3, -1, -2] over 1, blocker Some(Coalition(1)), Plain;
{"game":{"claims":[100,200,300],"class":"bankruptcy","estate":200},"shares":[110,45,45]}
worths [0, 0, 0, 0, 0, 0, 100, 200] over 1, shares [110, 45, 45] over 1, blocker Some(Coalition(6)), Plain;
{"game":{"class":"table","players":3,"worths":[0,0,1,0,1,1,1]},"shares":["1/3","1/3","1/3"]}
worths [0, 0, 0, 1, 0, 1, 1, 1] over 1, shares [1, 1, 1] over 3, blocker Some(Coalition(3)), Plain;
{"game":{"class":"cost-table","players":3,"worths":[2,2,3,2,3,3,4]},"shares":[1,1,2]}
costs [0, -2, -2, -3, -2, -3, -3, -4] over 1, shares [-1, -1, -2] over 1, blocker None, Plain;
{"game":{"class":"tree","matrix":[[0,10,10],[10,0,1],[10,1,0]]},"shares":[10,1]}
costs [0, -10, -10, -11] over 1, shares [-10, -1] over 1, blocker None, Plain;
{"game":{"class":"assignment","matrix":[[5,8],[7,6]]},"shares":[2,2,5,6]}
worths [0, 0, 0, 0, 0, 5, 7, 7, 0, 8, 6, 8, 0, 8, 7, 15] over 1, shares [2, 2, 5, 6] over 1, blocker None, Plain;
{"game":{"class":"market","matrix":[[5,8],[7,6]]},"shares":[2,2,5,6]}
worths [0, 0, 0, 0, 0, 5, 7, 7, 0, 8, 6, 8, 0, 8, 7, 15] over 1, shares [2, 2, 5, 6] over 1, blocker None, Plain;
{"game":{"class":"voting","quota":5,"weights":[4,2,1]},"shares":[1,0,0]}
worths [0, 0, 0, 1, 0, 1, 0, 1] over 1, shares [1, 0, 0] over 1, blocker None, Plain;
{"game":{"class":"airport","costs":[1],"excess":"per-head"},"shares":[1]}
costs [0, -1] over 1, shares [-1] over 1, blocker None, PerHead;
{"game":{"claims":[1],"class":"bankruptcy","estate":1,"excess":"per-head"},"shares":[1]}
worths [0, 1] over 1, shares [1] over 1, blocker None, PerHead;
{"game":{"class":"tree","excess":"plain","matrix":[[0,1],[1,0]]},"shares":[1]}
costs [0, -1] over 1, shares [-1] over 1, blocker None, Plain;
{"game":{"class":"assignment","excess":"per-head","matrix":[[1]]},"shares":[1,0]}
worths [0, 0, 0, 1] over 1, shares [1, 0] over 1, blocker None, PerHead;
{"game":{"class":"table","excess":"per-head","players":1,"worths":[1]},"shares":[1]}
worths [0, 1] over 1, shares [1] over 1, blocker None, PerHead;
{"game":{"class":"cost-table","excess":"per-head","names":["a"],"players":1,"sparse":[]},"shares":[0]}
costs [0, 0] over 1, shares [0] over 1, blocker None, PerHead;
{"game":{"class":"table","players":2,"version":2,"worths":["1/2","1/3","7/6"]},"shares":["1/3","5/12"]}
worths [0, 3, 2, 7] over 6, shares [4, 5] over 2, blocker Some(Coalition(3)), Plain;
{"game":{"class":"table","players":2,"version":2,"worths":["1/65536",0,1]},"shares":["1/2","-1/5"]}
worths [0, 1, 0, 65536] over 65536, shares [163840, -65536] over 5, blocker Some(Coalition(3)), Plain;
{"game":{"class":"cost-table","default":"1/4","players":2,"sparse":[[[1],"5/6"]],"version":2},"shares":["1/2","-1/5"]}
costs [0, -10, -3, -3] over 12, shares [-30, 12] over 5, blocker Some(Coalition(3)), Plain;
{"game":{"class":"airport","costs":["1/2",2],"version":2},"shares":["1/2","-1/5"]}
costs [0, -1, -4, -4] over 2, shares [-5, 2] over 5, blocker None, Plain;
{"game":{"claims":["1/3",1],"class":"bankruptcy","estate":"1/2","version":2},"shares":["1/2","-1/5"]}
worths [0, 0, 1, 3] over 6, shares [15, -6] over 5, blocker Some(Coalition(2)), Plain;
{"game":{"class":"tree","matrix":[[0,"1/2",3],["1/2",0,1],[3,1,0]],"version":2},"shares":["1/2","-1/5"]}
costs [0, -1, -6, -3] over 2, shares [-5, 2] over 5, blocker None, Plain;
{"game":{"class":"assignment","matrix":[["5/7"]],"version":2},"shares":["1/2","-1/5"]}
worths [0, 0, 0, 5] over 7, shares [35, -14] over 10, blocker Some(Coalition(3)), Plain;
{"game":{"class":"market","matrix":[["5/7"]],"version":2},"shares":["1/2","-1/5"]}
worths [0, 0, 0, 5] over 7, shares [35, -14] over 10, blocker Some(Coalition(3)), Plain;
{"game":{"class":"voting","quota":3,"version":2,"weights":[2,1]},"shares":["1/2","-1/5"]}
worths [0, 0, 0, 1] over 1, shares [5, -2] over 10, blocker Some(Coalition(3)), Plain;
{"game":{"class":"airport","costs":[1,2],"version":2},"shares":["1/2","-1/5"]}
costs [0, -1, -2, -2] over 1, shares [-5, 2] over 10, blocker None, Plain;
{"game":{"class":"airport","costs":[1,2],"version":1},"shares":["1/2","-1/5"]}
costs [0, -1, -2, -2] over 1, shares [-5, 2] over 10, blocker None, Plain"#;

#[test]
fn documents_say_their_game_and_its_shares_over_the_scale(rt: HostRuntime) -> Result<(), Fail> {
    for row in DOCUMENTS.split(';') {
        let (text, wanted) = row.trim().split_once('\n').ok_or("no second line")?;
        let found = said(&rt, rt.alloc(), text)?;
        assert_eq!(rt; found.as_str(), wanted, "of {text}");
    }
    Ok(())
}
