//! What no clause says: that forms are put together and asked of what stands at a key.
use json_trees::{ArrayOf, Form, Number, PairOf, has, has_only_keys};
use serde_json::Value;
use std::test::Fail;

#[test]
fn forms_are_put_together(rt: HostRuntime) -> Result<(), Fail> {
    let text = br#"{"sparse":[[[1,2],3],[[1],4]]}"#;
    let Ok(tree) = Value::from_slice(rt.alloc(), text) else {
        return Err(Fail::from("no tree"));
    };
    let form = ArrayOf(PairOf(ArrayOf(Number), Number));
    assert!(rt; has(&tree, "sparse", &form));
    assert!(rt; !form.fits(&tree));
    assert!(rt; has_only_keys(&["default", "sparse"], &tree));
    assert!(rt; !has_only_keys(&["default", "worths"], &tree));
    Ok(())
}
