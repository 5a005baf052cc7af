//! Entries and lengths of small matrices.
use crate::rows::matrix_of;
use matrices::{have_entries, have_length};
use std::test::Fail;

const LIMIT: i64 = 1 << 40;

/// Rows, whether all their numbers are entries, and whether each row has two.
const MATRICES: [(&[&[i64]], bool, bool); 6] = [
    (&[&[3, 0], &[1, LIMIT - 1]], true, true),
    (&[&[3, 0], &[1, LIMIT]], false, true),
    (&[&[3, 0], &[1, -1]], false, true),
    (&[&[3, 0], &[], &[1, 0]], true, false),
    (&[&[3, 0, 5], &[1, 4, 2]], true, false),
    (&[&[3, 0, 5], &[1, 4]], true, false),
];

#[test]
fn entries_are_from_0_to_below_2_to_40_and_rows_have_one_length(
    rt: HostRuntime,
) -> Result<(), Fail> {
    for &(rows, are_entries, are_pairs) in &MATRICES {
        let matrix = matrix_of(rt.alloc(), rows)?;
        let found = (have_entries(&matrix), have_length(&matrix, 2));
        assert_eq!(rt; found, (are_entries, are_pairs), "{rows:?}");
    }
    Ok(())
}
