//! The numbers that scripts rely on.
use coop::Status;

#[test]
fn each_status_has_its_number(rt: HostRuntime) {
    let numbers = (
        Status::Done.number(),
        Status::Negative.number(),
        Status::Usage.number(),
        Status::Refused.number(),
        Status::ReadFault.number(),
        Status::WriteFault.number(),
        Status::OutOfMemory.number(),
    );
    assert_eq!(rt; numbers, (0, 1, 2, 3, 5, 6, 7));
}
