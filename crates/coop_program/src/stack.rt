//! The stack of a run.
use std::env::Env;

// About as much as the command that needs the most.
const DEPTH: usize = 228 * 1024;

/// Uses about as much of the stack as the command that was measured to need the most, and gives it back.
///
/// The system finds memory for a part of the stack when it is first used, and if it finds none it ends the program
/// by a signal. After this call the stack of a run is there. So memory can run out only where the program asks for it,
/// and then the program ends with a status.
///
/// No clause says so: `tools/gate/refuse-memory` tries it.
#[inline(never)]
pub(crate) fn use_stack(rt: &HostRuntime) {
    // A call of the system that may write to the whole, so that no compiler leaves it out.
    let mut deep = [0u8; DEPTH];
    let _ = rt.arg(0, &mut deep);
}
