// Each check is a function, so that it is proved once, and not again in each test.
// `duration_str_tests` has the same two in its tests. A crate can't export them, since the gate
// refuses `Abort` outside tests.
use std::alloc::AllocError;
use std::process::Abort;

pub fn holds(rt: &impl Abort, about: &str, condition: bool) {
    assert!(rt; condition, "{about}");
}

pub fn holds_in_memory(rt: &impl Abort, about: &str, condition: Result<bool, AllocError>) {
    assert!(rt; condition == Ok(true), "{about}");
}
