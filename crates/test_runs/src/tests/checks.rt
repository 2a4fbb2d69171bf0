//! The assertions that the tests share.
ghost use Rattle.std.specs.Prelude.{◌≡◌, Ok};

use std::process::Abort;

/// The value of a call that must succeed. Panics if the call has failed.
pub(super) fn done<R: Abort, T: Drop, E: Drop>(rt: &R, answer: Result<T, E>) -> T
    ensures { answer ≡ Ok result }
{
    match answer {
        Ok(value) => value,
        Err(_) => panic!(rt; "the call failed"),
    }
}

/// Asserts that the condition holds.
pub(super) fn assert_that<R: Abort>(rt: &R, is_so: bool) {
    assert!(rt; is_so);
}

/// Asserts that the bytes found are the wanted ones.
pub(super) fn assert_bytes<R: Abort>(rt: &R, found: &[u8], wanted: &[u8]) {
    assert_eq!(rt; found, wanted);
}

/// Asserts that the answer to the line of a story is the expected one.
pub(super) fn assert_told<R: Abort>(rt: &R, line: &str, is_told: bool) {
    assert!(rt; is_told, "{line}");
}
