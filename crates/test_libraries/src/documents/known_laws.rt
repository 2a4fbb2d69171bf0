//! Laws that hold for all documents. They are proved, so it is only tested that they can be called.

/// Calls the laws of the crates `dsc` and `guard`.
pub fn call_laws() {
    dsc::laws::pages_stand_alone();
    dsc::laws::pages_have_bodies();
    guard::laws::lines_stay();
    guard::laws::guard_stays();
    guard::laws::guard_is_short();
}
