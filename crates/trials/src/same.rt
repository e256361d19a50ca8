// What tests assert, with a text where it fails. It is here since that text is proved anew in each function that has the macro.
use std::fmt::Debug;
use std::process::Abort;

pub(crate) fn same<T: PartialEq + Debug>(rt: &impl Abort, left: &T, right: &T) {
    assert_eq!(rt; left, right);
}

// A failure tells the case too.
pub(crate) fn same_for<T: PartialEq + Debug, C: Debug>(
    rt: &impl Abort,
    left: &T,
    right: &T,
    case: &C,
) {
    assert_eq!(rt; left, right, "{case:?}");
}

// A failure tells the case.
pub(crate) fn holds<C: Debug>(rt: &impl Abort, is_so: bool, case: &C) {
    assert!(rt; is_so, "{case:?}");
}
