use std::fmt::Debug;
use std::process::Abort;

// The one assertion. The time to prove a function grows with the square of its length.
pub(crate) fn same<T: Copy + Debug + PartialEq>(rt: &impl Abort, at: &str, told: T, want: T) {
    assert_eq!(rt; told, want, "{at}");
}
