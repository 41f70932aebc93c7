use std::fmt::Display;
use std::process::Abort;

// The one assertion. It tells where it failed, and prints no values: so no type has to be one that can be printed.
pub(crate) fn same<A: Copy + Display + Drop, T: Copy + PartialEq>(
    rt: &impl Abort,
    at: A,
    told: T,
    want: T,
) {
    if told != want {
        rt.panic(at)
    }
}

// The same of texts, which it prints.
pub(crate) fn same_text(rt: &impl Abort, at: &str, told: &str, want: &str) {
    assert_eq!(rt; told, want, "at {at}");
}
