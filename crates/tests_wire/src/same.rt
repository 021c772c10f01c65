// `assert_same!`: `assert_eq!` as a call. std's is written out at each use, and proved there. A library that may end
// the process isn't proved, so each crate of tests that uses it has this file.
use std::fmt::{Debug, Display};
use std::process::Abort;

// As `assert_eq!`, of two values of one type. A failed one tells what was looked at, and not the line.
macro_rules! assert_same {
    ($rt:expr; $left:expr, $right:expr $(,)?) => {
        crate::same::same(&$rt, &$left, &$right, &stringify!($left))
    };
    ($rt:expr; $left:expr, $right:expr, $($arg:tt)+) => {
        crate::same::same(&$rt, &$left, &$right, &format_args!($($arg)+))
    };
}

pub(crate) use assert_same;

pub fn same<T: PartialEq + Debug>(rt: &impl Abort, left: &T, right: &T, what: &impl Display) {
    assert_eq!(rt; *left, *right, "{what}");
}
