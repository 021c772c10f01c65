// The words that a test prints: `call` and `done` around each call, and then how the call ended.
use std::fmt::Debug;
use std::process::Abort;

// How a call ended.
#[derive(Clone, Copy, Debug)]
pub enum Ended {
    Done,
    // It handed back a buffer whose storage is shared,
    Declined,
    // or one of several chunks.
    Several,
    // An allocation failed. That changed nothing, and the second call gave what it should.
    Refused,
    // With another value,
    Wrong,
    // another error,
    Failed,
    // or a buffer that a failure changed.
    Changed,
}

pub fn mark(rt: &(impl Print + Abort), word: &str) {
    println!(rt; "{word}").expect(rt, "the word is printed");
}

// The result of a call, or nothing if an allocation failed.
pub fn granted<A, E: PartialEq + Drop>(
    rt: &impl Abort,
    first: Result<A, E>,
    memory: E,
) -> Option<A> {
    match first {
        Ok(answer) => Some(answer),
        Err(error) => {
            assert!(rt; error == memory, "another error");
            None
        }
    }
}

pub fn assert_unchanged(rt: &impl Abort, same: bool) {
    assert!(rt; same, "changed by a failure");
}

// The result of a second call.
pub fn second<A, E: Debug + Drop>(rt: &impl Abort, answer: Result<A, E>) -> A {
    answer.expect(rt, "the second call")
}

// How the call of a case of a table ended, if it gave what it should.
pub fn end_case(rt: &(impl Print + Abort), case: &str, ended: Ended, holds: bool) {
    assert!(rt; holds, "another answer");
    println!(rt; "{case} {ended:?}").expect(rt, "the word is printed");
}

pub fn end(rt: &(impl Print + Abort), ended: Ended, holds: bool) {
    end_case(rt, "", ended, holds);
}
