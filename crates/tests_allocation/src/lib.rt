// Counts the allocations of calls, and fails those on small buffers in turn. `tests/gate/costs.py` at the top of the
// repository runs these tests with no allocation failing, then with the first one of each call, then with the second,
// and so on. A call whose allocation fails has to report that, to leave what it borrowed as it was (except
// `write_bufs`, which may leave a prefix), and to give the second time what it gives without a failure.
#![tactic(auto)]

// The result of a call, and whether an allocation of it failed first. Such a failure is `$memory`, and leaves
// `$same` true.
macro_rules! lent {
    ($rt:expr, $call:expr, $memory:expr, $same:expr) => {{
        mark(&$rt, "call");
        let first = $call;
        mark(&$rt, "done");
        match crate::word::granted(&$rt, first, $memory) {
            Some(answer) => (answer, Ended::Done),
            None => {
                crate::word::assert_unchanged(&$rt, $same);
                (crate::word::second(&$rt, $call), Ended::Refused)
            }
        }
    }};
}

#[cfg(test)]
mod builder;
#[cfg(test)]
mod costs;
#[cfg(test)]
mod frames;
#[cfg(test)]
mod machine;
#[cfg(test)]
mod streams;
#[cfg(test)]
mod table;
#[cfg(test)]
mod values;
#[cfg(test)]
mod word;
