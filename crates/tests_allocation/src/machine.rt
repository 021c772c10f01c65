// The owner machine: each of its seven tables is reserved once. `tests/sessions/machines.owner` has the steps that want
// capacity.
use crate::word::{Ended, end, mark};
use iobufs_core::codec::BufError;
use iobufs_owner::format::FORMAT_64;
use iobufs_owner::owner::{Act, Machine, Refusal, Reply, Step};
use std::alloc::Global;
use std::process::Abort;

fn new_machine(alloc: Global) -> Result<Machine, BufError> {
    Machine::new(alloc, 3, 9, FORMAT_64)
}

#[test]
fn new(rt: HostRuntime) {
    let (machine, word) = lent!(rt, new_machine(rt.alloc()), BufError::Memory, true);
    end(&rt, word, machine.blocks().is_empty());
}

const IDLE: [Step; 1] = [Step {
    thread: 0,
    act: Act::Go(true),
}];

#[test]
fn run(rt: HostRuntime) {
    let mut machine = new_machine(rt.alloc()).expect(&rt, "a fixture");
    let (replies, word) = lent!(
        rt,
        machine.run(&IDLE),
        BufError::Memory,
        machine.blocks().is_empty()
    );
    end(
        &rt,
        word,
        replies.as_slice() == [Reply::Refused(Refusal::Idle)].as_slice(),
    );
}

// A reservation that fails leaves what the machine shows.
#[test]
fn a_reservation(rt: HostRuntime) {
    let mut machine = new_machine(rt.alloc()).expect(&rt, "a fixture");
    let ((), word) = lent!(
        rt,
        machine.reserve(8, 8, 8),
        BufError::Memory,
        machine.handles().is_empty()
    );
    end(&rt, word, true);
}
