// The machine where no stored session of the program goes: it reserves entries before each step, and gives no list of
// steps.
use crate::same::assert_same;
use iobufs_owner::format::FORMAT_64;
use iobufs_owner::owner::Act::Begin;
use iobufs_owner::owner::Reply::{self, Made, Refused, Unique};
use iobufs_owner::owner::{Call, Machine, Refusal, Step};
use std::test::Fail;

// Calls once one block, three handles and one record are reserved, and the reply to each.
const RESERVED: [(Call, Reply); 4] = [
    (Call::New(64, 8, 1), Made(0)),
    (Call::Static(5), Made(1)),
    (Call::Static(5), Made(2)),
    (Call::Static(5), Refused(Refusal::Room)),
];

pub fn begun(call: Call) -> Step {
    Step {
        thread: 0,
        act: Begin(call, true),
    }
}

// A step that adds an entry is refused if none is reserved. A reservation changes no table.
#[test]
fn reserved_entries(rt: HostRuntime) -> Result<(), Fail> {
    let mut machine = Machine::new(rt.alloc(), 1, 9, FORMAT_64)?;
    assert_same!(rt; machine.step(begun(Call::Static(5))), Refused(Refusal::Room));
    machine.reserve(1, 3, 1)?;
    assert_same!(rt; machine.handles(), [].as_slice());
    for (call, wanted) in &RESERVED {
        assert_same!(rt; machine.step(begun(*call)), *wanted, "{call:?}");
    }
    Ok(())
}

#[test]
fn five_thousand_blocks(rt: HostRuntime) -> Result<(), Fail> {
    let mut steps = Vec::new(rt.alloc());
    for number in 0..5000_u64 {
        steps.push(begun(Call::New(64 * (number + 1), 16, 1)))?;
    }
    let mut machine = Machine::new(rt.alloc(), 1, 9, FORMAT_64)?;
    let replies = machine.run(steps.as_slice())?;
    for (number, reply) in replies.iter().enumerate() {
        assert_same!(rt; *reply, Made(number));
    }
    assert_same!(rt; (replies.len(), machine.blocks().len()), (5000, 5000));
    assert_same!(rt; machine.step(begun(Call::IsUnique(4999))), Unique(true));
    Ok(())
}
