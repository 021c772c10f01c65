// Schedules of clones and drops, each given to the machine as one list. `tests/rows` has them line by line.
use crate::owner::steps::begun;
use crate::same::assert_same;
use iobufs_owner::format::FORMAT_64;
use iobufs_owner::owner::Act::{self, Begin, Go};
use iobufs_owner::owner::Reply::{self, Declined, Done, Made, More, Refused, Unique};
use iobufs_owner::owner::{Call, Freed, Machine, Refusal, Step};
use std::alloc::{AllocError, Global};
use std::test::Fail;

// Each schedule begins with these calls of thread 0.
const OPENING: [(Call, Reply); 3] = [
    (Call::New(64, 12, 1), Made(0)),
    (Call::Put(0, 8), Done),
    (Call::Freeze(0), Done),
];

// The block that each schedule frees.
const BLOCK: Freed = Freed {
    base: 64,
    size: 12,
    align: 1,
};

struct Schedule {
    name: &'static str,
    // The machine's ceiling, and the records that are freed, in order.
    ceiling: u64,
    records: &'static [usize],
    // The steps after the opening: a thread, its act, the reply.
    steps: &'static [(usize, Act, Reply)],
}

macro_rules! schedules {
    ($($name:expr, $ceiling:expr, $records:expr, { $($thread:expr, $act:expr, $reply:expr;)+ })+) => {
        [$(Schedule {
            name: $name, ceiling: $ceiling, records: $records, steps: &[$(($thread, $act, $reply)),+]
        }),+]
    };
}

const SCHEDULES: [Schedule; 12] = schedules! {
    "Two promotions race, and three drops", 9, &[1, 0], {
        1, Begin(Call::Clone(0), true), More;
        2, Begin(Call::Clone(0), true), More;
        1, Go(true), More;
        2, Go(true), More;
        1, Go(true), Made(1);
        2, Go(true), More;
        2, Go(true), Made(2);
        0, Begin(Call::Drop(0), true), More;
        1, Begin(Call::Drop(1), true), More;
        2, Begin(Call::Drop(2), true), More;
        0, Go(true), Done;
        1, Go(true), Done;
        2, Go(true), More;
        2, Go(true), Done;
    }
    "One promotion after the other, then one drop after the other", 9, &[0], {
        0, Begin(Call::Clone(0), true), More;
        0, Go(true), More;
        0, Go(true), Made(1);
        1, Begin(Call::Clone(0), true), More;
        1, Go(true), Made(2);
        2, Begin(Call::Drop(0), true), More;
        2, Go(true), Done;
        3, Begin(Call::Drop(1), true), More;
        3, Go(true), Done;
        4, Begin(Call::Drop(2), true), More;
        4, Go(true), Done;
    }
    "The second promotion wins. All drops begin before one lets go, and the first of them is the last to", 9, &[0, 1], {
        0, Begin(Call::Clone(0), true), More;
        1, Begin(Call::Clone(0), true), More;
        0, Go(true), More;
        1, Go(true), More;
        1, Go(true), Made(1);
        0, Go(true), More;
        0, Go(true), Made(2);
        2, Begin(Call::Drop(0), true), More;
        3, Begin(Call::Drop(1), true), More;
        4, Begin(Call::Drop(2), true), More;
        4, Go(true), Done;
        3, Go(true), Done;
        2, Go(true), More;
        2, Go(true), Done;
    }
    "The winner's view is dropped before the loser is counted", 9, &[1, 0], {
        0, Begin(Call::Clone(0), true), More;
        1, Begin(Call::Clone(0), true), More;
        0, Go(true), More;
        1, Go(true), More;
        0, Go(true), Made(1);
        2, Begin(Call::Drop(1), true), More;
        1, Go(true), More;
        2, Go(true), Done;
        1, Go(true), Made(2);
        3, Begin(Call::Drop(0), true), More;
        4, Begin(Call::Drop(2), true), More;
        3, Go(true), Done;
        4, Go(true), More;
        4, Go(true), Done;
    }
    "A view with an unfinished clone isn't dropped; after that it is, while its clone is cloned", 9, &[0], {
        0, Begin(Call::Clone(0), true), More;
        2, Begin(Call::Drop(0), true), Refused(Refusal::Borrowed);
        0, Go(true), More;
        0, Go(true), Made(1);
        2, Begin(Call::Drop(0), true), More;
        1, Begin(Call::Clone(0), true), Refused(Refusal::NoHandle);
        1, Begin(Call::Clone(1), true), More;
        3, Begin(Call::Drop(1), true), Refused(Refusal::Borrowed);
        1, Go(true), Made(2);
        2, Go(true), Done;
        3, Begin(Call::Drop(1), true), More;
        4, Begin(Call::Drop(2), true), More;
        3, Go(true), Done;
        4, Go(true), More;
        4, Go(true), Done;
    }
    "The first promotion is denied memory, and begins again after the second has won", 9, &[0], {
        0, Begin(Call::Clone(0), true), More;
        0, Go(false), Refused(Refusal::Memory);
        1, Begin(Call::Clone(0), true), More;
        1, Go(true), More;
        1, Go(true), Made(1);
        0, Begin(Call::Clone(0), true), More;
        0, Go(true), Made(2);
        2, Begin(Call::Drop(2), true), More;
        2, Go(true), Done;
        3, Begin(Call::Drop(0), true), More;
        3, Go(true), Done;
        4, Begin(Call::Drop(1), true), More;
        4, Go(true), Done;
    }
    "Both promotions are denied memory, so the only drop frees the block", 9, &[], {
        0, Begin(Call::Clone(0), true), More;
        1, Begin(Call::Clone(0), true), More;
        0, Go(false), Refused(Refusal::Memory);
        1, Go(false), Refused(Refusal::Memory);
        2, Begin(Call::Drop(0), true), Done;
        3, Begin(Call::Drop(0), true), Refused(Refusal::NoHandle);
        4, Begin(Call::Drop(0), true), Refused(Refusal::NoHandle);
    }
    "Memory is denied in every step except the one that makes the record", 9, &[0], {
        0, Begin(Call::Clone(0), false), More;
        0, Go(true), More;
        0, Go(false), Made(1);
        1, Begin(Call::Clone(0), false), More;
        1, Go(false), Made(2);
        2, Begin(Call::Drop(0), false), More;
        3, Begin(Call::Drop(1), false), More;
        2, Go(false), Done;
        4, Begin(Call::Drop(2), false), More;
        4, Go(false), Done;
        3, Go(false), More;
        3, Go(false), Done;
    }
    "The loser comes to a count above the ceiling", 1, &[1, 0], {
        0, Begin(Call::Clone(0), true), More;
        1, Begin(Call::Clone(0), true), More;
        0, Go(true), More;
        1, Go(true), More;
        0, Go(true), Made(1);
        1, Go(true), More;
        1, Go(true), Refused(Refusal::Ceiling);
        2, Begin(Call::Drop(0), true), More;
        3, Begin(Call::Drop(1), true), More;
        2, Go(true), Done;
        3, Go(true), More;
        3, Go(true), Done;
        4, Begin(Call::Drop(2), true), Refused(Refusal::NoHandle);
    }
    "The loser is counted, since the winner's view is gone; the next clone comes above the ceiling", 1, &[1, 0], {
        0, Begin(Call::Clone(0), true), More;
        1, Begin(Call::Clone(0), true), More;
        0, Go(true), More;
        1, Go(true), More;
        0, Go(true), Made(1);
        2, Begin(Call::Drop(1), true), More;
        1, Go(true), More;
        2, Go(true), Done;
        1, Go(true), Made(2);
        0, Begin(Call::Clone(0), true), More;
        0, Go(true), Refused(Refusal::Ceiling);
        3, Begin(Call::Drop(0), true), More;
        3, Go(true), Done;
        4, Begin(Call::Drop(2), true), More;
        4, Go(true), Done;
    }
    "The view is recovered after the clones have let go, and dropped as a writable handle in one step", 9, &[0], {
        0, Begin(Call::Clone(0), true), More;
        0, Go(true), More;
        0, Go(true), Made(1);
        1, Begin(Call::Clone(0), true), More;
        1, Go(true), Made(2);
        2, Begin(Call::Drop(1), true), More;
        3, Begin(Call::Drop(2), true), More;
        2, Go(true), Done;
        4, Begin(Call::TryIntoMut(0), true), Declined;
        3, Go(true), Done;
        4, Begin(Call::TryIntoMut(0), true), Done;
        4, Begin(Call::Drop(0), true), Done;
    }
    "Memory is denied in each step except three: those that need it, those that don't, and earlier causes", 9, &[1], {
        1, Begin(Call::New(65, 8, 2), false), Refused(Refusal::BadPlace);
        1, Begin(Call::New(128, 8, 8), false), Refused(Refusal::Memory);
        1, Begin(Call::External(128, 8), false), Refused(Refusal::Memory);
        1, Begin(Call::Static(3), false), Made(1);
        1, Begin(Call::New(4096, 131073, 1), true), Made(2);
        1, Begin(Call::Put(2, 1), false), Done;
        1, Begin(Call::Freeze(2), false), Refused(Refusal::Memory);
        1, Begin(Call::Put(2, 3), false), Done;
        1, Begin(Call::Freeze(2), false), Done;
        1, Begin(Call::SplitTo(2, 0), false), Made(3);
        1, Begin(Call::SplitTo(2, 1), false), Refused(Refusal::Memory);
        1, Begin(Call::SplitTo(2, 4), false), Made(4);
        1, Begin(Call::SplitTo(4, 1), true), Made(5);
        1, Begin(Call::SplitTo(4, 1), false), Made(6);
        2, Begin(Call::Clone(0), false), More;
        2, Go(false), Refused(Refusal::Memory);
        2, Go(false), Refused(Refusal::Idle);
        2, Begin(Call::Clone(0), false), More;
        2, Go(true), More;
        2, Go(false), Made(7);
        3, Begin(Call::Slice(0, 2, 5), false), More;
        0, Begin(Call::Advance(0, 1), false), Refused(Refusal::Borrowed);
        3, Go(false), Made(8);
        0, Begin(Call::IsUnique(0), false), Unique(false);
        0, Begin(Call::TryIntoMut(0), false), Declined;
        0, Begin(Call::Demote(0), false), Declined;
        2, Begin(Call::Drop(7), false), More;
        2, Go(false), Done;
        3, Begin(Call::Drop(8), false), More;
        3, Go(false), Done;
        0, Begin(Call::Demote(0), false), Done;
        0, Begin(Call::Drop(0), false), Done;
    }
};

// The steps of a schedule, with its opening.
fn steps_of(alloc: Global, steps: &[(usize, Act, Reply)]) -> Result<Vec<Step>, AllocError> {
    let mut all = Vec::new(alloc);
    for (call, _) in &OPENING {
        all.push(begun(*call))?;
    }
    for (thread, act, _) in steps {
        let (thread, act) = (*thread, *act);
        all.push(Step { thread, act })?;
    }
    Ok(all)
}

// The replies to them.
fn replies_of(alloc: Global, steps: &[(usize, Act, Reply)]) -> Result<Vec<Reply>, AllocError> {
    let mut all = Vec::new(alloc);
    for (_, reply) in &OPENING {
        all.push(*reply)?;
    }
    for (_, _, reply) in steps {
        all.push(*reply)?;
    }
    Ok(all)
}

#[test]
fn as_one_list(rt: HostRuntime) -> Result<(), Fail> {
    for schedule in &SCHEDULES {
        let name = schedule.name;
        let steps = steps_of(rt.alloc(), schedule.steps)?;
        let wanted = replies_of(rt.alloc(), schedule.steps)?;
        let mut machine = Machine::new(rt.alloc(), 5, schedule.ceiling, FORMAT_64)?;
        assert_same!(rt; machine.run(steps.as_slice())?, wanted, "{name}");
        assert_same!(rt; machine.freed_blocks(), [BLOCK].as_slice(), "{name}");
        assert_same!(rt; machine.freed_records(), schedule.records, "{name}");
    }
    Ok(())
}
