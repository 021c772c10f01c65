// A pool over a machine, without allocation failure.
use crate::same::assert_same;
use iobufs_examples::pool::Pool;
use iobufs_owner::format::FORMAT_64;
use iobufs_owner::owner::{Act, Call, Freed, Machine, Reply, Step};
use std::process::Abort;
use std::test::Fail;

// A call of the only thread, the reply to it, and what the pool then hands out.
#[derive(Clone, Copy)]
struct Case {
    call: Call,
    reply: Reply,
    taken: &'static [Option<Freed>],
}

const FIRST: Freed = Freed {
    base: 64,
    size: 8,
    align: 1,
};

const SECOND: Freed = Freed {
    base: 128,
    size: 4,
    align: 4,
};

const CASES: [Case; 4] = [
    Case {
        call: Call::New(64, 8, 1),
        reply: Reply::Made(0),
        taken: &[],
    },
    Case {
        call: Call::New(128, 4, 4),
        reply: Reply::Made(1),
        taken: &[None],
    },
    Case {
        call: Call::Drop(1),
        reply: Reply::Done,
        taken: &[Some(SECOND), None],
    },
    Case {
        call: Call::Drop(0),
        reply: Reply::Done,
        taken: &[Some(FIRST), None],
    },
];

fn assert_case(rt: &impl Abort, machine: &mut Machine, pool: &mut Pool, case: &Case) {
    let act = Act::Begin(case.call, true);
    let reply = machine.step(Step { thread: 0, act });
    assert_same!(rt; reply, case.reply, "{act:?}");
    for wanted in case.taken {
        assert_same!(rt; pool.take(machine), *wanted, "after {act:?}");
    }
}

#[test]
fn freed_memory_is_handed_out_once(rt: HostRuntime) -> Result<(), Fail> {
    let mut machine = Machine::new(rt.alloc(), 1, 9, FORMAT_64)?;
    machine.reserve(2, 2, 0)?;
    let mut pool = Pool::new();
    for case in &CASES {
        assert_case(&rt, &mut machine, &mut pool, case);
    }
    Ok(())
}
