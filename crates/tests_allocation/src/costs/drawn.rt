// Lengths, numbers of chunks and offsets that are drawn by a word of the environment, so that no table shows which they
// are.
use crate::costs::shape::Shape;
use crate::costs::{count_parts, count_rows, count_texts, count_views};
use iobufs_core::codec::BufError;
use std::alloc::Global;
use std::env::Env;
use std::test::Fail;
use tests_fixtures::stores::{ORIGINS, STORES, Store};

// Numbers that follow from a first one.
#[derive(Drop)]
pub(crate) struct Draw {
    state: u64,
}

// The scales that a number is drawn from: as many are small as are large.
const SCALES: [usize; 9] = [1, 8, 64, 300, 1500, 8000, 65536, 500000, 4194304];

// How many bytes several chunks have at most.
const MOST: usize = 4194304;

impl Draw {
    // Begins with the word that `DRAW` has in the environment.
    pub(crate) fn new(rt: &impl Env) -> Draw {
        let mut word = [0u8; 64];
        let len = rt.var("DRAW", &mut word).unwrap_or(0);
        let mut state = 1u64;
        for byte in word.get(..len).unwrap_or_default() {
            state = (state ^ u64::from(*byte)).wrapping_mul(1099511628211);
        }
        Draw { state }
    }

    // A number below a limit, or 0.
    pub(crate) fn below(&mut self, limit: usize) -> usize {
        self.state = self
            .state
            .wrapping_mul(6364136223846793005)
            .wrapping_add(1442695040888963407);
        let drawn = usize::try_from(self.state >> 20).unwrap_or(0);
        drawn.checked_rem(limit).unwrap_or(0)
    }

    // A number from 1 to a limit, of a drawn scale.
    pub(crate) fn size(&mut self, limit: usize) -> usize {
        let scale = SCALES.get(self.below(SCALES.len())).copied().unwrap_or(1);
        self.below(scale.min(limit)).saturating_add(1)
    }

    // A buffer of so many chunks of so many bytes, and two offsets in 65,536ths that are multiples of a step.
    fn shape(
        &mut self,
        alloc: Global,
        count: usize,
        len: usize,
        step: usize,
    ) -> Result<Shape, BufError> {
        let steps = 65536usize.checked_div(step).unwrap_or(0);
        let (one, other) = (self.below(steps), self.below(steps));
        Ok(Shape {
            lower: one.min(other).saturating_mul(step),
            upper: one.max(other).saturating_mul(step),
            ..Shape::new(alloc, count, len)?
        })
    }

    // Two buffers of one number of chunks, with equal offsets in 64ths. A chunk has at least 64 bytes, so that an
    // offset within one is within one of the other too.
    fn pair(&mut self, alloc: Global) -> Result<(Shape, Shape), BufError> {
        let count = self.size(65536);
        let most = MOST.checked_div(count).unwrap_or(0);
        let first = self.shape(alloc, count, 64, 1024)?;
        let len = self.size(most).saturating_add(64);
        let second = Shape::new(alloc, count, len)?;
        let second = Shape {
            lower: first.lower,
            upper: first.upper,
            ..second
        };
        Ok((first, second))
    }
}

#[test]
fn views(rt: HostRuntime) -> Result<(), Fail> {
    let mut draw = Draw::new(&rt);
    for _ in 0..3 {
        let len = draw.size(MOST);
        let shape = draw.shape(rt.alloc(), 1, len, 1)?;
        for kind in STORES {
            count_views(&rt, &shape, kind)?;
        }
    }
    Ok(())
}

#[test]
fn parts(rt: HostRuntime) -> Result<(), Fail> {
    let mut draw = Draw::new(&rt);
    for _ in 0..3 {
        let len = draw.size(MOST);
        let shape = draw.shape(rt.alloc(), 1, len, 1)?;
        for origin in ORIGINS {
            count_parts(&rt, &shape, origin)?;
        }
    }
    Ok(())
}

#[test]
fn texts(rt: HostRuntime) -> Result<(), Fail> {
    let (first, second) = Draw::new(&rt).pair(rt.alloc())?;
    for shape in [first, second] {
        count_texts(&rt, &shape, Store::Static)?;
        count_texts(&rt, &shape, Store::Full)?;
    }
    Ok(())
}

#[test]
fn rows(rt: HostRuntime) -> Result<(), Fail> {
    let (first, second) = Draw::new(&rt).pair(rt.alloc())?;
    for shape in [first, second] {
        count_rows(&rt, &shape)?;
    }
    Ok(())
}
