// Pairs: two values, in order. More values are pairs in pairs.
ghost use Rattle.std.specs.Prelude.{◌≡◌, ◌+◌, ◌++◌, ◌≤◌, length, IfOk, IfErr};
ghost use Rattle.iobufs_codec.specs.Form.{IsPairFault};
ghost use Rattle.iobufs_codec.specs.Forms.{pair_form};
ghost use Rattle.std.proofs.Common.{refl};

use crate::look::has_len;
use crate::{Fault, Look};
use iobufs_core::codec::{Buf, Peek};
use std::alloc::Global;

impl<A: Look + Drop, B: Look + Drop> Look for (A, B) {
    type Cfg = (A::Cfg, B::Cfg);

    ghost is_found = { λ text skip cfg p. A.is_found text skip cfg.0 p.0
        × B.is_found text (skip + length (A.written p.0)) cfg.1 p.1 };

    ghost is_fault = { λ text skip cfg fault. IsPairFault A.written A.is_found A.is_fault
        (λ t k f. B.is_fault t k cfg.1 f) text skip cfg.0 fault };

    ghost admits = { λ cfg p. A.admits cfg.0 p.0 × B.admits cfg.1 p.1 };

    ghost same = { λ p q. A.same p.0 q.0 × B.same p.1 q.1 };

    fn look<R: Peek>(
        alloc: Global,
        buf: &R,
        skip: usize,
        cfg: &(A::Cfg, B::Cfg),
    ) -> Result<((A, B), usize), Fault> {
        has_len(buf);
        let (one, len) = A::look(alloc, buf, skip, &cfg.0)?;
        let end = skip + len;
        let (two, len) = B::look(alloc, buf, end, &cfg.1)?;
        let end = end + len;
        Ok(((one, two), end - skip))
    }

    ghost form = { pair_form A.form B.form };
}
