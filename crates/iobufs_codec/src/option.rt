// `()`, a `bool`, and an `Option` after a byte that says whether a value follows.
ghost use Rattle.std.specs.Prelude.{◌≡◌, ⊤};
ghost use Rattle.iobufs_core.specs.Wire.{flag};
ghost use Rattle.iobufs_codec.specs.Form.{IsBoolFault, IsByteAt, IsOptionAdmitted, IsOptionFault, IsOptionFound, IsSameOption};
ghost use Rattle.iobufs_codec.specs.Forms.{bool_form, option_form, unit_form};

use crate::look::has_len;
use crate::{Fault, Look};
use iobufs_core::codec::{Buf, Peek};
use std::alloc::Global;

impl Look for () {
    type Cfg = ();

    ghost is_found = { λ _ _ _ _. Unit {0} };

    ghost is_fault = { λ _ _ _ _. ⊥ };

    ghost admits = { λ _ _. Unit {0} };

    fn look<B: Peek>(
        _alloc: Global,
        _buf: &B,
        _skip: usize,
        _cfg: &(),
    ) -> Result<((), usize), Fault> {
        Ok(((), 0))
    }

    ghost form = { unit_form _ };
}

impl Look for bool {
    type Cfg = ();

    ghost is_found = { λ text skip _ truth. IsByteAt text skip (flag truth) };

    ghost is_fault = { λ text skip _ fault. IsBoolFault text skip fault };

    ghost admits = { λ _ _. Unit {0} };

    fn look<B: Peek>(
        alloc: Global,
        buf: &B,
        skip: usize,
        _cfg: &(),
    ) -> Result<(bool, usize), Fault> {
        let (byte, len) = u8::look(alloc, buf, skip, &())?;
        match byte {
            0 => Ok((false, len)),
            1 => Ok((true, len)),
            _ => Err(Fault::InvalidBool),
        }
    }

    ghost form = { bool_form _ };
}

impl<T: Look + Drop> Look for Option<T> {
    type Cfg = T::Cfg;

    ghost is_found = { IsOptionFound T.is_found };

    ghost is_fault = { IsOptionFault T.is_fault };

    ghost admits = { IsOptionAdmitted T.admits };

    ghost same = { IsSameOption T.same };

    fn look<B: Peek>(
        alloc: Global,
        buf: &B,
        skip: usize,
        cfg: &T::Cfg,
    ) -> Result<(Option<T>, usize), Fault> {
        has_len(buf);
        let (is_there, _) = bool::look(alloc, buf, skip, &())?;
        if !is_there {
            return Ok((None, 1));
        }
        let (value, len) = T::look(alloc, buf, skip + 1, cfg)?;
        Ok((Some(value), 1 + len))
    }

    ghost form = { option_form T.form };
}
