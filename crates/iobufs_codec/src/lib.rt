//! Values that are decoded whole or not at all, also of several fields.
//!
//! - `look`: the trait `Look`, with `read_whole` and `decode_cfg` over it. `fault`: why a value is not decoded.
//! - `numbers`, `views`, `option`, `several`: numbers and lengths; views, `Bytes` and arrays; `bool` and `Option`;
//!   pairs. `signed` and `list`: signed numbers, and lists.
//! - `parts`: types that are read and written as their fields, as pairs in pairs.
//! - `kinds`: a byte for the kind followed by a value, and a value of one of two kinds.
//! - `specs/`: `Form` has what a value has to meet, in one record; `Forms`, `Kinds`, `Listed` and `Signed` have proofs
//!   that each value meets it.
#![tactic(auto)]

mod fault;
mod kinds;
mod list;
mod look;
mod numbers;
mod option;
mod parts;
mod several;
mod signed;
mod views;

pub use fault::Fault;
pub use kinds::{Either, Kind, Tagged};
pub use list::List;
pub use look::Look;
pub use parts::{ByParts, FromText, IntoParts};
pub use signed::{Signed, SignedNumber};
