// A request of one of four kinds, read and written as a value of one kind or another after the byte of its kind.
ghost use Rattle.std.specs.Prelude.{◌≡◌};
ghost use Rattle.iobufs_codec.specs.declared.kinds.Either.TheVariants.{First, Second};
ghost use Rattle.iobufs_examples.specs.declared.request.Request.TheVariants.{Get, Put, Sync, Ping};

use iobufs_codec::{ByParts, Either, IntoParts, Kind};
use iobufs_core::buf::IoBuf;

/// A request to a store.
#[derive(PartialEq, Drop)]
pub enum Request {
    /// Get at most `limit` bytes of the value of a key.
    Get { key: IoBuf, limit: u32 },
    /// Store the body as the value of a key.
    Put { key: IoBuf, body: IoBuf },
    /// Store all that was put, up to this number.
    Sync(u64),
    /// Answer.
    Ping,
}

// [docs: request_parts]
/// The parts of a request: each kind after its byte.
pub type RequestParts = Either<
    Kind<0, (IoBuf, u32)>,
    Either<Kind<1, (IoBuf, IoBuf)>, Either<Kind<2, u64>, Kind<3, ()>>>,
>;
// [docs end]

impl ByParts for Request {
    type Parts = RequestParts;

    ghost parts = { λ request. elim request [
      | Get key limit ↦ First (record { value = (key, limit) })
      | Put key body ↦ Second (First (record { value = (key, body) }))
      | Sync last ↦ Second (Second (First (record { value = last })))
      | Ping ↦ Second (Second (Second (record { value = tt })))
    ] };

    fn from_parts(all: RequestParts) -> Request {
        match all {
            Either::First(
                Kind {
                    value: (key, limit),
                },
            ) => Request::Get { key, limit },
            Either::Second(Either::First(Kind { value: (key, body) })) => Request::Put {
                key,
                body,
            },
            Either::Second(Either::Second(Either::First(Kind { value }))) => Request::Sync(value),
            Either::Second(Either::Second(Either::Second(Kind { value: () }))) => Request::Ping,
        }
    }
}

impl IntoParts for Request {
    fn into_parts(self) -> RequestParts {
        match self {
            Request::Get { key, limit } => Either::First(Kind {
                value: (key, limit),
            }),
            Request::Put { key, body } => Either::Second(Either::First(Kind {
                value: (key, body),
            })),
            Request::Sync(value) => {
                Either::Second(Either::Second(Either::First(Kind { value })))
            }
            Request::Ping => Either::Second(Either::Second(Either::Second(Kind { value: () }))),
        }
    }
}
