// Why calls were not given.
ghost use Rattle.std.specs.Prelude.{◌≡◌};
ghost use Rattle.depository.specs.declared.stop.Stop.TheVariants.{NoMemory};

use refusals::Fault;
use std::alloc::AllocError;
use std::error::Error;
use std::fmt;

/// Why no call was given to a depository.
#[derive(Clone, Copy, Debug, PartialEq, Eq)]
pub enum Stop {
    /// What comes before the first call was refused, as the format of the device.
    ByFault(Fault),
    /// Memory ran out.
    NoMemory(AllocError),
}

impl fmt::Display for Stop {
    fn fmt<W: fmt::Write>(&self, f: &mut fmt::Formatter<W>) -> fmt::Result {
        match self {
            Stop::ByFault(fault) => write!(f, "no call was given: {fault}"),
            Stop::NoMemory(_) => write!(f, "no call was given: out of memory"),
        }
    }
}

impl Error for Stop {}

impl From<AllocError> for Stop {
    ghost from_gives = { λ error stop. stop ≡ NoMemory error };

    fn from(error: AllocError) -> Stop {
        Stop::NoMemory(error)
    }
}
