ghost use Rattle.std.specs.Prelude.{◌≡◌};
ghost use Rattle.query_program.specs.Stops.{status_of};

use std::alloc::AllocError;
use text_spec::OutOfMemory;

/// Why a run ends before all is answered.
#[derive(Clone, Copy, Debug, PartialEq, Eq)]
pub(crate) enum Stop {
    /// A read failed.
    ReadFault,
    /// A write failed or took nothing.
    WriteFault,
    /// Memory was wanting.
    OutOfMemory,
    /// A line passed its limit.
    LineTooLong,
    /// The input passed its limit.
    InputTooLong,
}

impl Stop {
    /// The status that the run ends with, 3 to 7.
    pub(crate) fn status(self) -> u8
        ensures { result ≡ status_of self }
    {
        match self {
            Stop::ReadFault => 3,
            Stop::WriteFault => 4,
            Stop::OutOfMemory => 5,
            Stop::LineTooLong => 6,
            Stop::InputTooLong => 7,
        }
    }
}

impl From<AllocError> for Stop {
    ghost use Rattle.std.specs.Prelude.{◌≡◌};
    ghost use Rattle.query_program.specs.declared.stop.Stop.TheVariants.{OutOfMemory};

    ghost from_gives = { λ _ e. e ≡ OutOfMemory };

    fn from(_refused: AllocError) -> Stop {
        Stop::OutOfMemory
    }
}

impl From<OutOfMemory> for Stop {
    ghost use Rattle.std.specs.Prelude.{◌≡◌};
    ghost use Rattle.query_program.specs.declared.stop.Stop.TheVariants.{OutOfMemory};

    ghost from_gives = { λ _ e. e ≡ OutOfMemory };

    fn from(_refused: OutOfMemory) -> Stop {
        Stop::OutOfMemory
    }
}
