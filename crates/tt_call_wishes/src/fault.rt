//! The reasons why a solution and wishes aren't checked.

use std::alloc::AllocError;
use thiserror::Error;
use tt_instance_read::InstanceFault;
use tt_table::SolutionFault;
use tt_wishes::WishesFault;

/// The reason why there is no answer.
#[derive(Clone, Copy, Debug, PartialEq, Eq, Error)]
pub enum ValidateFault {
    #[error("instance: {0}")]
    Instance(InstanceFault),
    #[error("solution: {0}")]
    Solution(SolutionFault),
    #[error("wishes: {0}")]
    Wishes(WishesFault),
    #[error("out of memory")]
    OutOfMemory,
}

impl From<AllocError> for ValidateFault {
    ghost use Rattle.std.specs.Prelude.{◌≡◌};
    ghost use Rattle.tt_call_wishes.specs.declared.fault.ValidateFault.TheVariants as fault;

    ghost from_gives = { λ _ e. e ≡ fault.OutOfMemory };

    fn from(_e: AllocError) -> ValidateFault {
        ValidateFault::OutOfMemory
    }
}

impl From<InstanceFault> for ValidateFault {
    ghost use Rattle.std.specs.Prelude.{◌≡◌};
    ghost use Rattle.tt_call_wishes.specs.Wished.{fault_from_instance};

    ghost from_gives = { λ f e. e ≡ fault_from_instance f };

    fn from(fault: InstanceFault) -> ValidateFault {
        match fault {
            InstanceFault::OutOfMemory => ValidateFault::OutOfMemory,
            fault => ValidateFault::Instance(fault),
        }
    }
}

impl From<SolutionFault> for ValidateFault {
    ghost use Rattle.std.specs.Prelude.{◌≡◌};
    ghost use Rattle.tt_call_wishes.specs.Wished.{fault_from_solution};

    ghost from_gives = { λ f e. e ≡ fault_from_solution f };

    fn from(fault: SolutionFault) -> ValidateFault {
        match fault {
            SolutionFault::OutOfMemory => ValidateFault::OutOfMemory,
            fault => ValidateFault::Solution(fault),
        }
    }
}

impl From<WishesFault> for ValidateFault {
    ghost use Rattle.std.specs.Prelude.{◌≡◌};
    ghost use Rattle.tt_call_wishes.specs.Wished.{fault_from_wishes};

    ghost from_gives = { λ f e. e ≡ fault_from_wishes f };

    fn from(fault: WishesFault) -> ValidateFault {
        match fault {
            WishesFault::OutOfMemory => ValidateFault::OutOfMemory,
            fault => ValidateFault::Wishes(fault),
        }
    }
}
