//! Why a bucket isn't opened.
use fn_funnel::OpenFault;
use std::alloc::AllocError;
use tick_table::NoMemory;

/// Why a bucket isn't opened.
#[derive(Clone, Copy, Debug, PartialEq, Eq)]
pub enum BucketFault {
    /// the opening and the allowances reach 2^63 together
    TooMuch { opening: u64, total: u128 },
    /// the opening is above the burst
    AboveCap { opening: u64, cap: u64 },
    /// memory ran out
    NoMemory,
}

impl From<OpenFault> for BucketFault {
    ghost use Rattle.std.specs.Prelude.{◌≡◌};
    ghost use Rattle.quota_bucket.specs.Faults.{fault_of};

    ghost from_gives = { λ fault e. e ≡ fault_of fault };

    fn from(fault: OpenFault) -> Self {
        match fault {
            OpenFault::TooMuch { opening, total } => BucketFault::TooMuch { opening, total },
            OpenFault::AboveCap { opening, cap } => BucketFault::AboveCap { opening, cap },
            OpenFault::NoMemory => BucketFault::NoMemory,
        }
    }
}

impl From<NoMemory> for BucketFault {
    ghost use Rattle.std.specs.Prelude.{◌≡◌};
    ghost use Rattle.quota_bucket.specs.declared.faults.BucketFault.TheVariants as fault;

    ghost from_gives = { λ _ e. e ≡ fault.NoMemory };

    fn from(_: NoMemory) -> Self {
        BucketFault::NoMemory
    }
}

impl From<AllocError> for BucketFault {
    ghost use Rattle.std.specs.Prelude.{◌≡◌};
    ghost use Rattle.quota_bucket.specs.declared.faults.BucketFault.TheVariants as fault;

    ghost from_gives = { λ _ e. e ≡ fault.NoMemory };

    fn from(_: AllocError) -> Self {
        BucketFault::NoMemory
    }
}
