//! Why a pool isn't opened, and whether it isn't.
ghost use Rattle.std.specs.Prelude.{◌≡◌, ◌+◌, ◌≤◌, All, length, sum};
ghost use Rattle.quota_pool.specs.Faults.{too_much_from, above_cap_from};

use crate::plans::Plan;
use std::alloc::AllocError;

/// Why a pool isn't opened.
#[derive(Clone, Copy, Debug, PartialEq, Eq)]
pub enum PoolFault {
    /// the opening of this tenant, the first such, and its allowances reach 2^63 together
    TooMuch {
        tenant: u32,
        opening: u64,
        total: u128,
    },
    /// memory ran out
    NoMemory,
    /// the opening of this tenant, the first such, is above its cap
    AboveCap {
        tenant: u32,
        opening: u64,
        cap: u64,
    },
}

impl From<AllocError> for PoolFault {
    ghost use Rattle.std.specs.Prelude.{◌≡◌};
    ghost use Rattle.quota_pool.specs.declared.faults.PoolFault.TheVariants as fault;

    ghost from_gives = { λ _ e. e ≡ fault.NoMemory };

    fn from(_: AllocError) -> Self {
        PoolFault::NoMemory
    }
}

// The least total of an opening and its allowances that is too much.
const TOO_MUCH: u128 = 9223372036854775808;

// An opening and all allowances.
fn total(opening: u64, allowances: &[u64]) -> u128
    requires { length allowances.now ≤ 64 }
    ensures { result ≡ opening + sum allowances.now }
{
    let mut total = u128::from(opening);
    for allowance in allowances {
        total += u128::from(*allowance);
    }
    total
}

/// The first tenant whose opening and allowances reach 2^63 together.
pub fn too_much(openings: &[u64], plans: &[Plan]) -> Option<PoolFault>
    requires few { length openings.now ≤ 256 }
    requires one_each { length plans.now ≡ length openings.now }
    requires plans { All (λ plan. length plan ≤ 64) plans.now }
    ensures { result ≡ too_much_from 0 openings.now plans.now }
{
    for (tenant, plan) in plans.iter().enumerate() {
        let opening = openings[tenant];
        let total = total(opening, &plan.items);
        if total >= TOO_MUCH {
            let tenant = tenant as u32;
            return Some(PoolFault::TooMuch {
                tenant,
                opening,
                total,
            });
        }
    }
    None
}

/// The first tenant whose opening is above its cap.
pub fn above_cap(openings: &[u64], caps: &[u64]) -> Option<PoolFault>
    requires few { length openings.now ≤ 256 }
    requires one_each { length caps.now ≡ length openings.now }
    ensures { result ≡ above_cap_from 0 openings.now caps.now }
{
    for (tenant, cap) in caps.iter().enumerate() {
        let opening = openings[tenant];
        if opening > *cap {
            return Some(PoolFault::AboveCap {
                tenant: tenant as u32,
                opening,
                cap: *cap,
            });
        }
    }
    None
}
