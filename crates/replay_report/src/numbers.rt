//! Numbers in decimal digits.
ghost use Rattle.std.specs.Prelude.{◌≡◌, ◌++◌, decimal, OnOk};

use itoa::Buffer;
use std::alloc::AllocError;

/// Appends a number.
#[inline(always)]
pub fn push_number(text: &mut Vec<u8>, number: u64) -> Result<(), AllocError>
    ensures { OnOk result (text.new.items ≡ text.old.items ++ decimal number) }
{
    let mut buffer = Buffer::new();
    text.extend_from_slice(buffer.format(number).as_bytes())
}

/// Appends a sum.
#[inline(always)]
pub fn push_sum(text: &mut Vec<u8>, sum: u128) -> Result<(), AllocError>
    ensures { OnOk result (text.new.items ≡ text.old.items ++ decimal sum) }
{
    let mut buffer = Buffer::new();
    text.extend_from_slice(buffer.format(sum).as_bytes())
}

/// Appends a name and a number.
#[inline(always)]
pub fn push_named(text: &mut Vec<u8>, name: &[u8], number: u64) -> Result<(), AllocError>
    ensures { OnOk result (text.new.items ≡ text.old.items ++ name.now ++ decimal number) }
{
    text.extend_from_slice(name)?;
    push_number(text, number)
}

/// Appends a name and a sum.
#[inline(always)]
pub fn push_named_sum(text: &mut Vec<u8>, name: &[u8], sum: u128) -> Result<(), AllocError>
    ensures { OnOk result (text.new.items ≡ text.old.items ++ name.now ++ decimal sum) }
{
    text.extend_from_slice(name)?;
    push_sum(text, sum)
}
