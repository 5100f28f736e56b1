//! Laws of the texts of decimals and ranges, each over public calls alone: what is written is read back as
//! the same value.

ghost use Rattle.std.specs.Prelude.{◌≡◌, IfOk, Some};

use crate::{Decimal, IpAddr};
use std::alloc::{AllocError, Global};

/// What is written of a decimal is read back as the same decimal.
pub fn decimal_is_read_back(value: &Decimal, alloc: Global) -> Result<Option<Decimal>, AllocError>
    ensures { IfOk result (λ read. read ≡ Some value.now) }
{
    let text = value.text(alloc)?;
    Ok(Decimal::read(&text))
}

/// What is written of a range is read back as the same range.
pub fn range_is_read_back(value: &IpAddr, alloc: Global) -> Result<Option<IpAddr>, AllocError>
    ensures { IfOk result (λ read. read ≡ Some value.now) }
{
    let text = value.text(alloc)?;
    Ok(IpAddr::read(&text))
}
