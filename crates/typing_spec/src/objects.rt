//! All extensions.

ghost use Rattle.std.specs.Prelude.{◌≡◌, IfOk};
ghost use Rattle.typing_spec.specs.Table.{all_extensions};

use crate::{ExtensionSchema, datetime, decimal, ipaddr};
use std::alloc::{AllocError, Global};

/// The extensions of decimals, of ranges of IP addresses, and of points in time and durations.
pub fn all_objects(alloc: Global) -> Result<Vec<ExtensionSchema>, AllocError>
    ensures { IfOk result (λ es. es.items ≡ all_extensions) }
{
    let mut objects = Vec::new(alloc);
    objects.push(decimal::extension_schema(alloc)?)?;
    objects.push(ipaddr::extension_schema(alloc)?)?;
    objects.push(datetime::extension_schema(alloc)?)?;
    Ok(objects)
}
