//! Values of extension types that texts stand for.

ghost use Rattle.std.specs.Prelude.{◌≡◌};
ghost use Rattle.policy_values.specs.Readings.{decimal_in, range_in, datetime_in, duration_in};

use policy_ext::{DateTimeValue, Decimal, Duration, IpAddr};

/// The decimal that a text stands for, where it stands for one.
pub fn read_decimal(text: &str) -> Option<Decimal>
    ensures { result ≡ decimal_in text.now }
{
    Decimal::read(text)
}

/// The range of IP addresses that a text stands for, where it stands for one.
pub fn read_ip(text: &str) -> Option<IpAddr>
    ensures { result ≡ range_in text.now }
{
    IpAddr::read(text)
}

/// The point in time that a text stands for, where it stands for one.
pub fn read_datetime(text: &str) -> Option<DateTimeValue>
    ensures { result ≡ datetime_in text.now }
{
    DateTimeValue::read(text)
}

/// The duration that a text stands for, where it stands for one.
pub fn read_duration(text: &str) -> Option<Duration>
    ensures { result ≡ duration_in text.now }
{
    Duration::read(text)
}
