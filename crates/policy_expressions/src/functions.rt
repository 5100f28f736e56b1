//! Extension functions, and which name stands for which.

ghost use Rattle.std.specs.Prelude.{◌≡◌, Some};
ghost use Rattle.policy_expressions.specs.Functions.{function_of, decimal_functions, ip_functions, datetime_functions, duration_functions};
ghost use Rattle.policy_expressions.specs.Tables.{beside};

/// An extension function of one argument.
#[derive(Clone, Copy, Debug, PartialEq, Eq)]
pub enum UnaryFunction {
    /// `decimal` of a string.
    Decimal,
    /// `ip` of a string.
    Ip,
    /// `datetime` of a string.
    Datetime,
    /// `duration` of a string.
    Duration,
    /// `isIpv4` of a range of IP addresses.
    IsIpv4,
    /// `isIpv6` of a range of IP addresses.
    IsIpv6,
    /// `isLoopback` of a range of IP addresses.
    IsLoopback,
    /// `isMulticast` of a range of IP addresses.
    IsMulticast,
    /// `toDate` of a datetime.
    ToDate,
    /// `toTime` of a datetime.
    ToTime,
    /// `toMilliseconds` of a duration.
    ToMilliseconds,
    /// `toSeconds` of a duration.
    ToSeconds,
    /// `toMinutes` of a duration.
    ToMinutes,
    /// `toHours` of a duration.
    ToHours,
    /// `toDays` of a duration.
    ToDays,
}

/// An extension function of two arguments.
#[derive(Clone, Copy, Debug, PartialEq, Eq)]
pub enum BinaryFunction {
    /// `lessThan` of two decimals.
    LessThan,
    /// `lessThanOrEqual` of two decimals.
    LessThanOrEqual,
    /// `greaterThan` of two decimals.
    GreaterThan,
    /// `greaterThanOrEqual` of two decimals.
    GreaterThanOrEqual,
    /// `isInRange` of two ranges of IP addresses.
    IsInRange,
    /// `offset` of a datetime and a duration.
    Offset,
    /// `durationSince` of two datetimes.
    DurationSince,
}

/// An extension function.
#[derive(Clone, Copy, Debug, PartialEq, Eq)]
pub enum ExtensionFunction {
    /// One that takes one argument.
    Unary(UnaryFunction),
    /// One that takes two.
    Binary(BinaryFunction),
}

/// The extension function of a name, where there is one.
#[tactic(auto, unfolding(crate::specs::Functions::functions))]
pub fn extension_function(name: &str) -> Option<ExtensionFunction>
    ensures { result ≡ function_of name.now }
{
    match name {
        "decimal" => unary(UnaryFunction::Decimal),
        "ip" => unary(UnaryFunction::Ip),
        "datetime" => unary(UnaryFunction::Datetime),
        "duration" => unary(UnaryFunction::Duration),
        _ => decimal_function(name),
    }
}

fn unary(function: UnaryFunction) -> Option<ExtensionFunction>
    ensures { result ≡ Some (ExtensionFunction.Unary function) }
{
    Some(ExtensionFunction::Unary(function))
}

fn binary(function: BinaryFunction) -> Option<ExtensionFunction>
    ensures { result ≡ Some (ExtensionFunction.Binary function) }
{
    Some(ExtensionFunction::Binary(function))
}

#[tactic(auto, unfolding(crate::specs::Functions::decimal_functions))]
fn decimal_function(name: &str) -> Option<ExtensionFunction>
    ensures { result ≡ beside decimal_functions name.now }
{
    match name {
        "lessThan" => binary(BinaryFunction::LessThan),
        "lessThanOrEqual" => binary(BinaryFunction::LessThanOrEqual),
        "greaterThan" => binary(BinaryFunction::GreaterThan),
        "greaterThanOrEqual" => binary(BinaryFunction::GreaterThanOrEqual),
        _ => ip_function(name),
    }
}

#[tactic(auto, unfolding(crate::specs::Functions::ip_functions))]
fn ip_function(name: &str) -> Option<ExtensionFunction>
    ensures { result ≡ beside ip_functions name.now }
{
    match name {
        "isIpv4" => unary(UnaryFunction::IsIpv4),
        "isIpv6" => unary(UnaryFunction::IsIpv6),
        "isLoopback" => unary(UnaryFunction::IsLoopback),
        "isMulticast" => unary(UnaryFunction::IsMulticast),
        "isInRange" => binary(BinaryFunction::IsInRange),
        _ => datetime_function(name),
    }
}

#[tactic(auto, unfolding(crate::specs::Functions::datetime_functions))]
fn datetime_function(name: &str) -> Option<ExtensionFunction>
    ensures { result ≡ beside datetime_functions name.now }
{
    match name {
        "offset" => binary(BinaryFunction::Offset),
        "durationSince" => binary(BinaryFunction::DurationSince),
        "toDate" => unary(UnaryFunction::ToDate),
        "toTime" => unary(UnaryFunction::ToTime),
        _ => duration_function(name),
    }
}

#[tactic(auto, unfolding(crate::specs::Functions::duration_functions))]
fn duration_function(name: &str) -> Option<ExtensionFunction>
    ensures { result ≡ beside duration_functions name.now }
{
    match name {
        "toMilliseconds" => unary(UnaryFunction::ToMilliseconds),
        "toSeconds" => unary(UnaryFunction::ToSeconds),
        "toMinutes" => unary(UnaryFunction::ToMinutes),
        "toHours" => unary(UnaryFunction::ToHours),
        "toDays" => unary(UnaryFunction::ToDays),
        _ => None,
    }
}
