//! Calls of extension functions.

ghost use Rattle.std.specs.Prelude.{◌≡◌, pos, ◌+ℤ◌, ◌-ℤ◌, ◌*ℤ◌, int_lt, int_le, int_div};
ghost use Rattle.policy_ext.specs.declared.ip_addr.Family.TheVariants.{V4, V6};
ghost use Rattle.policy_ext.specs.IpTests.{same_family, in_range, loopback, multicast};
ghost use Rattle.policy_ext.specs.DateTime.{day_of};
ghost use Rattle.policy_values.specs.Value.{decimal, ip, datetime, duration};
ghost use Rattle.policy_core.specs.Operators.{fit};
ghost use Rattle.policy_expressions.specs.Functions.{function_of};
ghost use Rattle.policy_values.specs.Readings.{decimal_in, range_in, datetime_in, duration_in};
ghost use Rattle.policy_core.specs.Calls.{read_as, fitting, constructed, of_range, of_ranges, of_decimals, of_datetime, of_duration, offset_value, since_value, start_of_day, since_start, unary_call, binary_call, called};

use crate::{
    BinaryFunction, DateTimeValue, Duration, EvalError, ExtensionFunction, Name, Outcome,
    UnaryFunction, Value, ValueKind, extension_function, read_datetime, read_decimal,
    read_duration, read_ip,
};

/// What the extension function of a name makes of the values of its arguments.
pub fn call(name: &Name, values: &Vec<Value>) -> Outcome
    ensures { result ≡ called (function_of name.now) values.now.items }
{
    match extension_function(name.as_str()) {
        None => Outcome::Error(EvalError::UnknownFunction),
        Some(ExtensionFunction::Unary(function)) => match values.as_slice() {
            [x] => unary_call(function, x),
            _ => Outcome::Error(EvalError::Arity),
        },
        Some(ExtensionFunction::Binary(function)) => match values.as_slice() {
            [x, y] => binary_call(function, x, y),
            _ => Outcome::Error(EvalError::Arity),
        },
    }
}

fn unary_call(function: UnaryFunction, x: &Value) -> Outcome
    ensures { result ≡ unary_call function x.now }
{
    match function {
        UnaryFunction::Decimal => decimal(x),
        UnaryFunction::Ip => ip(x),
        UnaryFunction::Datetime => datetime(x),
        UnaryFunction::Duration => duration(x),
        UnaryFunction::IsIpv4 => is_ipv4(x),
        UnaryFunction::IsIpv6 => is_ipv6(x),
        UnaryFunction::IsLoopback => is_loopback(x),
        UnaryFunction::IsMulticast => is_multicast(x),
        UnaryFunction::ToDate => to_date(x),
        UnaryFunction::ToTime => to_time(x),
        UnaryFunction::ToMilliseconds => to_milliseconds(x),
        UnaryFunction::ToSeconds => to_seconds(x),
        UnaryFunction::ToMinutes => to_minutes(x),
        UnaryFunction::ToHours => to_hours(x),
        UnaryFunction::ToDays => to_days(x),
    }
}

fn binary_call(function: BinaryFunction, x: &Value, y: &Value) -> Outcome
    ensures { result ≡ binary_call function x.now y.now }
{
    match function {
        BinaryFunction::LessThan => less_than(x, y),
        BinaryFunction::LessThanOrEqual => less_than_or_equal(x, y),
        BinaryFunction::GreaterThan => greater_than(x, y),
        BinaryFunction::GreaterThanOrEqual => greater_than_or_equal(x, y),
        BinaryFunction::IsInRange => is_in_range(x, y),
        BinaryFunction::Offset => offset(x, y),
        BinaryFunction::DurationSince => duration_since(x, y),
    }
}

fn decimal(x: &Value) -> Outcome
    ensures { result ≡ constructed decimal decimal_in x.now }
{
    match x.kind() {
        ValueKind::String(text) => match read_decimal(text.as_str()) {
            Some(value) => Outcome::Value(Value::decimal(value)),
            None => Outcome::Error(EvalError::ExtensionText),
        },
        _ => Outcome::Error(EvalError::TypeFault),
    }
}

fn ip(x: &Value) -> Outcome
    ensures { result ≡ constructed ip range_in x.now }
{
    match x.kind() {
        ValueKind::String(text) => match read_ip(text.as_str()) {
            Some(value) => Outcome::Value(Value::ip(value)),
            None => Outcome::Error(EvalError::ExtensionText),
        },
        _ => Outcome::Error(EvalError::TypeFault),
    }
}

fn datetime(x: &Value) -> Outcome
    ensures { result ≡ constructed datetime datetime_in x.now }
{
    match x.kind() {
        ValueKind::String(text) => match read_datetime(text.as_str()) {
            Some(value) => Outcome::Value(Value::datetime(value)),
            None => Outcome::Error(EvalError::ExtensionText),
        },
        _ => Outcome::Error(EvalError::TypeFault),
    }
}

fn duration(x: &Value) -> Outcome
    ensures { result ≡ constructed duration duration_in x.now }
{
    match x.kind() {
        ValueKind::String(text) => match read_duration(text.as_str()) {
            Some(value) => Outcome::Value(Value::duration(value)),
            None => Outcome::Error(EvalError::ExtensionText),
        },
        _ => Outcome::Error(EvalError::TypeFault),
    }
}

fn is_ipv4(x: &Value) -> Outcome
    ensures { result ≡ of_range (λ r. same_family r.family V4) x.now }
{
    match x.kind() {
        ValueKind::IpAddr(range) => Outcome::Value(Value::bool(range.is_ipv4())),
        _ => Outcome::Error(EvalError::TypeFault),
    }
}

fn is_ipv6(x: &Value) -> Outcome
    ensures { result ≡ of_range (λ r. same_family r.family V6) x.now }
{
    match x.kind() {
        ValueKind::IpAddr(range) => Outcome::Value(Value::bool(range.is_ipv6())),
        _ => Outcome::Error(EvalError::TypeFault),
    }
}

fn is_loopback(x: &Value) -> Outcome
    ensures { result ≡ of_range loopback x.now }
{
    match x.kind() {
        ValueKind::IpAddr(range) => Outcome::Value(Value::bool(range.is_loopback())),
        _ => Outcome::Error(EvalError::TypeFault),
    }
}

fn is_multicast(x: &Value) -> Outcome
    ensures { result ≡ of_range multicast x.now }
{
    match x.kind() {
        ValueKind::IpAddr(range) => Outcome::Value(Value::bool(range.is_multicast())),
        _ => Outcome::Error(EvalError::TypeFault),
    }
}

fn is_in_range(x: &Value, y: &Value) -> Outcome
    ensures { result ≡ of_ranges in_range x.now y.now }
{
    match (x.kind(), y.kind()) {
        (ValueKind::IpAddr(x), ValueKind::IpAddr(y)) => Outcome::Value(Value::bool(x.is_in_range(
            y,
        ))),
        _ => Outcome::Error(EvalError::TypeFault),
    }
}

fn less_than(x: &Value, y: &Value) -> Outcome
    ensures { result ≡ of_decimals int_lt x.now y.now }
{
    match (x.kind(), y.kind()) {
        (ValueKind::Decimal(x), ValueKind::Decimal(y)) => Outcome::Value(Value::bool(*x < *y)),
        _ => Outcome::Error(EvalError::TypeFault),
    }
}

fn less_than_or_equal(x: &Value, y: &Value) -> Outcome
    ensures { result ≡ of_decimals int_le x.now y.now }
{
    match (x.kind(), y.kind()) {
        (ValueKind::Decimal(x), ValueKind::Decimal(y)) => Outcome::Value(Value::bool(*x <= *y)),
        _ => Outcome::Error(EvalError::TypeFault),
    }
}

fn greater_than(x: &Value, y: &Value) -> Outcome
    ensures { result ≡ of_decimals (λ m n. int_lt n m) x.now y.now }
{
    match (x.kind(), y.kind()) {
        (ValueKind::Decimal(x), ValueKind::Decimal(y)) => Outcome::Value(Value::bool(*x > *y)),
        _ => Outcome::Error(EvalError::TypeFault),
    }
}

fn greater_than_or_equal(x: &Value, y: &Value) -> Outcome
    ensures { result ≡ of_decimals (λ m n. int_le n m) x.now y.now }
{
    match (x.kind(), y.kind()) {
        (ValueKind::Decimal(x), ValueKind::Decimal(y)) => Outcome::Value(Value::bool(*x >= *y)),
        _ => Outcome::Error(EvalError::TypeFault),
    }
}

// A datetime, or the overflow.
fn datetime_or_overflow(d: Option<DateTimeValue>) -> Outcome
    ensures { result ≡ fitting datetime d }
{
    match d {
        Some(d) => Outcome::Value(Value::datetime(d)),
        None => Outcome::Error(EvalError::ExtensionOverflow),
    }
}

// A duration, or the overflow.
fn duration_or_overflow(d: Option<Duration>) -> Outcome
    ensures { result ≡ fitting duration d }
{
    match d {
        Some(d) => Outcome::Value(Value::duration(d)),
        None => Outcome::Error(EvalError::ExtensionOverflow),
    }
}

fn later(d: &DateTimeValue, by: &Duration) -> Option<DateTimeValue>
    ensures { result ≡ fit (d.now +ℤ by.now) }
{
    d.offset(by)
}

fn between(d: &DateTimeValue, earlier: &DateTimeValue) -> Option<Duration>
    ensures { result ≡ fit (d.now -ℤ earlier.now) }
{
    d.duration_since(earlier)
}

fn date_of(d: &DateTimeValue) -> Option<DateTimeValue>
    ensures { result ≡ fit (day_of d.now *ℤ pos 86400000) }
{
    d.to_date()
}

fn offset(x: &Value, y: &Value) -> Outcome
    ensures { result ≡ offset_value x.now y.now }
{
    match (x.kind(), y.kind()) {
        (ValueKind::DateTime(d), ValueKind::Duration(by)) => datetime_or_overflow(later(d, by)),
        _ => Outcome::Error(EvalError::TypeFault),
    }
}

fn duration_since(x: &Value, y: &Value) -> Outcome
    ensures { result ≡ since_value x.now y.now }
{
    match (x.kind(), y.kind()) {
        (ValueKind::DateTime(d), ValueKind::DateTime(earlier)) => {
            duration_or_overflow(between(d, earlier))
        }
        _ => Outcome::Error(EvalError::TypeFault),
    }
}

fn to_date(x: &Value) -> Outcome
    ensures { result ≡ of_datetime start_of_day x.now }
{
    match x.kind() {
        ValueKind::DateTime(d) => datetime_or_overflow(date_of(d)),
        _ => Outcome::Error(EvalError::TypeFault),
    }
}

fn to_time(x: &Value) -> Outcome
    ensures { result ≡ of_datetime since_start x.now }
{
    match x.kind() {
        ValueKind::DateTime(d) => Outcome::Value(Value::duration(d.to_time())),
        _ => Outcome::Error(EvalError::TypeFault),
    }
}

fn to_milliseconds(x: &Value) -> Outcome
    ensures { result ≡ of_duration (λ n. n) x.now }
{
    match x.kind() {
        ValueKind::Duration(d) => Outcome::Value(Value::long(d.to_milliseconds())),
        _ => Outcome::Error(EvalError::TypeFault),
    }
}

fn to_seconds(x: &Value) -> Outcome
    ensures { result ≡ of_duration (λ n. int_div n (pos 1000)) x.now }
{
    match x.kind() {
        ValueKind::Duration(d) => Outcome::Value(Value::long(d.to_seconds())),
        _ => Outcome::Error(EvalError::TypeFault),
    }
}

fn to_minutes(x: &Value) -> Outcome
    ensures { result ≡ of_duration (λ n. int_div n (pos 60000)) x.now }
{
    match x.kind() {
        ValueKind::Duration(d) => Outcome::Value(Value::long(d.to_minutes())),
        _ => Outcome::Error(EvalError::TypeFault),
    }
}

fn to_hours(x: &Value) -> Outcome
    ensures { result ≡ of_duration (λ n. int_div n (pos 3600000)) x.now }
{
    match x.kind() {
        ValueKind::Duration(d) => Outcome::Value(Value::long(d.to_hours())),
        _ => Outcome::Error(EvalError::TypeFault),
    }
}

fn to_days(x: &Value) -> Outcome
    ensures { result ≡ of_duration (λ n. int_div n (pos 86400000)) x.now }
{
    match x.kind() {
        ValueKind::Duration(d) => Outcome::Value(Value::long(d.to_days())),
        _ => Outcome::Error(EvalError::TypeFault),
    }
}
