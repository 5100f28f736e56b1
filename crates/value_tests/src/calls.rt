//! Calls on results, durations and moments that no document makes.

use crate::lines::assert_same;
use findings::{NonEmpty, partition_nonempty};
use policy_ext::{DateTimeValue, Decimal, Duration};
use std::alloc::{AllocError, Global};

// The values of a vector, with a bar behind each.
fn add_all(text: &mut String, values: &Vec<u32>) -> Result<(), AllocError> {
    for value in values {
        write!(text, "{value}|")?;
    }
    Ok(())
}

fn add_errors(text: &mut String, errors: &NonEmpty<u32>) -> Result<(), AllocError> {
    write!(text, "errors {}|", errors.head)?;
    add_all(text, &errors.tail)
}

// The results: a value for each even number, and an error for each odd one.
fn results(alloc: Global, numbers: &[u32]) -> Result<Vec<Result<u32, u32>>, AllocError> {
    let mut results = Vec::new(alloc);
    for number in numbers {
        results.push(if number % 2 == 0 {
            Ok(*number)
        } else {
            Err(*number)
        })?;
    }
    Ok(results)
}

// All values, or all errors.
fn parted(alloc: Global, numbers: &[u32]) -> Result<String, AllocError> {
    let mut text = String::new(alloc);
    match partition_nonempty(alloc, results(alloc, numbers)?)? {
        Ok(values) => add_all(&mut text, &values)?,
        Err(errors) => add_errors(&mut text, &errors)?,
    }
    Ok(text)
}

#[test]
fn results_are_parted(rt: HostRuntime) -> Result<(), AllocError> {
    let values = parted(rt.alloc(), [2, 4].as_slice())?;
    assert_same(&rt, values.as_str(), "2|4|");
    let errors = parted(rt.alloc(), [2, 3, 5].as_slice())?;
    assert_same(&rt, errors.as_str(), "errors 3|5|");
    Ok(())
}

// A day, two hours, three minutes, four seconds and 5 milliseconds before.
fn shown_duration(alloc: Global) -> Result<String, AllocError> {
    let before = Duration::from_millis(-93784005);
    let text = before.text(alloc)?;
    format!(in alloc;
        "{} {} {}",
        before.to_days(),
        before.to_hours(),
        text.as_str()
    )
}

// The last moment of 1969: the day begins a day before 1970, and has one millisecond left.
fn shown_moment(alloc: Global) -> Result<String, AllocError> {
    let last = DateTimeValue::from_millis(-1);
    let day = match last.to_date() {
        Some(day) => day.millis(),
        None => 0,
    };
    let text = last.text(alloc)?;
    format!(in alloc; "{} {day} {}", last.to_time().millis(), text.as_str())
}

#[test]
fn durations_are_cut_towards_zero(rt: HostRuntime) -> Result<(), AllocError> {
    let duration = shown_duration(rt.alloc())?;
    assert_same(&rt, duration.as_str(), "-1 -26 -93784005");
    let moment = shown_moment(rt.alloc())?;
    assert_same(&rt, moment.as_str(), "86399999 -86400000 -1");
    Ok(())
}

fn shown_decimals(alloc: Global) -> Result<String, AllocError> {
    let mut text = String::new(alloc);
    for word in ["1.2345", "1.23456"] {
        write!(text, "{} ", Decimal::read(word).is_some())?;
    }
    Ok(text)
}

#[test]
fn decimals_have_four_digits(rt: HostRuntime) -> Result<(), AllocError> {
    let text = shown_decimals(rt.alloc())?;
    assert_same(&rt, text.as_str(), "true false ");
    Ok(())
}
