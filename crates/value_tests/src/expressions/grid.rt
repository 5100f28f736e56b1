//! Each operator on operands of each kind.

use super::Evaluated;
use crate::lines::{add_failure, assert_same};
use std::alloc::{AllocError, Global};

// An operand of each kind, for the left.
const LEFT: &str = r#"true
3
"abc"
{"var":"principal"}
[2,5]
{"record":{"a":1}}
{"call":["decimal","1.50"]}
{"call":["ip","10.0.0.1"]}
{"call":["datetime","2024-01-01"]}
{"call":["duration","1h"]}"#;

// And for the right.
const RIGHT: &str = r#"false
5
"floor"
{"id":["Group","staff"]}
[5]
{"record":{}}
{"call":["decimal","2.0"]}
{"call":["ip","10.0.0.0/8"]}
{"call":["datetime","2024-01-02"]}
{"call":["duration","2h"]}"#;

// An operator on $, an answer, and a word for each left operand: T is true, F is false, v is the answer, and
// a dot is TypeFault.
const UNARY: &str = r#"{"not":$} => => F . . . . . . . . .
{"neg":$} => -3 => . v . . . . . . . .
{"isEmpty":$} => => . . . . F . . . . .
{"get":[$,"a"]} => 1 => . . . v . v . . . .
{"has":[$,"a"]} => => . . . T . T . . . .
{"has":[$,"z"]} => => . . . F . F . . . .
{"like":[$,["a",null]]} => => . . T . . . . . . .
{"is":[$,"User"]} => => . . . T . . . . . .
{"is":[$,"Group"]} => => . . . F . . . . . .
{"if":[$,1,{"neg":"x"}]} => 1 => v . . . . . . . . .
{"all":[$,true]} => => T . . . . . . . . .
{"all":[true,$]} => => T . . . . . . . . .
{"any":[$,{"neg":"x"}]} => => T . . . . . . . . .
{"any":[false,$]} => => T . . . . . . . . .
{"contains":[[$],$]} => => T T T T T T T T T T
{"==":[$,$]} => => T T T T T T T T T T
{"call":["decimal",$]} => ExtensionText => . . v . . . . . . .
{"call":["ip",$]} => ExtensionText => . . v . . . . . . .
{"call":["datetime",$]} => ExtensionText => . . v . . . . . . .
{"call":["duration",$]} => ExtensionText => . . v . . . . . . .
{"call":["isIpv4",$]} => => . . . . . . . T . .
{"call":["isIpv6",$]} => => . . . . . . . F . .
{"call":["isLoopback",$]} => => . . . . . . . F . .
{"call":["isMulticast",$]} => => . . . . . . . F . .
{"call":["toDate",$]} => {"datetime":1704067200000} => . . . . . . . . v .
{"call":["toTime",$]} => {"duration":0} => . . . . . . . . v .
{"call":["toMilliseconds",$]} => 3600000 => . . . . . . . . . v
{"call":["toSeconds",$]} => 3600 => . . . . . . . . . v
{"call":["toMinutes",$]} => 60 => . . . . . . . . . v
{"call":["toHours",$]} => 1 => . . . . . . . . . v
{"call":["toDays",$]} => 0 => . . . . . . . . . v
{"call":["nope",$]} => UnknownFunction => v v v v v v v v v v
{"call":["toDays",$,$]} => Arity => v v v v v v v v v v
{"call":["lessThan",$]} => Arity => v v v v v v v v v v"#;

// An operator on $ and %, an answer, and a word for each left operand, with a letter for each right one.
const BINARY: &str =
    r#"{"==":[$,%]} => => FFFFFFFFFF FFFFFFFFFF FFFFFFFFFF FFFFFFFFFF FFFFFFFFFF FFFFFFFFFF FFFFFFFFFF FFFFFFFFFF FFFFFFFFFF FFFFFFFFFF
{"<":[$,%]} => => .......... .T........ .......... .......... .......... .......... .......... .......... ........T. .........T
{"<=":[$,%]} => => .......... .T........ .......... .......... .......... .......... .......... .......... ........T. .........T
{"<":[%,$]} => => .......... .F........ .......... .......... .......... .......... .......... .......... ........F. .........F
{"<=":[%,$]} => => .......... .F........ .......... .......... .......... .......... .......... .......... ........F. .........F
{"+":[$,%]} => 8 => .......... .v........ .......... .......... .......... .......... .......... .......... .......... ..........
{"-":[$,%]} => -2 => .......... .v........ .......... .......... .......... .......... .......... .......... .......... ..........
{"*":[$,%]} => 15 => .......... .v........ .......... .......... .......... .......... .......... .......... .......... ..........
{"in":[$,%]} => => .......... .......... .......... ...T...... .......... .......... .......... .......... .......... ..........
{"in":[$,[%]]} => => .......... .......... .......... ...T...... .......... .......... .......... .......... .......... ..........
{"contains":[$,%]} => => .......... .......... .......... .......... FTFFFFFFFF .......... .......... .......... .......... ..........
{"containsAll":[$,%]} => => .......... .......... .......... .......... ....T..... .......... .......... .......... .......... ..........
{"containsAny":[$,%]} => => .......... .......... .......... .......... ....T..... .......... .......... .......... .......... ..........
{"hasTag":[$,%]} => => .......... .......... .......... ..T....... .......... .......... .......... .......... .......... ..........
{"getTag":[$,%]} => 2 => .......... .......... .......... ..v....... .......... .......... .......... .......... .......... ..........
{"call":["lessThan",$,%]} => => .......... .......... .......... .......... .......... .......... ......T... .......... .......... ..........
{"call":["lessThanOrEqual",$,%]} => => .......... .......... .......... .......... .......... .......... ......T... .......... .......... ..........
{"call":["greaterThan",$,%]} => => .......... .......... .......... .......... .......... .......... ......F... .......... .......... ..........
{"call":["greaterThanOrEqual",$,%]} => => .......... .......... .......... .......... .......... .......... ......F... .......... .......... ..........
{"call":["isInRange",$,%]} => => .......... .......... .......... .......... .......... .......... .......... .......T.. .......... ..........
{"call":["offset",$,%]} => {"datetime":1704074400000} => .......... .......... .......... .......... .......... .......... .......... .......... .........v ..........
{"call":["durationSince",$,%]} => {"duration":-86400000} => .......... .......... .......... .......... .......... .......... .......... .......... ........v. ..........
{"call":["nope",$,%]} => UnknownFunction => vvvvvvvvvv vvvvvvvvvv vvvvvvvvvv vvvvvvvvvv vvvvvvvvvv vvvvvvvvvv vvvvvvvvvv vvvvvvvvvv vvvvvvvvvv vvvvvvvvvv
{"call":["decimal",$,%]} => Arity => vvvvvvvvvv vvvvvvvvvv vvvvvvvvvv vvvvvvvvvv vvvvvvvvvv vvvvvvvvvv vvvvvvvvvv vvvvvvvvvv vvvvvvvvvv vvvvvvvvvv"#;

// What a letter stands for.
fn expected<'a>(letter: char, answer: &'a str) -> &'a str {
    match letter {
        'T' => "true",
        'F' => "false",
        'v' => answer,
        '.' => "TypeFault",
        _ => "no such letter",
    }
}

// The letters of one left operand, a letter for each right one.
fn check_word(
    alloc: Global,
    expression: &str,
    answer: &str,
    rights: &str,
    word: &str,
    failures: &mut String,
) -> Result<(), AllocError> {
    let mut letters = word.chars();
    for right in rights.lines() {
        let asked = expression.replace(alloc, "%", right)?;
        let expected = expected(letters.next().unwrap_or('-'), answer);
        add_failure::<Evaluated>(alloc, asked.as_str(), expected, failures)?;
    }
    Ok(())
}

// The words of a line, a word for each left operand.
fn check_words(
    alloc: Global,
    operator: &str,
    answer: &str,
    rights: &str,
    words: &str,
    failures: &mut String,
) -> Result<(), AllocError> {
    let mut words = words.split_whitespace();
    for left in LEFT.lines() {
        let expression = operator.replace(alloc, "$", left)?;
        let word = words.next().unwrap_or("");
        check_word(alloc, expression.as_str(), answer, rights, word, failures)?;
    }
    Ok(())
}

fn check_operator(
    alloc: Global,
    line: &str,
    rights: &str,
    failures: &mut String,
) -> Result<(), AllocError> {
    let (operator, behind) = line.split_once(" => ").unwrap_or((line, ""));
    let (answer, words) = behind.split_once("=> ").unwrap_or(("", behind));
    check_words(alloc, operator, answer.trim_end(), rights, words, failures)
}

// The expressions of a table that have another value.
fn grid_failures(alloc: Global, table: &str, rights: &str) -> Result<String, AllocError> {
    let mut failures = String::new(alloc);
    for line in table.lines() {
        check_operator(alloc, line, rights, &mut failures)?;
    }
    Ok(failures)
}

#[test]
fn operators_ask_for_kinds(rt: HostRuntime) -> Result<(), AllocError> {
    let of_one = grid_failures(rt.alloc(), UNARY, "-")?;
    assert_same(&rt, of_one.as_str(), "");
    let of_two = grid_failures(rt.alloc(), BINARY, RIGHT)?;
    assert_same(&rt, of_two.as_str(), "");
    Ok(())
}
