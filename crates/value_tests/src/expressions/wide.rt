//! Expressions of many parts.

use super::Evaluated;
use crate::lines::{Answers, assert_same, failures};
use std::alloc::{AllocError, Global};

// A text, how often the next text stands behind it, that text, and the text at the end; then what they say
// together.
const ROWS: &str = r#"{"all":[ 399 true, true]} => true
{"all":[ 400 true, true]} => nested
{"all":[ 400 true, null]} => form
{"all":[ 100000 true, true]} => nested
{"any":[ 399 false, true]} => true
{"any":[ 400 false, true]} => nested
{"any":[ 100000 false, true]} => nested
{"any":[ 100000 false, null]} => form
{"if":[ 399 false,1, 2]} => 2
{"if":[ 400 false,1, 2]} => nested
{"if":[ 400 false,1, 2,3]} => form
{"if":[ 50000 false,1, 2]} => nested
{"get":[{"record":{}} 399 ,"a" ]} => MissingAttribute
{"get":[{"record":{}} 400 ,"a" ]} => nested
{"get":[{"record":{}} 100000 ,"a" ]} => nested
{"get":[{"record":{}} 100000 ,"a" ,1]} => form
{"not":{"all":[ 398 true, true]}} => false
{"not":{"all":[ 399 true, true]}} => nested
{"neg":{"all":[ 400 true, null]}} => form
{"any":[true,{"all":[ 400 true, true]}]} => nested
{"+":[{"all":[ 400 true, true]},null]} => form
{"+":[{"all":[ 400 true, true]},1]} => nested
{"isEmpty":[{"all":[ 397 true, true]}]} => false
{"isEmpty":[{"all":[ 398 true, true]}]} => nested
{"record":{"a":{"all":[ 399 true, true]},"b":1}} => nested
{"record":{"a":{"all":[ 399 true, true]},"b":null}} => form
{"like":["",[ 100000 null, null]]} => true
{"like":["b",[ 100000 null, "a"]]} => false
{"at":[0,1],"of":{"all":[ 400 true, true]}} => nested
{"at":[1,0],"of":{"all":[ 400 true, true]}} => form
{"==":[[7],[ 100000 7, 7]]} => true
{"containsAny":[[1],[ 100000 2, 1]]} => true
{"like":[" 5000 a b",[null,"a",null,"a",null,"a",null,"a",null,"c"]]} => false
{"like":[" 5000 a b",[null,"aab",null,"b"]]} => false
{"like":[" 5000 a b",[null,"aa",null,"aa",null,"b"]]} => true
{"call":["decimal"," 1048576 0 1.5"]} => {"decimal":"1.5000"}
{"call":["duration"," 1048576 0 1d2h"]} => {"duration":93600000}
{"call":["decimal"," 1048576 9 .5"]} => ExtensionText
{"call":["duration"," 1048576 9 ms"]} => ExtensionText
{"call":["ip"," 1048576 : 1"]} => ExtensionText
{"call":["ip"," 1048576 1 "]} => ExtensionText
{"call":["datetime"," 1048576 2 "]} => ExtensionText"#;

// What the expression is worth that the four parts of a text make.
struct Wide;

impl Answers for Wide {
    fn answer(alloc: Global, asked: &str) -> Result<String, AllocError> {
        let mut parts = asked.splitn(4, ' ');
        let mut text = String::from_str(alloc, parts.next().unwrap_or(""))?;
        let times = parts.next().unwrap_or("");
        add_often(&mut text, times, parts.next().unwrap_or(""))?;
        text.push_str(parts.next().unwrap_or(""))?;
        Evaluated::answer(alloc, text.as_str())
    }
}

fn add_often(text: &mut String, times: &str, part: &str) -> Result<(), AllocError> {
    for _ in 0..times.parse::<usize>().unwrap_or(0) {
        text.push_str(part)?;
    }
    Ok(())
}

#[test]
fn expressions_of_many_parts(rt: HostRuntime) -> Result<(), AllocError> {
    let failures = failures::<Wide>(rt.alloc(), ROWS)?;
    assert_same(&rt, failures.as_str(), "");
    Ok(())
}
