//! Expressions, each with its value or its error.

use super::Evaluated;
use crate::lines::{assert_same, failures};
use std::alloc::AllocError;

const LITERALS: &str = r#"true => true
false => false
-9223372036854775808 => -9223372036854775808
9223372036854775807 => 9223372036854775807
"a\"b" => "a\"b"
"" => ""
{"id":["A::B","x y"]} => {"id":["A::B","x y"]}
{"var":"principal"} => {"id":["User","ann"]}
{"var":"action"} => {"id":["Action","view"]}
{"var":"resource"} => {"id":["Photo","x"]}
{"var":"context"} => {"record":{"tries":3}}
[] => []
[3,1,2,1] => [1,2,3]
[[3],[1,2],[],[1,2,3],[2]] => [[],[1,2],[1,2,3],[2],[3]]
[{"id":["A::B","x"]},{"id":["A0","x"]},{"id":["A0","w"]}] => [{"id":["A0","w"]},{"id":["A0","x"]},{"id":["A::B","x"]}]
[{"record":{}},[1],{"id":["User","a"]},"s",1,true,false] => [false,true,1,"s",{"id":["User","a"]},[1],{"record":{}}]
[{"record":{"b":1}},{"record":{"a":2}},{"record":{"a":1,"b":1}},{"record":{"a":1}}] => [{"record":{"a":1}},{"record":{"a":1,"b":1}},{"record":{"a":2}},{"record":{"b":1}}]
{"record":{}} => {"record":{}}
{"record":{"b":{"+":[1,1]},"a":[1,1]}} => {"record":{"a":[1],"b":2}}
{"at":[0,4],"of":1} => 1
{"at":[3,3],"of":{"at":[0,9],"of":true}} => true
{"at":[4294967295,4294967295],"of":1} => 1"#;

const EARLY_STOPS: &str = r#"{"all":[false,{"neg":"x"}]} => false
{"all":[true,false,{"get":[{"var":"resource"},"a"]}]} => false
{"all":[true,true,true]} => true
{"all":[true,true,1]} => TypeFault
{"all":[1,{"get":[{"var":"resource"},"a"]}]} => TypeFault
{"all":[{"get":[{"var":"resource"},"a"]},false]} => MissingEntity Photo::"x"
{"all":[true,{"get":[{"var":"resource"},"a"]}]} => MissingEntity Photo::"x"
{"all":[{"any":[false,true]},true]} => true
{"all":[1]} => 1
{"any":[true,{"neg":"x"}]} => true
{"any":[false,true,{"get":[{"var":"resource"},"a"]}]} => true
{"any":[false,false]} => false
{"any":[false,false,1]} => TypeFault
{"any":[1,{"get":[{"var":"resource"},"a"]}]} => TypeFault
{"any":[{"get":[{"var":"resource"},"a"]},true]} => MissingEntity Photo::"x"
{"any":["a"]} => "a"
{"if":[true,1,{"neg":"x"}]} => 1
{"if":[false,{"neg":"x"},2]} => 2
{"if":[false,{"neg":"x"},true,3,{"neg":"x"}]} => 3
{"if":[false,1,false,2,3]} => 3
{"if":[true,1,1,2,3]} => 1
{"if":[false,1,1,2,3]} => TypeFault
{"if":[{"get":[{"var":"resource"},"a"]},1,2]} => MissingEntity Photo::"x"
{"if":[1,{"get":[{"var":"resource"},"a"]},2]} => TypeFault"#;

const FIRST_ERRORS: &str =
    r#"{"record":{"b":{"+":[9223372036854775807,1]},"a":{"get":[{"var":"context"},"missing"]}}} => MissingAttribute
{"+":[true,{"get":[{"var":"resource"},"a"]}]} => MissingEntity Photo::"x"
{"+":[{"get":[{"var":"resource"},"a"]},{"neg":-9223372036854775808}]} => MissingEntity Photo::"x"
{"+":[{"neg":-9223372036854775808},{"get":[{"var":"resource"},"a"]}]} => IntegerOverflow
{"==":[1,{"get":[{"var":"resource"},"a"]}]} => MissingEntity Photo::"x"
{"<":["a",{"neg":-9223372036854775808}]} => IntegerOverflow
{"in":[1,{"get":[{"var":"resource"},"a"]}]} => MissingEntity Photo::"x"
{"contains":[1,{"neg":-9223372036854775808}]} => IntegerOverflow
{"hasTag":[1,{"get":[{"var":"resource"},"a"]}]} => MissingEntity Photo::"x"
{"getTag":[{"var":"resource"},{"neg":-9223372036854775808}]} => IntegerOverflow
{"not":{"neg":-9223372036854775808}} => IntegerOverflow
{"has":[{"get":[{"var":"principal"},"none"]},"a"]} => MissingAttribute
{"like":[{"neg":true},["a"]]} => TypeFault
{"is":[{"get":[{"var":"principal"},"none"]},"User"]} => MissingAttribute
[1,{"get":[{"var":"resource"},"a"]},{"neg":-9223372036854775808}] => MissingEntity Photo::"x"
[{"neg":-9223372036854775808},{"get":[{"var":"resource"},"a"]}] => IntegerOverflow
{"record":{"b":{"get":[{"var":"resource"},"a"]},"a":{"neg":-9223372036854775808}}} => IntegerOverflow"#;

const LONGS: &str = r#"{"+":[9223372036854775807,1]} => IntegerOverflow
{"+":[-9223372036854775808,-1]} => IntegerOverflow
{"+":[9223372036854775807,-9223372036854775808]} => -1
{"-":[-9223372036854775808,1]} => IntegerOverflow
{"-":[9223372036854775807,-1]} => IntegerOverflow
{"-":[-1,9223372036854775807]} => -9223372036854775808
{"-":[-2,9223372036854775807]} => IntegerOverflow
{"-":[0,-9223372036854775808]} => IntegerOverflow
{"*":[-9223372036854775808,-1]} => IntegerOverflow
{"*":[-1,-9223372036854775808]} => IntegerOverflow
{"*":[4611686018427387904,2]} => IntegerOverflow
{"*":[4611686018427387904,-2]} => -9223372036854775808
{"*":[3037000499,3037000499]} => 9223372030926249001
{"*":[3037000500,3037000500]} => IntegerOverflow
{"*":[-9223372036854775808,0]} => 0
{"neg":-9223372036854775808} => IntegerOverflow
{"neg":9223372036854775807} => -9223372036854775807
{"neg":0} => 0
{"<":[-9223372036854775808,9223372036854775807]} => true
{"<":[3,3]} => false
{"<":[3,-4]} => false
{"<=":[3,3]} => true
{"<=":[4,3]} => false
{"<=":[-1,0]} => true"#;

const EQUALITY: &str = r#"{"==":[[1,1],[1]]} => true
{"==":[[1,2],[2,1]]} => true
{"==":[[1,2],[1]]} => false
{"==":[[[1,2],[]],[[],[2,1]]]} => true
{"==":[1,true]} => false
{"==":["1",1]} => false
{"==":[[],{"record":{}}]} => false
{"==":["a","b"]} => false
{"==":[{"record":{"a":1,"b":2}},{"record":{"b":2,"a":1}}]} => true
{"==":[{"record":{"a":1}},{"record":{"a":1,"b":2}}]} => false
{"==":[{"record":{"a":1}},{"record":{"a":2}}]} => false
{"==":[{"record":{"a":1}},{"record":{"b":1}}]} => false
{"==":[{"var":"principal"},{"id":["User","ann"]}]} => true
{"==":[{"id":["User","x"]},{"id":["Photo","x"]}]} => false
{"==":[{"var":"resource"},{"id":["Photo","y"]}]} => false"#;

const SETS: &str = r#"{"isEmpty":[]} => true
{"isEmpty":[[]]} => false
{"contains":[[],1]} => false
{"contains":[[1,[3,2]],[2,3]]} => true
{"contains":[[1,[3,2]],2]} => false
{"contains":[[true],1]} => false
{"contains":[["a"],"a"]} => true
{"containsAll":[[1,2,3],[]]} => true
{"containsAll":[[],[]]} => true
{"containsAll":[[],[1]]} => false
{"containsAll":[[1,2],[2,1,2]]} => true
{"containsAll":[[1,2],[1,3]]} => false
{"containsAny":[[1,2],[3,2]]} => true
{"containsAny":[[1,2],[3,4]]} => false
{"containsAny":[[1],[]]} => false
{"containsAny":[[],[]]} => false"#;

const ENTITIES: &str = r#"{"in":[{"var":"principal"},{"id":["Group","staff"]}]} => true
{"in":[{"var":"principal"},{"id":["Group","all"]}]} => true
{"in":[{"var":"principal"},{"var":"principal"}]} => true
{"in":[{"id":["Group","staff"]},{"id":["Group","all"]}]} => true
{"in":[{"id":["Group","staff"]},{"var":"principal"}]} => false
{"in":[{"id":["Group","all"]},{"id":["Group","staff"]}]} => false
{"in":[{"var":"resource"},{"id":["Group","staff"]}]} => false
{"in":[{"var":"resource"},{"id":["Photo","x"]}]} => true
{"in":[{"var":"principal"},[]]} => false
{"in":[{"var":"principal"},[{"id":["Group","none"]},{"id":["Group","all"]}]]} => true
{"in":[{"var":"principal"},[{"var":"resource"},{"id":["Group","none"]}]]} => false
{"in":[{"var":"resource"},[{"var":"principal"},{"var":"resource"}]]} => true
{"in":[{"var":"principal"},[{"id":["Group","staff"]},1]]} => TypeFault
{"in":[{"var":"principal"},[[{"id":["Group","staff"]}]]]} => TypeFault
{"in":["a",[{"id":["Group","staff"]}]]} => TypeFault
{"in":["a",[]]} => TypeFault
{"is":[{"var":"resource"},"Photo"]} => true
{"is":[{"id":["A::B","x"]},"A::B"]} => true
{"is":[{"id":["A::B","x"]},"B"]} => false
{"is":[{"id":["A::B","x"]},"A"]} => false
{"get":[{"var":"principal"},"a"]} => 1
{"get":[{"var":"principal"},"home","city"]} => "Bonn"
{"get":[{"var":"principal"},"none"]} => MissingAttribute
{"get":[{"var":"principal"},"floor"]} => MissingAttribute
{"get":[{"var":"principal"},"home","none"]} => MissingAttribute
{"get":[{"var":"principal"},"a","b"]} => TypeFault
{"get":[{"var":"principal"},"boss"]} => {"id":["User","bob"]}
{"get":[{"var":"principal"},"boss","a"]} => MissingEntity User::"bob"
{"get":[{"var":"resource"},"a"]} => MissingEntity Photo::"x"
{"get":[{"var":"context"},"tries"]} => 3
{"get":[{"record":{"a":{"record":{"b":[2]}}}},"a","b"]} => [2]
{"get":[{"record":{"a":1}},"b"]} => MissingAttribute
{"has":[{"var":"principal"},"a"]} => true
{"has":[{"var":"principal"},"floor"]} => false
{"has":[{"var":"resource"},"a"]} => false
{"has":[{"get":[{"var":"principal"},"home"]},"city"]} => true
{"has":[{"var":"context"},"tries"]} => true
{"has":[{"var":"context"},"missing"]} => false
{"has":[{"record":{"":1}},""]} => true
{"getTag":[{"var":"principal"},"floor"]} => 2
{"getTag":[{"var":"principal"},"a"]} => MissingTag
{"getTag":[{"id":["Group","staff"]},"floor"]} => MissingTag
{"getTag":[{"var":"resource"},"floor"]} => MissingEntity Photo::"x"
{"getTag":[{"var":"resource"},1]} => TypeFault
{"hasTag":[{"var":"principal"},"floor"]} => true
{"hasTag":[{"var":"principal"},"a"]} => false
{"hasTag":[{"var":"resource"},"floor"]} => false
{"hasTag":[{"var":"resource"},1]} => TypeFault"#;

const PATTERNS: &str = r#"{"like":["abcc",["a",null,"c"]]} => true
{"like":["abcd",["a",null,"c"]]} => false
{"like":["",[]]} => true
{"like":["",[null]]} => true
{"like":["",[null,null]]} => true
{"like":["",["",""]]} => true
{"like":["a",[]]} => false
{"like":["",["a"]]} => false
{"like":["é",["é"]]} => true
{"like":["é",["e"]]} => false
{"like":["日本語",[null,"本",null]]} => true
{"like":["日本語",["日",null,"本"]]} => false
{"like":["abc",["ab","c"]]} => true
{"like":["eggs",["egg"]]} => false
{"like":["eggs",["egg",null]]} => true
{"like":["ham and eggs",[null,"egg"]]} => false
{"like":["ham and eggs",["h",null," ",null,"s"]]} => true
{"like":["abcabd",[null,"ab",null,"abd"]]} => true
{"like":["abcab",[null,"ab",null,"ab",null,"ab"]]} => false
{"like":["aaaa",[null,"a",null,"a",null,"a",null,"a",null]]} => true
{"like":["aaaa",[null,"a",null,"a",null,"a",null,"a",null,"a",null]]} => false
{"like":["*",["*"]]} => true
{"like":["ab",["*"]]} => false
{"like":["a*b",["a*",null]]} => true
{"like":["null",[null]]} => true
{"like":["A",["a"]]} => false"#;

const NO_EXPRESSIONS: &str = r#"null => form
1.0 => form
1e2 => form
-0 => form
9223372036854775808 => form
-9223372036854775809 => form
[1,null] => form
{} => form
{"one":1} => form
{"not":true,"neg":1} => form
{"decimal":"1.0"} => form
{"set":[1]} => form
{"slot":"principal"} => form
{"id":["User"]} => form
{"id":["User","a","b"]} => form
{"id":["User",1]} => form
{"id":["","a"]} => form
{"id":["A::","a"]} => form
{"id":["__cedar","a"]} => form
{"var":"Principal"} => form
{"var":["principal"]} => form
{"all":[]} => form
{"all":true} => form
{"all":[true,null]} => form
{"any":[]} => form
{"any":{}} => form
{"any":[null,true]} => form
{"if":[]} => form
{"if":[true]} => form
{"if":[true,1]} => form
{"if":[true,1,true,2]} => form
{"if":[true,1,null]} => form
{"not":null} => form
{"not":[true]} => TypeFault
{"neg":1.5} => form
{"==":[1]} => form
{"==":[1,2,3]} => form
{"==":1} => form
{"in":[1,null]} => form
{"contains":[null,1]} => form
{"get":[]} => form
{"get":[{"var":"principal"}]} => form
{"get":[{"var":"principal"},1]} => form
{"get":[{"var":"principal"},"a",["b"]]} => form
{"get":["a",null]} => form
{"has":[{"var":"principal"}]} => form
{"has":[{"var":"principal"},"a","b"]} => form
{"has":[null,"a"]} => form
{"like":["a"]} => form
{"like":["a","a"]} => form
{"like":["a",[1]]} => form
{"like":["a",[["a"]]]} => form
{"like":["a",[true]]} => form
{"like":["a",[{"a":"a"}]]} => form
{"like":["a",["a"],[]]} => form
{"like":[null,["a"]]} => form
{"is":[{"var":"principal"}]} => form
{"is":[{"var":"principal"},1]} => form
{"is":[{"var":"principal"},"1"]} => form
{"is":[{"var":"principal"},"A::__cedar"]} => form
{"is":[{"var":"principal"},"User","User"]} => form
{"is":[null,"User"]} => form
{"record":[]} => form
{"record":{"a":null}} => form
{"at":[0,1]} => form
{"of":1} => form
{"at":[0,1],"of":null} => form
{"at":[0,1],"of":1,"or":2} => form
{"at":[0,1],"on":1} => form
{"at":[1,0],"of":1} => form
{"at":[-1,1],"of":1} => form
{"at":[0,1.0],"of":1} => form
{"at":[0],"of":1} => form
{"at":[0,1,2],"of":1} => form
{"at":["0","1"],"of":1} => form
{"at":1,"of":1} => form
{"at":[0,4294967296],"of":1} => form
{"at":[4294967296,4294967296],"of":1} => form
1e999 => json
{"all":[true] => json"#;

const CALLS: &str = r#"{"call":[]} => form
{"call":"decimal"} => form
{"call":["1.0"]} => form
{"call":[1]} => form
{"call":[null,"1.0"]} => form
{"call":["decimal",null]} => form
{"call":["f"]} => UnknownFunction
{"call":["A::f",1,2,3]} => UnknownFunction
{"call":["Decimal","1.0"]} => UnknownFunction
{"call":["f",{"get":[{"var":"resource"},"a"]}]} => MissingEntity Photo::"x"
{"call":["decimal",{"neg":-9223372036854775808},{"get":[{"var":"resource"},"a"]}]} => IntegerOverflow
{"call":["decimal"]} => Arity
{"call":["decimal",1,"1.0"]} => Arity
{"call":["decimal",1]} => TypeFault
{"call":["decimal","1"]} => ExtensionText
{"call":["lessThan",{"call":["decimal","1.0"]},1]} => TypeFault
{"call":["offset",1,2,3]} => Arity
{"call":["offset",{"call":["duration","1h"]},{"call":["datetime","2024-01-01"]}]} => TypeFault
{"call":["decimal","1.23"]} => {"decimal":"1.2300"}
{"call":["decimal","-0.0001"]} => {"decimal":"-0.0001"}
{"call":["decimal","922337203685477.5807"]} => {"decimal":"922337203685477.5807"}
{"call":["decimal","922337203685477.5808"]} => ExtensionText
{"call":["decimal","-922337203685477.5808"]} => {"decimal":"-922337203685477.5808"}
{"call":["decimal","1.23456"]} => ExtensionText
{"call":["decimal",".5"]} => ExtensionText
{"call":["decimal","+1.5"]} => ExtensionText
{"call":["lessThan",{"call":["decimal","1.5"]},{"call":["decimal","1.50"]}]} => false
{"call":["lessThan",{"call":["decimal","-1.5"]},{"call":["decimal","-1.4"]}]} => true
{"call":["lessThanOrEqual",{"call":["decimal","1.5"]},{"call":["decimal","1.50"]}]} => true
{"call":["greaterThan",{"call":["decimal","1.5"]},{"call":["decimal","1.50"]}]} => false
{"call":["greaterThan",{"call":["decimal","1.5001"]},{"call":["decimal","1.50"]}]} => true
{"call":["greaterThanOrEqual",{"call":["decimal","1.5"]},{"call":["decimal","1.50"]}]} => true
{"==":[{"call":["decimal","1.5"]},{"call":["decimal","1.5000"]}]} => true
{"==":[{"call":["decimal","1.0"]},1]} => false
{"<":[{"call":["decimal","1.0"]},{"call":["decimal","2.0"]}]} => TypeFault
{"call":["ip","10.0.0.1"]} => {"ip":"10.0.0.1/32"}
{"call":["ip","::1"]} => {"ip":"0:0:0:0:0:0:0:1/128"}
{"call":["ip","2001:DB8::/32"]} => {"ip":"2001:db8:0:0:0:0:0:0/32"}
{"call":["ip","10.0.0.01"]} => ExtensionText
{"call":["ip","10.0.0.256"]} => ExtensionText
{"call":["ip","10.0.0.1/33"]} => ExtensionText
{"==":[{"call":["ip","10.0.0.1"]},{"call":["ip","10.0.0.1/32"]}]} => true
{"==":[{"call":["ip","10.0.0.0/8"]},{"call":["ip","10.0.0.1/8"]}]} => false
{"==":[{"call":["ip","10.0.0.0/8"]},{"call":["ip","10.0.0.0/9"]}]} => false
{"call":["isIpv6",{"call":["ip","::1"]}]} => true
{"call":["isIpv4",{"call":["ip","::1"]}]} => false
{"call":["isLoopback",{"call":["ip","127.1.2.3"]}]} => true
{"call":["isLoopback",{"call":["ip","127.0.0.0/7"]}]} => false
{"call":["isLoopback",{"call":["ip","::1"]}]} => true
{"call":["isLoopback",{"call":["ip","::1/127"]}]} => false
{"call":["isMulticast",{"call":["ip","224.0.0.0/4"]}]} => true
{"call":["isMulticast",{"call":["ip","224.0.0.0/3"]}]} => false
{"call":["isMulticast",{"call":["ip","ff02::1"]}]} => true
{"call":["isInRange",{"call":["ip","10.1.0.0/16"]},{"call":["ip","10.0.0.0/8"]}]} => true
{"call":["isInRange",{"call":["ip","10.0.0.0/8"]},{"call":["ip","10.1.0.0/16"]}]} => false
{"call":["isInRange",{"call":["ip","11.0.0.1"]},{"call":["ip","10.0.0.0/8"]}]} => false
{"call":["isInRange",{"call":["ip","::1"]},{"call":["ip","0.0.0.0/0"]}]} => false
{"call":["datetime","2024-10-15"]} => {"datetime":1728950400000}
{"call":["datetime","2024-10-15T11:35:00+0100"]} => {"datetime":1728988500000}
{"call":["datetime","2024-02-30"]} => ExtensionText
{"call":["datetime","2024-10-15T24:00:00Z"]} => ExtensionText
{"==":[{"call":["datetime","2024-10-15T11:35:00+0100"]},{"call":["datetime","2024-10-15T10:35:00Z"]}]} => true
{"<":[{"call":["datetime","2024-10-15"]},{"call":["datetime","2024-10-15"]}]} => false
{"<=":[{"call":["datetime","2024-10-15"]},{"call":["datetime","2024-10-15"]}]} => true
{"<":[{"call":["datetime","1969-12-31"]},{"call":["datetime","1970-01-01"]}]} => true
{"<":[{"call":["datetime","2024-10-15"]},{"call":["duration","1h"]}]} => TypeFault
{"call":["duration","1d2h3m4s5ms"]} => {"duration":93784005}
{"call":["duration","-1h"]} => {"duration":-3600000}
{"call":["duration","1m1h"]} => ExtensionText
{"call":["duration",""]} => ExtensionText
{"call":["duration","9223372036854775808ms"]} => ExtensionText
{"call":["duration","-9223372036854775808ms"]} => {"duration":-9223372036854775808}
{"==":[{"call":["duration","1h"]},{"call":["duration","60m"]}]} => true
{"<":[{"call":["duration","-1h"]},{"call":["duration","1ms"]}]} => true
{"<=":[{"call":["duration","1h"]},{"call":["duration","59m"]}]} => false
{"call":["offset",{"call":["datetime","1970-01-01"]},{"call":["duration","-1ms"]}]} => {"datetime":-1}
{"call":["offset",{"call":["datetime","1970-01-02"]},{"call":["duration","9223372036854775807ms"]}]} => ExtensionOverflow
{"call":["offset",{"call":["datetime","1969-12-31"]},{"call":["duration","-9223372036854775808ms"]}]} => ExtensionOverflow
{"call":["durationSince",{"call":["datetime","1970-01-02"]},{"call":["datetime","1970-01-01"]}]} => {"duration":86400000}
{"call":["durationSince",{"call":["datetime","1970-01-01"]},{"call":["offset",{"call":["datetime","1970-01-01"]},{"call":["duration","-9223372036854775808ms"]}]}]} => ExtensionOverflow
{"call":["toDate",{"call":["offset",{"call":["datetime","1970-01-01"]},{"call":["duration","-1ms"]}]}]} => {"datetime":-86400000}
{"call":["toDate",{"call":["offset",{"call":["datetime","1970-01-01"]},{"call":["duration","-9223372036854775808ms"]}]}]} => ExtensionOverflow
{"call":["toTime",{"call":["offset",{"call":["datetime","1970-01-01"]},{"call":["duration","-1ms"]}]}]} => {"duration":86399999}
{"call":["toTime",{"call":["datetime","2024-10-15T11:35:00Z"]}]} => {"duration":41700000}
{"call":["toMilliseconds",{"call":["duration","-1500ms"]}]} => -1500
{"call":["toSeconds",{"call":["duration","-1500ms"]}]} => -1
{"call":["toMinutes",{"call":["duration","119s"]}]} => 1
{"call":["toHours",{"call":["duration","-119m"]}]} => -1
{"call":["toDays",{"call":["duration","47h59m"]}]} => 1
{"contains":[[{"call":["decimal","1.0"]}],{"call":["decimal","1.00"]}]} => true
[{"call":["duration","1h"]},{"call":["datetime","1970-01-01"]},{"call":["ip","::1"]},{"call":["ip","10.0.0.1"]},{"call":["decimal","1.0"]},{"record":{}}] => [{"record":{}},{"decimal":"1.0000"},{"ip":"10.0.0.1/32"},{"ip":"0:0:0:0:0:0:0:1/128"},{"datetime":0},{"duration":3600000}]"#;

#[test]
fn expressions_have_their_values(rt: HostRuntime) -> Result<(), AllocError> {
    for table in [
        LITERALS,
        EARLY_STOPS,
        FIRST_ERRORS,
        LONGS,
        EQUALITY,
        SETS,
        ENTITIES,
        PATTERNS,
        NO_EXPRESSIONS,
        CALLS,
    ] {
        let failures = failures::<Evaluated>(rt.alloc(), table)?;
        assert_same(&rt, failures.as_str(), "");
    }
    Ok(())
}
