//! Runs whose reads and writes fail in turn, for each command and each status, and bytes that are no JSON.
//! What is expected comes from the rules in docs/FORMAT.md.

use crate::runs::{answer_on, answer_text, assert_same, run_on};
use policy_gate::Status;
use std::alloc::{AllocError, Global};

// Words of the table below, each with the text that it stands for.
const WORDS: [(&str, &str); 13] = [
    ("$mark", "\u{feff}"),
    ("$tab", "\t"),
    ("$feed", "\u{c}"),
    ("$blank", "\u{a0}"),
    ("$zero", "\u{0}"),
    ("$in", r#"{"schema":$photos,"policies":[$friends]"#),
    (
        "$wrong",
        r#"{"schema":$photos,"policies":[{"id":"p0","effect":"permit","body":[{"when":{"isEmpty":[]}}]}]"#,
    ),
    (
        "$friends",
        r#"{"id":"p0","effect":"permit","principal":{"in":["Group","g"]}}"#,
    ),
    (
        "$stored",
        r#""entities":[{"id":["User","alice"],"parents":[["Group","g"],["Group","h"]]}]"#,
    ),
    ("$stray", r#""entities":[{"id":["Nope","x"]}]"#),
    (
        "$member",
        r#"{"principal":["Group","g"],"action":["Action","view"],"resource":["Photo","x"],"context":{}}"#,
    ),
    (
        "$photos",
        r#"{"entityTypes":{"Group":{},"Photo":{},"User":{"memberOf":["Group"]}},"actions":[{"id":["Action","view"],"principals":["User"],"resources":["Photo"]}]}"#,
    ),
    (
        "$view",
        r#"{"principal":["User","alice"],"action":["Action","view"],"resource":["Photo","x"],"context":{}}"#,
    ),
];

// Words, a document and, behind ` => `, the status and the text, in which a bar ends a line. A line with #
// says what the next ones show. Each run is tried again with each of its reads and writes failing, and with
// one byte a call.
const CASES: &str = r#"# no document
slice;  => Document document: json|
# an id that is not listed
check; {"schema":{"entityTypes":{"Bar":{},"Foo":{"enum":["foo"]}},"actions":[{"id":["Action","a"],"principals":["Foo"],"resources":["Bar"]}]},"policies":[{"id":"p0","effect":"permit","action":{"==":["Action","a"]},"body":[{"when":{"==":[{"var":"principal"},{"id":["Foo","fo"]}]}}]}]} => Findings error InvalidEnumEntity: for policy `p0`: entity `Foo::"fo"` is of an enumerated entity type, but `"fo"` is not declared as a valid eid|  help: valid entity eids: "foo"|errors 1, warnings 0|
# a group that is kept
slice; {"schema":$photos,"policies":[{"id":"p0","effect":"permit","principal":{"in":["Group","g"]}}],"entities":[{"id":["User","alice"],"parents":[["Group","g"],["Group","h"]]}],"request":$view} => Done {"decision":"Allow","errors":[],"reasons":["p0"],"slice":[{"ancestors":[["Group","g"]],"attrs":{},"id":["User","alice"],"tags":{}}]}|
decide; {"schema":$photos,"policies":[{"id":"p0","effect":"permit","principal":{"in":["Group","g"]}}],"entities":[{"id":["User","alice"],"parents":[["Group","g"],["Group","h"]]}],"request":$view} => Done {"decision":"Allow","errors":[],"reasons":["p0"]}|
check; {"schema":$photos,"policies":[{"id":"p0","effect":"permit","principal":{"in":["Group","g"]}}]} => Done errors 0, warnings 0|
level 0; {"schema":$photos,"policies":[{"id":"p0","effect":"permit"}]} => Done errors 0, warnings 0|
level 200; {"schema":$photos,"policies":[{"id":"p0","effect":"permit"}]} => Done errors 0, warnings 0|
request; {"schema":$photos,"request":$view} => Done conforms|
manifest; {"schema":$photos,"policies":[]} => Done {"perAction":[]}|
sample 0 1; not read => Done entities 1 kept 1 decision Allow|
batch; {"schema":$photos,"policies":[{"id":"p0","effect":"permit","principal":{"in":["Group","g"]}}],"entities":[{"id":["User","alice"],"parents":[["Group","g"],["Group","h"]]}],"requests":[$view,{},{"principal":["User","bob"],"action":["Action","view"],"resource":["Photo","x"],"context":{}},{"principal":["Group","g"],"action":["Action","view"],"resource":["Photo","x"],"context":{}}]} => Done {"decision":"Allow","errors":[],"reasons":["p0"]}|{"refused":"entity slicing requires a fully concrete request. Got a partial request"}|{"decision":"Deny","errors":[],"reasons":[]}|{"refused":"principal type `Group` is not valid for `Action::\"view\"`"}|
batch; {"schema":$photos,"requests":[]} => Done 
live; {"schema":$photos,"edits":[$friends,{"remove":"p0"}]} => Done {"perAction":[]}|
review; $in} => Done may p0: User, Action::"view", Photo|level p0: 1|
review; {"schema":$photos} => Done 
list 1; $in,$stored,"request":$view} => Done User::"alice"|end|
list 1 User alice; $in,$stored,"request":$view} => Done end|
request; {"schema":$photos,"request":{}} => Done conforms|
# refusals, whose status a failing write leaves: those of each command, in the order in which they are looked for
check; $wrong} => Findings error EmptySetForbidden: for policy `p0`, empty set literals are forbidden in policies|errors 1, warnings 0|
level 9; $wrong} => Findings error EmptySetForbidden: for policy `p0`, empty set literals are forbidden in policies|errors 1, warnings 0|
level 0; $in} => Findings error EntityDerefLevelViolation: for policy `p0`, this policy requires level 1, which exceeds the maximum allowed level (0)|errors 1, warnings 0|
manifest; $wrong} => Findings error EmptySetForbidden: for policy `p0`, empty set literals are forbidden in policies|errors 1, warnings 0|
review; $wrong} => Findings error EmptySetForbidden: for policy `p0`, empty set literals are forbidden in policies|errors 1, warnings 0|
request; {"schema":$photos,$stray,"request":$member} => Request request: principal type `Group` is not valid for `Action::"view"`|  help: valid principal types for `Action::"view"`: `User`|
request; {"schema":$photos,$stray,"request":$view} => Store entity: Nope::"x": type is not declared|
slice; $wrong,$stray} => PartialRequest request: entity slicing requires a fully concrete request. Got a partial request|
slice; $wrong,$stray,"request":$member} => Request request: principal type `Group` is not valid for `Action::"view"`|  help: valid principal types for `Action::"view"`: `User`|
slice; $wrong,$stray,"request":$view} => Store entity: Nope::"x": type is not declared|
decide; $wrong,$stray} => PartialRequest request: entity slicing requires a fully concrete request. Got a partial request|
decide; $wrong,$stray,"request":$member} => Request request: principal type `Group` is not valid for `Action::"view"`|  help: valid principal types for `Action::"view"`: `User`|
decide; $wrong,$stray,"request":$view} => Store entity: Nope::"x": type is not declared|
decide; $wrong,$stored,"request":$view} => Findings error EmptySetForbidden: for policy `p0`, empty set literals are forbidden in policies|errors 1, warnings 0|
batch; $wrong,$stray,"requests":[7]} => Document document: requests[0]|
batch; $wrong,$stray,"requests":[{}]} => Store entity: Nope::"x": type is not declared|
batch; $wrong,$stored,"requests":[{}]} => Findings error EmptySetForbidden: for policy `p0`, empty set literals are forbidden in policies|errors 1, warnings 0|
live; {"schema":$photos,"edits":[7]} => Document document: edits[0]|
live; {"schema":$photos,"edits":[$friends,{"remove":"p1"}]} => Edit edit 1: unknown id|
list 1; $wrong,$stray} => PartialRequest request: entity slicing requires a fully concrete request. Got a partial request|
list 1; $wrong,$stray,"request":{"principal":null,"action":["Action","view"],"resource":["Foo","x"],"context":{}}} => Request request: resource type `Foo` is not declared in the schema|
list 1; $wrong,$stray,"request":$view} => Store entity: Nope::"x": type is not declared|
list 1; $wrong,$stored,"request":$view} => Findings error EmptySetForbidden: for policy `p0`, empty set literals are forbidden in policies|errors 1, warnings 0|
slice; {"schema":$photos,"policies":[{"id":"p0","effect":"permit","body":[{"when":{"isEmpty":[]}}]}],"request":$view} => Findings error EmptySetForbidden: for policy `p0`, empty set literals are forbidden in policies|errors 1, warnings 0|
request; {"schema":$photos,"request":{"principal":["User","alice"],"action":["Action","view"],"resource":["Foo","x"],"context":{}}} => Request request: resource type `Foo` is not declared in the schema|
decide; {"schema":$photos,"entities":[{"id":["Nope","x"]}],"request":$view} => Store entity: Nope::"x": type is not declared|
slice; {"schema":$photos,"request":{"principal":null,"action":["Action","view"],"resource":["Photo","x"],"context":{}}} => PartialRequest request: entity slicing requires a fully concrete request. Got a partial request|
# bytes that no line of a text shows well: a byte order mark, blanks that JSON does not have, a byte below a blank in a text
check; $mark{"schema":{}} => Document document: json|
check; {"schema":{}}$mark => Document document: json|
check; $feed{"schema":{}} => Document document: json|
check; $blank{"schema":{}} => Document document: json|
check; {"schema":{}}$zero => Document document: json|
check; {"schema":{"entityTypes":{"F":{"enum":["$tab"]}}}} => Document document: json|
check; {"schema":{"entityTypes":{"F":{"enum":["$zero"]}}}} => Document document: json|
# other characters stand for themselves, and an escaped one for the same
check; $tab{"schema" :$tab{"entityTypes":{"F":{"enum":["$mark$feed","\ud83d\ude00","\u0000"]}}}} => Document document: json|
check; $tab{"schema" :$tab{"entityTypes":{"F":{"enum":["$mark$blank","\ud83d\ude00","\u0000"]}}}} => Done errors 0, warnings 0|
# words
level 1 ; [] => Usage $usage"#;

// A document and what `slice` writes of it.
const KEPT: &str =
    r#"{"schema":$photos,"policies":[{"id":"p0","effect":"permit","principal":{"in":["Group","g"]}}],"entities":[{"id":["User","alice"],"parents":[["Group","g"],["Group","h"]]}],"request":$view}"#;

fn words_of(alloc: Global, text: &str) -> Result<Vec<&str>, AllocError> {
    let mut words = Vec::new(alloc);
    if text.is_empty() {
        return Ok(words);
    }
    for word in text.split(" ") {
        words.push(word)?;
    }
    Ok(words)
}

// The document that a line says, in full.
fn written_out(alloc: Global, line: &str) -> Result<String, AllocError> {
    let mut document = String::from_str(alloc, line)?;
    for (word, text) in WORDS {
        document = document.as_str().replace(alloc, word, text)?;
    }
    Ok(document)
}

// What a run in which something fails is like.
#[derive(Drop)]
enum Ended {
    // As a run ends in which this fails.
    Failed,
    // As the run where nothing fails: nothing failed.
    Whole,
    // Otherwise.
    Otherwise,
}

// The run with this read failing, of one that ends with this status and text where none does.
fn with_read(
    alloc: Global,
    words: &[&str],
    document: &[u8],
    status: Status,
    text: &[u8],
    read: u64,
) -> Result<Ended, AllocError> {
    let most = document.len() / 5 + 1;
    let (ended, written) = run_on(alloc, words, document, most, &[read], &[])?;
    if ended == Status::ReadFault && written.as_slice() == b"read fault\n".as_slice() {
        return Ok(Ended::Failed);
    }
    if ended == status && written.as_slice() == text {
        return Ok(Ended::Whole);
    }
    Ok(Ended::Otherwise)
}

// Each read of the run fails in turn, until none is left that fails.
fn see_reads(
    alloc: Global,
    words: &[&str],
    document: &[u8],
    status: Status,
    text: &[u8],
) -> Result<&'static str, AllocError> {
    for read in 0..9 {
        match with_read(alloc, words, document, status, text, read)? {
            Ended::Failed => {}
            Ended::Whole => return Ok(""),
            Ended::Otherwise => return Ok(" but not with a failing read"),
        }
    }
    Ok(" by too many reads")
}

fn after_fault(status: Status) -> Status {
    if status == Status::Done {
        Status::WriteFault
    } else {
        status
    }
}

// The run with this write failing: a prefix of the text is written.
fn with_write(
    alloc: Global,
    words: &[&str],
    document: &[u8],
    status: Status,
    text: &[u8],
    write: u64,
) -> Result<Ended, AllocError> {
    let most = text.len() / 5 + 1;
    let (ended, written) = run_on(alloc, words, document, most, &[], &[write])?;
    let is_prefix = text.starts_with(written.as_slice());
    if written.len() < text.len() && ended == after_fault(status) && is_prefix {
        return Ok(Ended::Failed);
    }
    if ended == status && written.as_slice() == text {
        return Ok(Ended::Whole);
    }
    Ok(Ended::Otherwise)
}

// Each write of the run fails in turn, until none is left that fails.
fn see_writes(
    alloc: Global,
    words: &[&str],
    document: &[u8],
    status: Status,
    text: &[u8],
) -> Result<&'static str, AllocError> {
    for write in 0..9 {
        match with_write(alloc, words, document, status, text, write)? {
            Ended::Failed => {}
            Ended::Whole => return Ok(""),
            Ended::Otherwise => return Ok(" but not with a failing write"),
        }
    }
    Ok(" by too many writes")
}

// The run with one byte a call.
fn see_slow(
    alloc: Global,
    words: &[&str],
    document: &[u8],
    status: Status,
    text: &[u8],
) -> Result<&'static str, AllocError> {
    let (ended, written) = run_on(alloc, words, document, 1, &[], &[])?;
    if ended == status && written.as_slice() == text {
        Ok("")
    } else {
        Ok(" but not with one byte a call")
    }
}

// Where the run ends otherwise: with one byte a call, or with a read or a write failing.
fn see_run(
    alloc: Global,
    words: &[&str],
    document: &[u8],
    status: Status,
    text: &[u8],
) -> Result<&'static str, AllocError> {
    let slow = see_slow(alloc, words, document, status, text)?;
    if !slow.is_empty() {
        return Ok(slow);
    }
    let reads = see_reads(alloc, words, document, status, text)?;
    if !reads.is_empty() {
        return Ok(reads);
    }
    see_writes(alloc, words, document, status, text)
}

// What is answered, and where the run ends otherwise.
fn case_answer(alloc: Global, words: &[&str], document: &[u8]) -> Result<String, AllocError> {
    let (status, written) = run_on(alloc, words, document, 5000, &[], &[])?;
    let otherwise = see_run(alloc, words, document, status, written.as_slice())?;
    let mut text = answer_text(alloc, status, written.as_slice())?;
    text.push_str(otherwise)?;
    Ok(text)
}

// What is answered to the words and the document of a line.
fn line_answer(alloc: Global, asked: &str) -> Result<String, AllocError> {
    let (words, document) = asked.split_once("; ").unwrap_or((asked, ""));
    let document = written_out(alloc, document)?;
    let words = words_of(alloc, words)?;
    case_answer(alloc, words.as_slice(), document.as_bytes())
}

#[test]
fn cases_end_as_expected(rt: HostRuntime) -> Result<(), AllocError> {
    for line in CASES.lines() {
        if !line.starts_with("#") {
            let (asked, expected) = line.split_once(" => ").unwrap_or((line, "nothing"));
            let text = line_answer(rt.alloc(), asked)?;
            assert_same(&rt, text.as_str(), expected);
        }
    }
    Ok(())
}

// Whether the bytes are no JSON.
fn is_no_json(alloc: Global, document: &[u8]) -> Result<bool, AllocError> {
    let (status, written) = run_on(alloc, &["slice"], document, 5000, &[], &[])?;
    Ok(status == Status::Document && written.as_slice() == b"document: json\n".as_slice())
}

// Whether bytes are no JSON with these between.
fn is_no_json_with(
    alloc: Global,
    before: &[u8],
    between: &[u8],
    behind: &[u8],
) -> Result<bool, AllocError> {
    let mut document = Vec::from_slice(alloc, before)?;
    document.extend_from_slice(between)?;
    document.extend_from_slice(behind)?;
    is_no_json(alloc, document.as_slice())
}

// The lengths at which a cut document is JSON, or one with a byte there that stands in no UTF-8 text.
fn read_cuts(alloc: Global, bytes: &[u8]) -> Result<String, AllocError> {
    let mut lengths = String::new(alloc);
    for length in 0..bytes.len() {
        let is_cut = is_no_json(alloc, &bytes[..length])?;
        let is_broken = is_no_json_with(alloc, &bytes[..length], b"\xff", &bytes[length + 1..])?;
        if !is_cut || !is_broken {
            write!(lengths, "{length} ")?;
        }
    }
    Ok(lengths)
}

#[test]
fn what_is_cut_short_or_no_text_is_no_json(rt: HostRuntime) -> Result<(), AllocError> {
    let document = written_out(rt.alloc(), KEPT)?;
    let lengths = read_cuts(rt.alloc(), document.as_bytes())?;
    assert_same(&rt, lengths.as_str(), "");
    Ok(())
}

// Bytes at the edges of UTF-8, and whether they are a text: parts without a front and fronts without a part,
// what could be shorter, halves of pairs, and what is above U+10FFFF; then the least and the greatest of each
// length.
const BYTES: [(&[u8], bool); 17] = [
    (b"\x80", false),
    (b"\xc3", false),
    (b"\xe2\x82", false),
    (b"\xf0\x9f\x98", false),
    (b"\xc0\x80", false),
    (b"\xe0\x9f\xbf", false),
    (b"\xf0\x8f\xbf\xbf", false),
    (b"\xed\xa0\x80", false),
    (b"\xed\xbf\xbf", false),
    (b"\xf4\x90\x80\x80", false),
    (b"\xfe", false),
    (b"\xc2\x80", true),
    (b"\xdf\xbf", true),
    (b"\xe0\xa0\x80", true),
    (b"\xef\xbf\xbf", true),
    (b"\xf0\x90\x80\x80", true),
    (b"\xf4\x8f\xbf\xbf", true),
];

// The bytes of the table that are read otherwise in an id.
fn wrong_bytes(alloc: Global) -> Result<String, AllocError> {
    let mut wrong = String::new(alloc);
    for (bytes, is_text) in BYTES {
        let before = b"{\"schema\":{},\"policies\":[{\"id\":\"";
        if is_no_json_with(alloc, before, bytes, b"\"}]}")? == is_text {
            write!(wrong, "{bytes:?} ")?;
        }
    }
    Ok(wrong)
}

#[test]
fn texts_are_utf8(rt: HostRuntime) -> Result<(), AllocError> {
    let wrong = wrong_bytes(rt.alloc())?;
    assert_same(&rt, wrong.as_str(), "");
    Ok(())
}

// A page begins after an id whose eid is any text, also one that no line of words could have.
#[test]
fn an_eid_is_any_text(rt: HostRuntime) -> Result<(), AllocError> {
    let document = written_out(rt.alloc(), r#"$in,$stored,"request":$view}"#)?;
    for eid in ["", "a b", "ali\"ce", "\n"] {
        let words = ["list", "3", "User", eid];
        let text = answer_on(rt.alloc(), &words, document.as_bytes(), 5000, &[], &[])?;
        assert_same(&rt, text.as_str(), "Done User::\"alice\"|end|");
    }
    Ok(())
}
