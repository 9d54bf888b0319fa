//! What holds of all lines: what is JSON, what names a command, which members count, and which of
//! several things wrong is told.
use super::{answer, read, told};
use crate::Command;
use std::alloc::Global;
use std::test::Fail;

#[test]
fn a_command_without_members_lacks_its_first_one(rt: HostRuntime) -> Result<(), Fail> {
    const ROWS: &[(&str, &str)] = &[
        (r#""move""#, "field name"),
        (r#""host""#, "field name"),
        (r#""vm""#, "field name"),
        (r#""enable""#, "field vm"),
        (r#""write""#, "field vm"),
        (r#""snapshot""#, "field vm"),
        (r#""remove""#, "field vm"),
        (r#""query""#, "field vm"),
        (r#""read""#, "field vm"),
        (r#""power""#, "field vm"),
        (r#""reset""#, "field vm"),
        (r#""inventory""#, "ok"),
        (r#""plan""#, "field name"),
        (r#""start""#, "field plan"),
        (r#""run""#, "field at"),
        (r#""cutover""#, "field plan"),
        (r#""cancel""#, "field vm"),
        (r#""status""#, "ok"),
        (r#""target""#, "field volume"),
        (r#""digest""#, "field volume"),
        (r#""restart""#, "ok"),
        (r#""quit""#, "ok"),
    ];
    let front = r#"{"cmd":"#;
    answer(&rt, rt.alloc(), front, ROWS, "}")
}

#[test]
fn a_line_is_json_and_nothing_else(rt: HostRuntime) -> Result<(), Fail> {
    const ROWS: &[(&str, &str)] = &[
        ("x", "json"),
        ("", "json"),
        ("{", "json"),
        ("}", "json"),
        (r#"{"cmd":"quit""#, "json"),
        (r#"{"cmd":"quit"}}"#, "json"),
        (r#"{"cmd":"quit"}{"cmd":"quit"}"#, "json"),
        (r#"{"cmd":"quit",}"#, "json"),
        ("{'cmd':'quit'}", "json"),
        (r#"{cmd:"quit"}"#, "json"),
        (r#"{"cmd":"quit" "a":1}"#, "json"),
        (r#"{"cmd"}"#, "json"),
        ("[1,]", "json"),
        ("nul", "json"),
        ("NaN", "json"),
        (r#""a"#, "json"),
        (r#"{"cmd":"quit"} //"#, "json"),
        ("quit", "json"),
        (r#"{"cmd":"quit","x":1e400}"#, "json"),
        (r#"{"cmd":"quit","x":[{"y":-1e400}]}"#, "json"),
        (r#"{"cmd":"host","name":1e400,"name":"h"}"#, "json"),
        (r#"{"cmd":"quit","x":1e308}"#, "field x"),
        ("{\"cmd\":\"qu\u{0}it\"}", "json"),
        ("{\"cmd\":\"qu\tit\"}", "json"),
        (r#"{"cmd":"\ud800"}"#, "json"),
    ];
    let front = "";
    answer(&rt, rt.alloc(), front, ROWS, "")
}

#[test]
fn spaces_may_stand_between_tokens(rt: HostRuntime) -> Result<(), Fail> {
    const ROWS: &[(&str, &str)] = &[
        (r#" {"cmd":"quit"} "#, "ok"),
        ("\t{\"cmd\" :\t\"quit\"\r}\r", "ok"),
        (r#"{ "cmd" : "host" , "name" : "h" }"#, "ok"),
    ];
    let front = "";
    answer(&rt, rt.alloc(), front, ROWS, "")
}

#[test]
fn a_command_is_an_object_that_names_it(rt: HostRuntime) -> Result<(), Fail> {
    const ROWS: &[(&str, &str)] = &[
        ("5", "command"),
        ("null", "command"),
        ("true", "command"),
        (r#""quit""#, "command"),
        ("[]", "command"),
        (r#"["cmd","quit"]"#, "command"),
        ("{}", "command"),
        (r#"{"cmd":5}"#, "command"),
        (r#"{"cmd":null}"#, "command"),
        (r#"{"cmd":true}"#, "command"),
        (r#"{"cmd":["quit"]}"#, "command"),
        (r#"{"cmd":{"cmd":"quit"}}"#, "command"),
        (r#"{"name":"h"}"#, "command"),
        (r#"{"CMD":"quit"}"#, "command"),
    ];
    let front = "";
    answer(&rt, rt.alloc(), front, ROWS, "")
}

#[test]
fn a_command_is_one_of_the_table(rt: HostRuntime) -> Result<(), Fail> {
    const ROWS: &[(&str, &str)] = &[
        (r#""fly""#, "command"),
        (r#""""#, "command"),
        (r#""Quit""#, "command"),
        (r#""quit ""#, "command"),
        (r#"" quit""#, "command"),
        (r#""qui""#, "command"),
        (r#""quits""#, "command"),
        (r#""cmd""#, "command"),
        (r#""fly","name":5"#, "command"),
        (r#""fly","x":1"#, "command"),
        (r#""quit","cmd":"fly""#, "command"),
        (r#""fly","cmd":"quit""#, "ok"),
        (r#""quit","cmd":5"#, "command"),
        (r#"5,"cmd":"quit""#, "ok"),
        (r#""q\u0075it""#, "ok"),
        (r#""\u0051uit""#, "command"),
    ];
    let front = r#"{"cmd":"#;
    answer(&rt, rt.alloc(), front, ROWS, "}")
}

#[test]
fn a_name_has_1_to_32_letters_digits_and_hyphens(rt: HostRuntime) -> Result<(), Fail> {
    const ROWS: &[(&str, &str)] = &[
        (r#""name":"a""#, "ok"),
        (r#""name":"z""#, "ok"),
        (r#""name":"0""#, "ok"),
        (r#""name":"9""#, "ok"),
        (r#""name":"-""#, "ok"),
        (r#""name":"vm-1""#, "ok"),
        (r#""name":"aaaaaaaaaaaaaaaaaaaaaaaaaaaaaa-9""#, "ok"),
        (
            r#""name":"aaaaaaaaaaaaaaaaaaaaaaaaaaaaaa-9a""#,
            "field name",
        ),
        (r#""name":"""#, "field name"),
        (r#""name":"A""#, "field name"),
        (r#""name":"aB""#, "field name"),
        (r#""name":"a b""#, "field name"),
        (r#""name":"m1.d0""#, "field name"),
        (r#""name":"a_b""#, "field name"),
        (r#""name":"ä""#, "field name"),
        (r#""name":"`""#, "field name"),
        (r#""name":"{""#, "field name"),
        (r#""name":"/""#, "field name"),
        (r#""name":":""#, "field name"),
        (r#""name":5"#, "field name"),
        (r#""name":null"#, "field name"),
        (r#""name":["a"]"#, "field name"),
        (r#""name":{}"#, "field name"),
        (r#""name":true"#, "field name"),
    ];
    let front = r#"{"cmd":"host","#;
    answer(&rt, rt.alloc(), front, ROWS, "}")
}

#[test]
fn a_number_is_whole_without_a_sign_and_of_64_bits(rt: HostRuntime) -> Result<(), Fail> {
    const ROWS: &[(&str, &str)] = &[
        ("0", "ok"),
        ("1", "ok"),
        ("18446744073709551615", "ok"),
        ("18446744073709551616", "number first"),
        ("1.0", "number first"),
        ("1e2", "number first"),
        ("1E2", "number first"),
        ("0.5", "number first"),
        ("-0", "number first"),
        ("-1", "number first"),
        ("1e300", "number first"),
        (r#""1""#, "field first"),
        ("null", "field first"),
        ("true", "field first"),
        ("[1]", "field first"),
        ("{}", "field first"),
    ];
    let front = r#"{"cmd":"write","vm":"a","disk":0,"count":1,"fill":0,"first":"#;
    answer(&rt, rt.alloc(), front, ROWS, "}")
}

#[test]
fn another_spelling_of_a_number_is_no_json(rt: HostRuntime) -> Result<(), Fail> {
    const ROWS: &[(&str, &str)] = &[
        ("01", "json"),
        ("00", "json"),
        ("+1", "json"),
        ("-", "json"),
        ("1.", "json"),
        (".5", "json"),
        ("0x1", "json"),
        ("1e", "json"),
        ("1e400", "json"),
        ("Infinity", "json"),
    ];
    let front = r#"{"cmd":"write","vm":"a","disk":0,"count":1,"fill":0,"first":"#;
    answer(&rt, rt.alloc(), front, ROWS, "}")
}

#[test]
fn a_number_of_32_bits_ends_where_they_end(rt: HostRuntime) -> Result<(), Fail> {
    const ROWS: &[(&str, &str)] = &[
        ("0", "ok"),
        ("4294967295", "ok"),
        ("4294967296", "number disk"),
        ("18446744073709551616", "number disk"),
        ("1.0", "number disk"),
        ("-0", "number disk"),
        ("-1", "number disk"),
        ("1e2", "number disk"),
        (r#""0""#, "field disk"),
        ("null", "field disk"),
    ];
    let front = r#"{"cmd":"reset","vm":"a","disk":"#;
    answer(&rt, rt.alloc(), front, ROWS, "}")
}

#[test]
fn members_are_tested_in_the_order_of_the_table(rt: HostRuntime) -> Result<(), Fail> {
    const ROWS: &[(&str, &str)] = &[
        (r#""fill":256,"count":129,"first":-1,"disk":-1"#, "field vm"),
        (
            r#""vm":"a","fill":256,"count":129,"first":-1,"disk":-1"#,
            "number disk",
        ),
        (
            r#""vm":"a","fill":256,"count":129,"first":-1,"disk":0"#,
            "number first",
        ),
        (
            r#""vm":"a","fill":256,"count":129,"first":1,"disk":0"#,
            "number count",
        ),
        (
            r#""vm":"a","fill":256,"count":128,"first":1,"disk":0"#,
            "number fill",
        ),
        (
            r#""x":1,"vm":"a","fill":256,"count":128,"first":1,"disk":0"#,
            "number fill",
        ),
    ];
    let front = r#"{"cmd":"write","#;
    answer(&rt, rt.alloc(), front, ROWS, "}")
}

#[test]
fn of_two_members_of_a_name_the_last_counts(rt: HostRuntime) -> Result<(), Fail> {
    const ROWS: &[(&str, &str)] = &[
        (r#""name":5,"name":"h""#, "ok"),
        (r#""name":"h","name":5"#, "field name"),
        (r#""name":"h","limit":0,"limit":1"#, "ok"),
        (r#""name":"h","limit":1,"limit":0"#, "number limit"),
        (
            r#""name":"h","limit":1,"limit":"1","limit":1025"#,
            "number limit",
        ),
        (r#""name":"h","x":1,"x":2"#, "field x"),
        (r#""name":"H","na\u006de":"h""#, "ok"),
        (r#""name":"h","cmd":"quit""#, "field name"),
        (r#""name":"h","cmd":5"#, "command"),
    ];
    let front = r#"{"cmd":"host","#;
    answer(&rt, rt.alloc(), front, ROWS, "}")
}

#[test]
fn a_member_too_many_is_told_last_and_the_least_one(rt: HostRuntime) -> Result<(), Fail> {
    const ROWS: &[(&str, &str)] = &[
        (r#""name":"h","b":1,"a":2"#, "field a"),
        (r#""name":"h","b":1,"aa":2"#, "field aa"),
        (r#""name":"h","é":1,"z":2"#, "field z"),
        (r#""name":"h","A":1,"a":2"#, "field A"),
        (r#""name":"h","z":1,"":2"#, "field "),
        (r#""name":"h","limits":1,"Limit":2"#, "field Limit"),
        (r#""a":1"#, "field name"),
        (r#""name":"h","limit":0,"a":1"#, "number limit"),
        (r#""name":"h","limit":"0","a":1"#, "field limit"),
        (r#""name":"h","a":{"b":[1,{"c":null}]}"#, "field a"),
        (r#""name":"h","a b":1"#, "field a b"),
    ];
    let front = r#"{"cmd":"host","#;
    answer(&rt, rt.alloc(), front, ROWS, "}")
}

fn answer_to(alloc: Global, line: &[u8]) -> Result<String, Fail> {
    told(alloc, read(alloc, line))
}

#[test]
fn a_line_is_text_in_utf8(rt: HostRuntime) -> Result<(), Fail> {
    let alloc = rt.alloc();
    let answer = answer_to(alloc, b"{\"cmd\":\"digest\",\"volume\":\"\xc3\xa4\"}")?;
    assert_eq!(rt; answer.as_str(), "ok");
    let answer = answer_to(alloc, b"{\"cmd\":\"digest\",\"volume\":\"\xc3\"}")?;
    assert_eq!(rt; answer.as_str(), "json");
    let answer = answer_to(alloc, b"\xff")?;
    assert_eq!(rt; answer.as_str(), "json");
    Ok(())
}

// A line with a member in which so many lists stand in each other.
fn nested(alloc: Global, lists: usize) -> Result<String, Fail> {
    let mut line = String::from_str(alloc, r#"{"cmd":"quit","x":"#)?;
    for _ in 0..lists {
        line.push_str("[")?;
    }
    for _ in 0..lists {
        line.push_str("]")?;
    }
    line.push_str("}")?;
    Ok(line)
}

#[test]
fn a_line_may_nest_127_deep(rt: HostRuntime) -> Result<(), Fail> {
    let line = nested(rt.alloc(), 126)?;
    let answer = answer_to(rt.alloc(), line.as_bytes())?;
    assert_eq!(rt; answer.as_str(), "field x");
    let line = nested(rt.alloc(), 127)?;
    let answer = answer_to(rt.alloc(), line.as_bytes())?;
    assert_eq!(rt; answer.as_str(), "json");
    Ok(())
}

// A front, so many times an item with commas between, and a back.
fn repeated(
    alloc: Global,
    front: &str,
    item: &str,
    times: usize,
    back: &str,
) -> Result<String, Fail> {
    let mut line = String::from_str(alloc, front)?;
    line.push_str(item)?;
    for _ in 1..times {
        line.push_str(",")?;
        line.push_str(item)?;
    }
    line.push_str(back)?;
    Ok(line)
}

#[test]
fn a_line_may_have_a_hundred_thousand_writes(rt: HostRuntime) -> Result<(), Fail> {
    let front = r#"{"cmd":"move","name":"a","sectors":1,"writes":["#;
    let line = repeated(rt.alloc(), front, "[0,1,2]", 100_000, "]}")?;
    match read(rt.alloc(), line.as_bytes()) {
        Ok(Command::Move { writes, .. }) => {
            assert_eq!(rt; writes.as_slice().len(), 100_000);
        }
        _ => return Err(Fail::from("no move")),
    }
    Ok(())
}

// An object of 95,000 members and its command, whose names are numbers of six digits.
fn many_members(alloc: Global) -> Result<String, Fail> {
    let mut line = String::from_str(alloc, "{")?;
    for number in 0u32..95_000 {
        let name = 199_999 - number;
        let member = format!(in alloc; r#""{name}":0,"#)?;
        line.push_str(member.as_str())?;
    }
    line.push_str(r#""cmd":"quit"}"#)?;
    Ok(line)
}

#[test]
fn a_line_may_have_95_000_members(rt: HostRuntime) -> Result<(), Fail> {
    let line = many_members(rt.alloc())?;
    let answer = answer_to(rt.alloc(), line.as_bytes())?;
    assert_eq!(rt; answer.as_str(), "field 105000");
    Ok(())
}
