//! Which commands are built, and how a refusal is numbered and shown.
use super::told;
use crate::{BUILT, CmdRefused, CommandReader, Text, read_command};
use std::alloc::Global;
use std::test::Fail;

fn answer_where(alloc: Global, built: &[&str], line: &str) -> Result<String, Fail> {
    told(
        alloc,
        CommandReader::new(alloc).read_among(alloc, built, line.as_bytes()),
    )
}

#[test]
fn a_command_that_is_not_built_is_told_before_its_members(rt: HostRuntime) -> Result<(), Fail> {
    let built = ["quit", "status"];
    for line in [
        r#"{"cmd":"host"}"#,
        r#"{"cmd":"host","name":"h"}"#,
        r#"{"cmd":"host","x":1}"#,
    ] {
        let answer = answer_where(rt.alloc(), &built, line)?;
        assert_eq!(rt; answer.as_str(), "command", "{line}");
    }
    Ok(())
}

#[test]
fn a_command_that_is_built_is_read(rt: HostRuntime) -> Result<(), Fail> {
    let built = ["quit", "host"];
    let answer = answer_where(rt.alloc(), &built, r#"{"cmd":"host","name":"h"}"#)?;
    assert_eq!(rt; answer.as_str(), "ok");
    let answer = answer_where(rt.alloc(), &built, r#"{"cmd":"quit","x":1}"#)?;
    assert_eq!(rt; answer.as_str(), "field x");
    Ok(())
}

#[test]
fn a_reader_reads_one_line_after_another(rt: HostRuntime) -> Result<(), Fail> {
    let mut reader = CommandReader::new(rt.alloc());
    let lines = [
        r#"{"cmd":"\u0071uit"}"#,
        "x",
        r#"{"cmd":"host","name":"a-name-that-is-longer"}"#,
        r#"{"cmd":"quit","b":1,"a":2}"#,
        r#"{"cmd":"quit"}"#,
    ];
    for line in lines {
        let kept = told(rt.alloc(), reader.read(rt.alloc(), line.as_bytes()))?;
        let fresh = told(rt.alloc(), read_command(rt.alloc(), line.as_bytes()))?;
        assert_eq!(rt; kept.as_str(), fresh.as_str(), "{line}");
    }
    Ok(())
}

#[test]
fn a_name_that_no_row_has_is_no_command(rt: HostRuntime) -> Result<(), Fail> {
    let answer = answer_where(rt.alloc(), &["fly"], r#"{"cmd":"fly"}"#)?;
    assert_eq!(rt; answer.as_str(), "command");
    let answer = answer_where(rt.alloc(), &[], r#"{"cmd":"quit"}"#)?;
    assert_eq!(rt; answer.as_str(), "command");
    let answer = answer_where(rt.alloc(), &[], "x")?;
    assert_eq!(rt; answer.as_str(), "json");
    Ok(())
}

#[test]
fn what_is_built_is_a_command(rt: HostRuntime) -> Result<(), Fail> {
    for name in BUILT {
        let line = format!(in rt.alloc(); r#"{{"cmd":"{name}"}}"#)?;
        let answer = told(rt.alloc(), read_command(rt.alloc(), line.as_bytes()))?;
        assert_ne!(rt; answer.as_str(), "command", "{name}");
    }
    Ok(())
}

#[test]
fn what_is_not_built_yet_is_no_command(rt: HostRuntime) -> Result<(), Fail> {
    let answer = told(rt.alloc(), read_command(rt.alloc(), br#"{"cmd":"run"}"#))?;
    assert_eq!(rt; answer.as_str(), "command");
    Ok(())
}

#[test]
fn refusals_have_numbers_and_texts(rt: HostRuntime) -> Result<(), Fail> {
    let refused = CmdRefused::Number(Text::of(rt.alloc(), "limit")?);
    assert_eq!(rt; refused.number(), Some(4));
    let text = refused.to_string(rt.alloc())?;
    assert_eq!(rt; text.as_str(), "not in its range: limit");
    assert_eq!(rt; CmdRefused::Json.number(), Some(1));
    assert_eq!(rt; CmdRefused::NoMemory.number(), None);
    Ok(())
}
