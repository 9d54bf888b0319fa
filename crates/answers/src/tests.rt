//! The line of a reply, and of a refusal for each kind of what it carries.
use crate::{Answer, Refusal, line_for};
use basics::{Name, NoMemory, Text};
use change_id::IdRefused;
use reply_json::Reply;
use std::alloc::Global;
use std::test::Fail;

/// The line for each of some refusals.
fn told(alloc: Global, why: Refusal) -> Result<Vec<u8>, NoMemory> {
    let answer: Answer = Err(why);
    line_for(alloc, answer)
}

#[test]
fn a_reply_is_told(rt: HostRuntime) -> Result<(), Fail> {
    let line = line_for(rt.alloc(), Ok(Reply::Done))?;
    assert_eq!(rt; line.as_slice(), b"{\"ok\":true}\n".as_slice());
    Ok(())
}

#[test]
fn a_refusal_may_carry_nothing(rt: HostRuntime) -> Result<(), Fail> {
    let line = told(rt.alloc(), Refusal::NotStarted)?;
    assert_eq!(rt;
        line.as_slice(),
        b"{\"error\":\"not-started\",\"ok\":false}\n".as_slice()
    );
    Ok(())
}

#[test]
fn a_refusal_may_carry_the_name_of_a_member(rt: HostRuntime) -> Result<(), Fail> {
    let why = Refusal::Field(Text::of(rt.alloc(), "vms")?);
    let line = told(rt.alloc(), why)?;
    assert_eq!(rt;
        line.as_slice(),
        b"{\"error\":\"field\",\"name\":\"vms\",\"ok\":false}\n".as_slice()
    );
    Ok(())
}

#[test]
fn a_refusal_may_carry_a_machine(rt: HostRuntime) -> Result<(), Fail> {
    let why = Refusal::InPlan(Name::of(rt.alloc(), "a")?);
    let line = told(rt.alloc(), why)?;
    assert_eq!(rt;
        line.as_slice(),
        b"{\"error\":\"in-plan\",\"ok\":false,\"vm\":\"a\"}\n".as_slice()
    );
    Ok(())
}

#[test]
fn a_refusal_may_carry_its_cause(rt: HostRuntime) -> Result<(), Fail> {
    let line = told(rt.alloc(), Refusal::Since(IdRefused::Uuid))?;
    assert_eq!(rt;
        line.as_slice(),
        b"{\"cause\":\"uuid\",\"error\":\"since\",\"ok\":false}\n".as_slice()
    );
    Ok(())
}

#[test]
fn a_refusal_may_carry_an_identifier(rt: HostRuntime) -> Result<(), Fail> {
    let line = told(rt.alloc(), Refusal::Strange(None))?;
    assert_eq!(rt;
        line.as_slice(),
        b"{\"error\":\"strange\",\"id\":null,\"ok\":false}\n".as_slice()
    );
    Ok(())
}
