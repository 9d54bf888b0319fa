//! The public calls once, and a small table of other rows.
use crate::{Fact, Phase, Row, Table, back_edge, next};
use std::test::Fail;

#[test]
fn a_phase_prints_its_name(rt: HostRuntime) -> Result<(), Fail> {
    assert_eq!(rt; Phase::Started.number(), 1);
    assert_eq!(rt; Phase::Failed.number(), 22);
    let printed = format!(in rt.alloc(); "{}", Phase::CopyingPaused)?;
    assert_eq!(rt; printed.as_str(), "CopyingPaused");
    Ok(())
}

#[test]
fn the_first_row_that_fits_counts(rt: HostRuntime) {
    let row = |fact, successor| Row {
        phase: Phase::CopyFinal,
        fact,
        successor,
    };
    let table = Table {
        rows: [
            row(Fact::Running, Phase::PowerOffSource),
            row(Fact::Done, Phase::RemoveFinalSnapshot),
            row(Fact::Done, Phase::Completed),
        ],
    };
    assert_eq!(rt;
        table.first(Phase::CopyFinal, Fact::Done),
        Some(Phase::RemoveFinalSnapshot)
    );
    assert_eq!(rt;
        table.first(Phase::CopyFinal, Fact::Running),
        Some(Phase::PowerOffSource)
    );
    assert_eq!(rt; table.first(Phase::CopyFinal, Fact::Failed), None);
    assert_eq!(rt; table.first(Phase::CopyDisks, Fact::Done), None);
    assert_eq!(rt;
        Table { rows: [] }.first(Phase::CopyFinal, Fact::Done),
        None
    );
}

#[test]
fn only_a_machine_that_is_on_leads_back(rt: HostRuntime) {
    assert_eq!(rt;
        next(Phase::CopyingPaused, Fact::Cutover),
        Some(Phase::StorePowerState)
    );
    assert_eq!(rt; next(Phase::CopyingPaused, Fact::Done), None);
    assert_eq!(rt; next(Phase::Completed, Fact::Cancelled), None);
    assert_eq!(rt;
        back_edge(Phase::CreateFinalSnapshot),
        Some(Phase::PowerOffSource)
    );
    assert_eq!(rt; back_edge(Phase::AddFinalCheckpoint), None);
    assert!(rt; Phase::Completed.is_end());
    assert!(rt; !Phase::RemoveFinalSnapshot.is_end());
}
