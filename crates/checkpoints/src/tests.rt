//! The public calls once, and what no clause says.
ghost use Rattle.std.specs.Prelude.{◌≡◌, [], Some, None};
ghost use Rattle.checkpoints.specs.DataVolume.{no_checkpoints, add_refusal, after_done, done_refusal, finished_count, phase_of};
ghost use Rattle.checkpoints.specs.SmallImports.{one_added, final_added};

use crate::{CheckRefused, Checkpoint, DataVolume, DvPhase};
use std::test::Fail;

/// The definitions on small imports. The proof computes them.
fn definitions_on_small_imports()
    ensures first { add_refusal no_checkpoints 0 1 ≡ None }
    ensures no_first { add_refusal no_checkpoints 1 2 ≡ Some CheckRefused.Order }
    ensures nothing_done { done_refusal [] ≡ Some CheckRefused.Order }
    ensures unfinished { add_refusal one_added 1 2 ≡ Some CheckRefused.Order }
    ensures next { add_refusal (after_done one_added) 1 2 ≡ None }
    ensures same { add_refusal (after_done one_added) 1 1 ≡ Some CheckRefused.Order }
    ensures other { add_refusal (after_done one_added) 0 2 ≡ Some CheckRefused.Order }
    ensures after_final { add_refusal final_added 0 1 ≡ Some CheckRefused.Final }
    ensures twice { done_refusal (after_done one_added).checkpoints ≡ Some CheckRefused.Order }
    ensures none_finished { finished_count one_added.checkpoints ≡ 0 }
    ensures one_finished { finished_count (after_done one_added).checkpoints ≡ 1 }
    ensures pending { phase_of no_checkpoints ≡ DvPhase.Pending }
    ensures running { phase_of final_added ≡ DvPhase.InProgress }
    ensures paused { phase_of (after_done one_added) ≡ DvPhase.Paused }
    ensures succeeded { phase_of (after_done final_added) ≡ DvPhase.Succeeded }
{}

#[test]
fn an_import_of_two_checkpoints(rt: HostRuntime) -> Result<(), Fail> {
    definitions_on_small_imports();
    let mut import = DataVolume::new(rt.alloc());
    assert_eq!(rt; import.phase(), DvPhase::Pending);
    import.add(0, 1, false)?;
    assert_eq!(rt; import.phase(), DvPhase::InProgress);
    assert_eq!(rt; import.add(1, 2, false), Err(CheckRefused::Order));
    import.done()?;
    assert_eq!(rt; import.done(), Err(CheckRefused::Order));
    assert_eq!(rt; import.phase(), DvPhase::Paused);
    import.add(1, 4, true)?;
    assert_eq!(rt; import.add(4, 5, true), Err(CheckRefused::Final));
    import.done()?;
    assert_eq!(rt; import.phase(), DvPhase::Succeeded);
    assert!(rt; import.final_checkpoint());
    let checkpoint = |previous, current| Checkpoint {
        previous,
        current,
        done: true,
    };
    assert_eq!(rt;
        import.checkpoints(),
        [checkpoint(0, 1), checkpoint(1, 4)].as_slice()
    );
    Ok(())
}

#[test]
fn refusals_have_numbers(rt: HostRuntime) -> Result<(), Fail> {
    assert_eq!(rt; CheckRefused::Order.number(), Some(1));
    assert_eq!(rt; CheckRefused::Final.number(), Some(2));
    assert_eq!(rt; CheckRefused::NoMemory.number(), None);
    let printed = format!(in rt.alloc(); "{}, {}", CheckRefused::Final, DvPhase::InProgress)?;
    assert_eq!(rt;
        printed.as_str(),
        "the final checkpoint was added before, InProgress"
    );
    Ok(())
}
