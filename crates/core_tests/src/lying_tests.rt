use crate::driving::{host_of, make_all, text_of};
use crate::keeps_limits;
use crate::lie_rows::LIES;
use mid_base::{Answer, Attempt, DID_OK, GOOD, ProbeSay, Rows, SenseBytes, Tick};
use mid_core::Core;
use mid_io::MemSink;
use rogue_lower::RogueLower;
use std::alloc::Global;
use std::test::Fail;

// DID_OK with this status and without sense data, nothing moved.
fn answer(status: u8) -> Answer {
    Answer {
        host: DID_OK,
        status,
        sense: SenseBytes::empty(),
        moved: 0,
        sum: 0,
    }
}

// One that gives these answers and has its probes bring these bytes, whatever it is asked.
fn rogue(alloc: Global, answers: &[(u64, u64, u8)], brought: &[&[u8]]) -> Result<RogueLower, Fail> {
    let mut said = Vec::new(alloc);
    for (tick, n, status) in answers {
        said.push((Tick(*tick), Attempt(*n), answer(*status)))?;
    }
    let mut probes = Vec::new(alloc);
    for bytes in brought {
        probes.push((ProbeSay::Answered(answer(GOOD)), bytes.to_vec(alloc)?))?;
    }
    Ok(RogueLower::new(
        Vec::new(alloc),
        said,
        Vec::new(alloc),
        Vec::new(alloc),
        probes,
    ))
}

fn printed(alloc: Global, script: &str, lower: RogueLower) -> Result<MemSink, Fail> {
    let (host, steps) = host_of(alloc, script)?;
    if !keeps_limits(&host) {
        return Err("a host within the limits".into());
    }
    let mut core = Core::new(alloc, host, Rows::new(alloc), lower)?;
    let skips = make_all(alloc, &mut core, &steps)?;
    text_of(alloc, &core, &skips)
}

#[test]
fn lies_of_a_lower_layer_change_nothing_else(rt: HostRuntime) -> Result<(), Fail> {
    for (script, answers, brought, text) in LIES {
        let lower = rogue(rt.alloc(), answers, brought)?;
        let written = printed(rt.alloc(), script, lower)?;
        assert_eq!(rt; written.bytes(), text.as_bytes(), "the text of {script}");
    }
    Ok(())
}
