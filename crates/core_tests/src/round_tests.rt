use crate::driving::{core_of, make_rounds, text_of};
use crate::round_rows::ROUNDS;
use mid_io::MemSink;
use std::alloc::Global;
use std::test::Fail;

fn printed(alloc: Global, script: &str, rounds: u32) -> Result<MemSink, Fail> {
    let mut core = core_of(alloc, script)?;
    make_rounds(alloc, &mut core, rounds)?;
    text_of(alloc, &core, &[])
}

#[test]
fn rounds_are_run_over_the_simulated_adapter(rt: HostRuntime) -> Result<(), Fail> {
    for (script, rounds, text) in ROUNDS {
        let written = printed(rt.alloc(), script, rounds)?;
        assert_eq!(rt; written.bytes(), text.as_bytes(), "the text of {script}");
    }
    Ok(())
}
