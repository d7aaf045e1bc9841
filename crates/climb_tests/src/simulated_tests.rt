use crate::simulated::climb_text;
use crate::simulated_rows::CLIMBS;
use std::test::Fail;

#[test]
fn climbs_over_the_simulated_adapter_are_told(rt: HostRuntime) -> Result<(), Fail> {
    for (script, failed, text) in CLIMBS {
        let written = climb_text(rt.alloc(), script, failed)?;
        assert_eq!(rt; written.bytes(), text.as_bytes(), "the text of {script}");
    }
    Ok(())
}
