use durstr_run::RunFault;
use std::test::Fail;

#[test]
fn shows_its_name(rt: HostRuntime) -> Result<(), Fail> {
    for (fault, name) in [
        (RunFault::Read, "Read"),
        (RunFault::Write, "Write"),
        (RunFault::TooLong, "TooLong"),
        (RunFault::Memory, "Memory"),
    ] {
        let shown = format!(in rt.alloc(); "{fault:?}")?;
        assert!(rt; shown.as_str() == name, "{name}");
    }
    Ok(())
}
