// Configurations and their faults.
use ld_config::{Config, ConfigFault, Field};
use std::alloc::Global;
use std::test::Fail;

/// How many nodes and logs a configuration has, and of its first log the number, the set, the factor and the extras.
fn read(alloc: Global, text: &[u8]) -> Result<[u64; 6], ConfigFault> {
    let config = Config::read(alloc, text)?;
    let logs = config.logs.as_slice();
    let spec = logs[0];
    Ok([
        config.nodes.len() as u64,
        logs.len() as u64,
        u64::from(spec.log.number()),
        u64::from(spec.set.bits()),
        u64::from(spec.r),
        u64::from(spec.extras),
    ])
}

#[test]
fn a_configuration_is_read(rt: HostRuntime) -> Result<(), Fail> {
    let text = br#"{"nodes":[1,2,3],"logs":[{"id":7,"set":[3,1],"r":2,"extras":1}]}"#;
    assert_eq!(rt; read(rt.alloc(), text)?, [3, 1, 7, 5, 2, 1]);
    Ok(())
}

#[test]
fn the_first_fault_is_answered(rt: HostRuntime) -> Result<(), Fail> {
    let cases: [(&[u8], ConfigFault); 3] = [
        (b"{", ConfigFault::NotJson),
        (
            br#"{"nodes":[1.0],"logs":0}"#,
            ConfigFault::Shape(Field::Node),
        ),
        (
            br#"{"nodes":[1],"logs":[{"id":1,"set":[2],"r":0}]}"#,
            ConfigFault::Range(Field::Member, 2),
        ),
    ];
    for (text, expected) in cases {
        assert!(rt; read(rt.alloc(), text) == Err(expected));
    }
    Ok(())
}
