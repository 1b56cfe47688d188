// Which records in etcd a text names.
use ld_etcd::{PlaceFault, place_of};
use std::alloc::Global;
use std::test::Fail;

/// How many members a text names, and how long the prefix is; 0 of each where it names a file.
fn named(alloc: Global, text: &str) -> Result<(usize, usize), PlaceFault> {
    match place_of(alloc, text)? {
        Some(place) => Ok((place.members.len(), place.prefix.len())),
        None => Ok((0, 0)),
    }
}

#[test]
fn a_text_names_a_file_or_members_and_a_prefix(rt: HostRuntime) -> Result<(), Fail> {
    let alloc = rt.alloc();
    assert_eq!(rt; named(alloc, "register"), Ok((0, 0)));
    assert_eq!(rt; named(alloc, "./etcd:a:1/p"), Ok((0, 0)));
    assert_eq!(rt; named(alloc, "etcd:127.0.0.1:2379/p"), Ok((1, 1)));
    assert_eq!(rt;
        named(alloc, "etcd:one:2379,[::1]:2380,two:1/ld/x"),
        Ok((3, 4))
    );
    Ok(())
}

#[test]
fn a_text_that_begins_so_and_is_cut_short_is_refused(rt: HostRuntime) -> Result<(), Fail> {
    let alloc = rt.alloc();
    assert_eq!(rt;
        named(alloc, "etcd:127.0.0.1:2379"),
        Err(PlaceFault::NoPrefix)
    );
    assert_eq!(rt;
        named(alloc, "etcd:127.0.0.1:2379/"),
        Err(PlaceFault::NoPrefix)
    );
    assert_eq!(rt; named(alloc, "etcd:host/p"), Err(PlaceFault::BadPlace));
    assert_eq!(rt; named(alloc, "etcd:a:1,,b:2/p"), Err(PlaceFault::BadPlace));
    assert_eq!(rt; named(alloc, "etcd:a:0/p"), Err(PlaceFault::BadPlace));
    assert_eq!(rt; named(alloc, "etcd:a:65536/p"), Err(PlaceFault::BadPlace));
    Ok(())
}
