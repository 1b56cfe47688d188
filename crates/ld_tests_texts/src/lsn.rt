// Numbers and their texts.
use ld_lsn::Lsn;
use std::test::Fail;

/// What a text is read as.
fn read(text: &[u8]) -> Option<u64> {
    Lsn::parse(text).map(|number| number.value())
}

#[test]
fn texts_of_the_grammar_are_read(rt: HostRuntime) -> Result<(), Fail> {
    let texts: [(&[u8], Option<u64>); 7] = [
        (b"e1n1", Some(4_294_967_297)),
        (b"e0n0", Some(0)),
        (b"e4294967295n4294967295", Some(18_446_744_073_709_551_615)),
        (b"e01n1", None),
        (b"E1n1", None),
        (b"e4294967296n0", None),
        (b"e1n+1", None),
    ];
    for (text, value) in texts {
        assert_eq!(rt; read(text), value);
    }
    Ok(())
}

#[test]
fn a_text_is_written(rt: HostRuntime) -> Result<(), Fail> {
    let mut text = [0; 22];
    let length = Lsn::new(4_294_967_295, 4_294_967_295).write_text(&mut text);
    assert!(rt; &text[..length] == b"e4294967295n4294967295".as_slice());
    let length = Lsn::new(1, 0).write_text(&mut text);
    assert!(rt; &text[..length] == b"e1n0".as_slice());
    Ok(())
}

#[test]
fn the_first_place_belongs_to_the_epoch_before(rt: HostRuntime) -> Result<(), Fail> {
    assert_eq!(rt; Lsn::epoch_end(1).value(), Lsn::new(2, 0).value());
    let homes = [
        Lsn::new(2, 0).home(),
        Lsn::new(2, 1).home(),
        Lsn::new(0, 0).home(),
    ];
    assert_eq!(rt; homes, [(1, 4_294_967_296), (2, 1), (0, 0)]);
    assert!(rt; Lsn::new(4_294_967_295, 4_294_967_295).next().is_none());
    Ok(())
}
