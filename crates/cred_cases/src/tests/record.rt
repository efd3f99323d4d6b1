//! An attribute is copied where memory is left. No script has one copied.
use cred_record::Attr;
use std::test::Fail;

#[test]
fn attributes_are_copied(rt: HostRuntime) -> Result<(), Fail> {
    let bytes = [1, 0, 0, 2];
    let attr = Attr::of(rt.alloc(), &bytes)?.copy()?;
    assert_eq!(rt; attr.items(), bytes.as_slice());
    Ok(())
}
