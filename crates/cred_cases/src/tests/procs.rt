//! What no clause says of a list of numbers: that it is made where memory is left. No script has
//! one made so.
use cred_procs::CredNumbers;
use std::test::Fail;

#[test]
fn numbers_are_what_they_are_made_of(rt: HostRuntime) -> Result<(), Fail> {
    assert_eq!(rt;
        CredNumbers::of(rt.alloc(), &[7, 7])?.items(),
        [7, 7].as_slice()
    );
    Ok(())
}
