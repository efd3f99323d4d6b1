//! Texts that are no word of a script.
use cred_caps::cap_of_name;
use std::test::Fail;

#[test]
fn no_words_are_no_names(rt: HostRuntime) -> Result<(), Fail> {
    for text in ["", "CAP_CHOWN "] {
        assert!(rt; cap_of_name(text).is_none(), "{text}");
    }
    Ok(())
}
