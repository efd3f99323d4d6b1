//! Records of capset(2): those that are written are read as they were. The program writes those of
//! version 3 alone.
use crate::tests::parts::ALL;
use cred_capdata::{CapData, read_data, write_data};
use cred_caps::CapSet;
use std::test::Fail;

#[test]
fn records_are_read_as_they_were_written(rt: HostRuntime) -> Result<(), Fail> {
    for (version, perm, inh, eff, length) in [
        (1, 0x8000_0401, 0xffff_ffff, 1, 20),
        (2, ALL, 1 << 40, 1 << 32, 32),
        (3, 1 << 40 | 1, 0, ALL, 32),
    ] {
        let caps = CapData {
            version,
            target: 7,
            perm: CapSet::cut(perm),
            inh: CapSet::cut(inh),
            eff: CapSet::cut(eff),
        };
        let bytes = write_data(rt.alloc(), &caps)?;
        assert_eq!(rt; bytes.items().len(), length);
        assert!(rt; read_data(bytes.items()) == Ok(caps));
    }
    Ok(())
}
