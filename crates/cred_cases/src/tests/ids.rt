//! What no script sees of ids, arguments and lists of groups: a number that is no id, and how many
//! groups there were too many.
use crate::tests::parts::id;
use cred_ids::{Arg, Groups, GroupsRefusal, Id};
use std::test::Fail;

#[test]
fn minus_one_is_no_id_and_keeps_the_old_one(rt: HostRuntime) -> Result<(), Fail> {
    for (n, is_id) in [
        (0, true),
        (1000, true),
        (4294967294, true),
        (4294967295, false),
    ] {
        let answers = (Id::new(n).is_some(), Arg::of(n) != Arg::Keep);
        assert!(rt; answers == (is_id, is_id), "{n}");
    }
    assert!(rt; Arg::of(1000) == Arg::Set(id(1000)?));
    Ok(())
}

#[test]
fn too_many_groups_are_counted(rt: HostRuntime) -> Result<(), Fail> {
    let list = vec![in rt.alloc(); id(7)?; 1025]?;
    let refusal = Groups::from_list(rt.alloc(), list.as_slice()).err();
    assert!(rt; refusal == Some(GroupsRefusal::TooMany(1025)));
    Ok(())
}
