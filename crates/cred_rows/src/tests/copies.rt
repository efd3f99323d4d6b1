//! Calls below the top call that no other test makes with ample memory.
use cred_copies::{copy_answer, copy_event};
use cred_event::{Answer, Entry, Event, Told};
use cred_ids::Id;
use cred_record::{Attr, IdCall, IdList};
use cred_report::Text;
use std::alloc::Global;
use std::mem::size_of;
use std::test::Fail;

#[test]
fn an_entry_is_small(rt: HostRuntime) {
    assert!(rt; size_of::<Entry>() <= 200);
}

/// Three ids, out of order.
fn list(alloc: Global) -> Result<IdList, Fail> {
    let ids = [
        Id::new(30).ok_or("30")?,
        Id::new(10).ok_or("10")?,
        Id::new(20).ok_or("20")?,
    ];
    Ok(IdList::of(alloc, &ids)?)
}

/// The call that the event begins, where that is one of task 7.
fn call_of(event: &Event) -> Option<&IdCall> {
    match event {
        Event::Begin { task: 7, call } => Some(call),
        _ => None,
    }
}

/// The groups in the answer.
fn groups_of(answer: &Answer) -> Option<&IdList> {
    match answer {
        Answer::Told(Told::Groups(groups)) => Some(groups),
        _ => None,
    }
}

/// What the copy of an event is that holds the list.
fn copied_event(alloc: Global) -> Result<String, Fail> {
    let call = IdCall::SetGroups(list(alloc)?);
    let event = Event::Begin { task: 7, call };
    let copied = copy_event(&event);
    drop(event);
    let copied = copied?;
    let text = format!(in alloc; "{:?}", call_of(&copied));
    drop(copied);
    Ok(text?)
}

/// The bytes that the event gives a file, where it gives any.
fn bytes_of(event: &Event) -> Option<&[u8]> {
    match event {
        Event::SetAttr {
            attr: Some(attr),
            ..
        } => Some(attr.items()),
        _ => None,
    }
}

/// The bytes of the copy of an event that gives some to a file.
fn copied_bytes(alloc: Global) -> Result<Vec<u8>, Fail> {
    let event = Event::SetAttr {
        hold: 1,
        file: 0,
        attr: Some(Attr::of(alloc, &[1, 0, 255])?),
    };
    let copied = copy_event(&event);
    drop(event);
    let copied = copied?;
    let bytes = bytes_of(&copied).unwrap_or(&[]).to_vec(alloc);
    drop(copied);
    Ok(bytes?)
}

/// What the copy of an answer is that holds the list.
fn copied_answer(alloc: Global) -> Result<String, Fail> {
    let answer = Answer::Told(Told::Groups(list(alloc)?));
    let copied = copy_answer(&answer);
    drop(answer);
    let copied = copied?;
    let text = format!(in alloc; "{:?}", groups_of(&copied));
    drop(copied);
    Ok(text?)
}

#[test]
fn a_copy_has_its_list(rt: HostRuntime) -> Result<(), Fail> {
    let event = copied_event(rt.alloc())?;
    let answer = copied_answer(rt.alloc())?;
    let bytes = copied_bytes(rt.alloc())?;
    assert!(rt; event.as_str() == "Some(SetGroups(Items { items: [Id(30), Id(10), Id(20)] }))");
    assert!(rt; answer.as_str() == "Some(Items { items: [Id(30), Id(10), Id(20)] })");
    assert!(rt; bytes.as_slice() == [1, 0, 255].as_slice());
    Ok(())
}

#[test]
fn a_text_has_its_letters(rt: HostRuntime) -> Result<(), Fail> {
    let text = Text::of(rt.alloc(), b"ok c0 s0")?;
    assert!(rt; text.items() == b"ok c0 s0".as_slice());
    Ok(())
}
