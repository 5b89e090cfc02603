//! Names and the numbers of what they declare.

use std::test::Fail;
use tt_base::{Declared, Name, NameKind, Names, TaskNo};

#[test]
fn lists_kinds_at_their_places(rt: HostRuntime) {
    for (place, kind) in NameKind::ALL.iter().enumerate() {
        assert_eq!(rt; kind.index(), place);
    }
}

/// The place of a name's kind, and its number.
fn found(names: &Names, name: Name) -> Option<(usize, u16)> {
    let declared = names.find(name)?;
    Some((declared.kind().index(), declared.number()))
}

#[test]
fn finds_and_gives_back_names(rt: HostRuntime) -> Result<(), Fail> {
    let plan = Name::new(b"Plan").ok_or("no name")?;
    let wheel = Name::new(b"Wheel").ok_or("no name")?;
    let mut names = Names::new(rt.alloc());
    names.add(NameKind::Mode, wheel)?;
    names.add(NameKind::Task, plan)?;
    names.add(NameKind::Task, wheel)?;
    assert_eq!(rt; found(&names, plan), Some((NameKind::Task.index(), 0)));
    assert_eq!(rt; found(&names, wheel), Some((NameKind::Mode.index(), 0)));
    let second = Declared::Task(TaskNo(1));
    assert!(rt; names.get(second) == Some(wheel));
    Ok(())
}
