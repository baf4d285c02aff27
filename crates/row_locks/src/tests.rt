//! Calls with ample memory, and answers worked out by hand or by a plain list of locks.

use crate::{Ask, LockTable, Plan};
use hops_base::{ClientNo, InodeId, Key, Mode, Name, NoMemory, SessionId};
use std::alloc::Global;
use std::process::Abort;
use std::test::Fail;

const SHARED: Mode = Mode::Shared;

const EXCLUSIVE: Mode = Mode::Exclusive;

const HELD: Option<Ask> = Some(Ask::Held);

// What the session is told, where it doesn't hold the key yet.
fn asked(table: &mut LockTable, s: u64, key: &Key, mode: Mode) -> Option<Ask> {
    if table.holds(SessionId(s), key).is_some() {
        return None;
    }
    Some(table.ask(SessionId(s), key, mode))
}

// The same, where want of memory ends the test.
fn ask(table: &mut LockTable, s: u64, key: &Key, mode: Mode) -> Result<Option<Ask>, NoMemory> {
    match asked(table, s, key, mode) {
        Some(Ask::NoMemory) => Err(NoMemory),
        told => Ok(told),
    }
}

// What a session is told that meets this one.
fn busy(s: u64) -> Option<Ask> {
    Some(Ask::Busy(SessionId(s)))
}

#[test]
fn sessions_share_a_key_and_keep_others_away(rt: HostRuntime) -> Result<(), Fail> {
    let mut table = LockTable::new(rt.alloc())?;
    let key = Key::Inode(InodeId(1), Name::read(rt.alloc(), "a")?);
    assert_eq!(rt; ask(&mut table, 2, &key, SHARED)?, HELD);
    assert_eq!(rt; ask(&mut table, 1, &key, SHARED)?, HELD);
    assert_eq!(rt; ask(&mut table, 3, &key, EXCLUSIVE)?, busy(1));
    assert_eq!(rt;
        table.conflict(SessionId(3), &key, EXCLUSIVE),
        Some(SessionId(1))
    );
    assert_eq!(rt; table.conflict(SessionId(3), &key, SHARED), None);
    assert_eq!(rt;
        table.conflict(SessionId(1), &key, EXCLUSIVE),
        Some(SessionId(2))
    );
    assert_eq!(rt; table.holds(SessionId(3), &key), None);
    Ok(())
}

#[test]
fn an_exclusive_lock_is_of_one_session_and_one_key(rt: HostRuntime) -> Result<(), Fail> {
    let mut table = LockTable::new(rt.alloc())?;
    let key = Key::Quota(InodeId(7));
    let other = Key::Quota(InodeId(8));
    assert_eq!(rt; ask(&mut table, 1, &key, EXCLUSIVE)?, HELD);
    assert_eq!(rt; table.holds(SessionId(1), &key), Some(EXCLUSIVE));
    assert_eq!(rt; table.holds(SessionId(1), &other), None);
    assert_eq!(rt; ask(&mut table, 2, &key, SHARED)?, busy(1));
    assert_eq!(rt; ask(&mut table, 1, &other, EXCLUSIVE)?, HELD);
    assert_eq!(rt; ask(&mut table, 2, &Key::Gate, EXCLUSIVE)?, HELD);
    assert_eq!(rt; table.conflict(SessionId(1), &key, EXCLUSIVE), None);
    Ok(())
}

#[test]
fn locks_of_one_session_are_given_back(rt: HostRuntime) -> Result<(), Fail> {
    let mut table = LockTable::new(rt.alloc())?;
    let keys = [Key::Gate, Key::Reply(ClientNo(4)), Key::Quota(InodeId(7))];
    for key in &keys {
        assert_eq!(rt; ask(&mut table, 1, key, SHARED)?, HELD);
    }
    assert_eq!(rt; ask(&mut table, 2, &keys[0], SHARED)?, HELD);
    table.give_all(SessionId(1));
    for key in &keys {
        assert_eq!(rt; table.holds(SessionId(1), key), None);
    }
    assert_eq!(rt; table.holds(SessionId(2), &keys[0]), Some(SHARED));
    assert_eq!(rt; ask(&mut table, 3, &keys[0], EXCLUSIVE)?, busy(2));
    assert_eq!(rt; ask(&mut table, 3, &keys[1], EXCLUSIVE)?, HELD);
    table.give_all(SessionId(2));
    table.give_all(SessionId(2));
    assert_eq!(rt; ask(&mut table, 3, &keys[0], EXCLUSIVE)?, HELD);
    Ok(())
}

#[test]
fn a_plan_is_sorted_and_joined(rt: HostRuntime) -> Result<(), Fail> {
    let wanted = vec![in rt.alloc();
        (Key::Gate, SHARED),
        (Key::Quota(InodeId(9)), SHARED),
        (
            Key::Inode(InodeId(1), Name::read(rt.alloc(), "b")?),
            EXCLUSIVE
        ),
        (Key::Quota(InodeId(9)), EXCLUSIVE),
        (Key::Inode(InodeId(1), Name::read(rt.alloc(), "a")?), SHARED),
        (Key::Gate, SHARED),
        (Key::Quota(InodeId(9)), SHARED),
    ]?;
    let plan = Plan::make(wanted)?;
    let a = Key::Inode(InodeId(1), Name::read(rt.alloc(), "a")?);
    let b = Key::Inode(InodeId(1), Name::read(rt.alloc(), "b")?);
    assert_eq!(rt; plan.len(), 4);
    assert_eq!(rt; plan.get(0), Some((&a, SHARED)));
    assert_eq!(rt; plan.get(1), Some((&b, EXCLUSIVE)));
    assert_eq!(rt; plan.get(2), Some((&Key::Quota(InodeId(9)), EXCLUSIVE)));
    assert_eq!(rt; plan.get(3), Some((&Key::Gate, SHARED)));
    assert_eq!(rt; plan.get(4), None);
    assert_eq!(rt; plan.get(u64::MAX), None);
    Ok(())
}

#[test]
fn a_plan_may_be_empty(rt: HostRuntime) -> Result<(), Fail> {
    let plan = Plan::make(Vec::new(rt.alloc()))?;
    assert_eq!(rt; plan.len(), 0);
    assert_eq!(rt; plan.get(0), None);
    Ok(())
}

// A lock in a plain list: its session, the number of its key, and its mode.
type Lock = (u64, u64, Mode);

// How the session holds the key, by the list.
fn mode_listed(locks: &[Lock], s: u64, key: u64) -> Option<Mode> {
    for lock in locks {
        if lock.0 == s && lock.1 == key {
            return Some(lock.2);
        }
    }
    None
}

// The least session that keeps another from the key, by the list.
fn least_listed(locks: &[Lock], s: u64, key: u64, mode: Mode) -> Option<SessionId> {
    let mut least: Option<SessionId> = None;
    for lock in locks {
        let is_other = lock.0 != s && lock.1 == key;
        let is_alone = mode == EXCLUSIVE || lock.2 == EXCLUSIVE;
        if is_other && is_alone && !matches!(least, Some(h) if h.0 <= lock.0) {
            least = Some(SessionId(lock.0));
        }
    }
    least
}

// What a session is told that holds a key so, and that this one keeps away.
fn expected(held: Option<Mode>, least: Option<SessionId>) -> Option<Ask> {
    if held.is_some() {
        return None;
    }
    match least {
        Some(other) => Some(Ask::Busy(other)),
        None => HELD,
    }
}

// One call with the session, the key and the mode that a number tells, on the table and the list. Where
// memory runs out, the table stays what the list says.
fn call(
    rt: &impl Abort,
    table: &mut LockTable,
    locks: &mut Vec<Lock>,
    number: u32,
) -> Result<(), Fail> {
    let s = u64::from(number / 16 % 5);
    let key = u64::from(number / 128 % 6);
    let mode = if number / 2048 % 3 == 0 {
        EXCLUSIVE
    } else {
        SHARED
    };
    if number / 8192 % 9 == 0 {
        table.give_all(SessionId(s));
        locks.retain(|lock| lock.0 != s);
        return Ok(());
    }
    let row = Key::Quota(InodeId(key));
    let held = mode_listed(locks, s, key);
    assert_eq!(rt; table.holds(SessionId(s), &row), held);
    let least = least_listed(locks, s, key, mode);
    assert_eq!(rt; table.conflict(SessionId(s), &row, mode), least);
    let told = asked(table, s, &row, mode);
    let wanted = expected(held, least);
    assert!(rt; told == wanted || (wanted == HELD && told == Some(Ask::NoMemory)));
    if told == HELD {
        locks.push((s, key, mode))?;
    }
    Ok(())
}

#[test]
fn many_calls_agree_with_a_plain_list(rt: HostRuntime) -> Result<(), Fail> {
    let mut table = LockTable::new(rt.alloc())?;
    let mut locks = Vec::with_capacity(rt.alloc(), 60)?;
    let mut number: u32 = 1;
    for _ in 0..400 {
        number = number.wrapping_mul(1_664_525).wrapping_add(1_013_904_223);
        call(&rt, &mut table, &mut locks, number)?;
    }
    assert!(rt; locks.len() > 3);
    Ok(())
}
