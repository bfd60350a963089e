//! Lists. Each step says whether it went as is wanted.
use ax_base::Seq;
use std::alloc::Global;

fn fills(list: &mut Seq<u32>) -> bool {
    list.reserve(4).is_ok()
        && list.push(3).is_ok()
        && list.insert(0, 1).is_ok()
        && list.extend_from_slice(&[5, 7]).is_ok()
        && list.try_push(9).is_ok()
}

fn is_put_back(back: &mut Seq<u32>, list: &Seq<u32>) -> bool {
    back.push_reversed(list).is_ok() && back.as_slice() == [11, 9, 7, 5, 3, 1].as_slice()
}

fn is_cut(list: &mut Seq<u32>) -> bool {
    match list.copy() {
        Ok(copy) => {
            let same = copy == *list;
            list.truncate(2);
            same && copy != *list
        }
        Err(_) => false,
    }
}

fn is_set(list: &mut Seq<u32>) -> bool {
    if list.is_empty() {
        return false;
    }
    list.set(0, 2);
    list.pop() == Some(9) && list.get(0).copied() == Some(2) && list.get(1).is_none()
}

fn changes(list: &mut Seq<u32>, back: &mut Seq<u32>) -> bool {
    fills(list) && is_put_back(back, list) && is_cut(back) && is_set(back)
}

#[test]
fn a_list_changes(rt: HostRuntime) {
    let mut list = Seq::new(rt.alloc());
    let mut back = Seq::new(rt.alloc());
    assert!(rt; back.push(11).is_ok());
    assert!(rt; changes(&mut list, &mut back));
}

fn last(list: &Seq<u32>) -> u32 {
    let mut last = 0;
    for x in list.iter() {
        last = *x;
    }
    last
}

fn is_gone_over(list: &Seq<u32>) -> bool {
    last(list) == 6
        && list.iter().count() == list.len()
        && list.iter().rev().next().copied() == Some(6)
}

fn is_made(alloc: Global) -> bool {
    match Seq::from_slice(alloc, &[4, 5, 6]) {
        Ok(list) => is_gone_over(&list),
        Err(_) => false,
    }
}

#[test]
fn a_list_is_gone_over(rt: HostRuntime) {
    assert!(rt; is_made(rt.alloc()));
}
