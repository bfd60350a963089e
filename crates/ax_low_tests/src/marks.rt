//! Marks, also many of them. Each step says whether it went as is wanted.
use ax_base::NodeId;
use ax_marks::Marks;

/// Whether the mark of this number is added, and is new or isn't, as is wanted.
fn adds(marks: &mut Marks, n: u32, wanted: bool) -> bool {
    match NodeId::new(n) {
        Some(id) => marks.add(id) == Ok(wanted),
        None => false,
    }
}

fn removes(marks: &mut Marks, n: u32, wanted: bool) -> bool {
    match NodeId::new(n) {
        Some(id) => marks.remove(id) == wanted,
        None => false,
    }
}

fn begins_with(marks: &Marks, n: u32) -> bool {
    marks.first() == NodeId::new(n)
}

fn keeps_each_once(marks: &mut Marks) -> bool {
    adds(marks, 3, true)
        && adds(marks, 1, true)
        && adds(marks, 3, false)
        && begins_with(marks, 3)
        && removes(marks, 3, true)
        && removes(marks, 3, false)
        && begins_with(marks, 1)
}

#[test]
fn marks(rt: HostRuntime) {
    let mut marks = Marks::new(rt.alloc());
    assert!(rt; keeps_each_once(&mut marks));
    marks.clear();
    assert!(rt; marks.is_empty());
}

fn adds_many(marks: &mut Marks) -> bool {
    for n in 1..1000 {
        if !adds(marks, n, true) {
            return false;
        }
    }
    true
}

fn removes_all_but_hundreds(marks: &mut Marks) -> bool {
    for n in 1..1000 {
        if n % 100 != 0 && !removes(marks, n, true) {
            return false;
        }
    }
    true
}

fn removes_hundreds(marks: &mut Marks) -> bool {
    for n in 1..9 {
        if !removes(marks, n * 100, true) {
            return false;
        }
    }
    true
}

fn stands_over_holes(marks: &mut Marks) -> bool {
    adds_many(marks)
        && removes_all_but_hundreds(marks)
        && adds(marks, 1, true)
        && marks.len() == 10
        && begins_with(marks, 100)
        && removes_hundreds(marks)
        && begins_with(marks, 900)
        && marks.len() == 2
}

#[test]
fn many_holes(rt: HostRuntime) {
    let mut marks = Marks::new(rt.alloc());
    assert!(rt; stands_over_holes(&mut marks));
}
