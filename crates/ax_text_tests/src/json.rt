//! Values of JSON: what is a whole number, items and members.
use ax_json::{
    Fault, Form, ListOf, Node, Signed, WalkErr, Whole, Words, fields2, optional, required, tag,
};
use serde_json::Value;
use std::alloc::Global;
use std::test::Fail;

/// The refusal of a text of JSON by a form, or `ok`.
fn outcome<F: Form>(alloc: Global, form: &F, json: &str) -> Result<String, Fail> {
    let v = Value::from_str(alloc, json)?;
    match form.read(alloc, v) {
        Ok(_) => Ok(String::from_str(alloc, "ok")?),
        Err(WalkErr::NoMemory) => Ok(String::from_str(alloc, "no memory")?),
        Err(WalkErr::Refused(fault, path)) => Ok(format!(in alloc; "{fault:?} {path}")?),
    }
}

#[test]
fn whole_numbers(rt: HostRuntime) -> Result<(), Fail> {
    let form = Whole { low: 1, high: 9 };
    for (json, wanted) in [
        ("9", "ok"),
        ("10", "BadNumber "),
        ("0", "BadNumber "),
        ("1.0", "BadNumber "),
        ("1e0", "BadNumber "),
        ("-0", "BadNumber "),
        ("18446744073709551616", "BadNumber "),
        ("\"1\"", "BadType "),
        ("null", "BadType "),
    ] {
        assert_eq!(rt; outcome(rt.alloc(), &form, json)?.as_str(), wanted);
    }
    Ok(())
}

#[test]
fn signed_numbers(rt: HostRuntime) -> Result<(), Fail> {
    for (json, wanted) in [
        ("-2147483648", "ok"),
        ("2147483647", "ok"),
        ("2147483648", "BadNumber "),
        ("-2147483649", "BadNumber "),
    ] {
        assert_eq!(rt; outcome(rt.alloc(), &Signed, json)?.as_str(), wanted);
    }
    Ok(())
}

#[test]
fn items(rt: HostRuntime) -> Result<(), Fail> {
    let form = ListOf {
        form: ListOf { form: Node },
    };
    for (json, wanted) in [
        ("[[1],[2,3]]", "ok"),
        ("[[1],[2,0]]", "BadNumber [1][1]"),
        ("[[1],2]", "BadType [1]"),
        ("{}", "BadType "),
    ] {
        assert_eq!(rt; outcome(rt.alloc(), &form, json)?.as_str(), wanted);
    }
    Ok(())
}

#[test]
fn members(rt: HostRuntime) -> Result<(), Fail> {
    let alloc = rt.alloc();
    let v = Value::from_str(alloc, "{\"b\":\"x\",\"a\":7,\"b\":\"y\"}")?;
    assert_eq!(rt; tag(alloc, &v, "b")?, "y");
    let (a, b) = fields2(alloc, v, "a", "b")?;
    assert_eq!(rt; required(alloc, &Node, "a", a)?.get(), 7);
    let Some(b) = optional(alloc, &Words, "b", b)? else {
        return Err(Fail::from("absent"));
    };
    assert_eq!(rt; b.as_str(), "y");
    let v = Value::from_str(alloc, "{\"b\":\"x\",\"c\":7}")?;
    let fault = match fields2(alloc, v, "a", "b") {
        Ok(_) => None,
        Err(WalkErr::Refused(fault, _)) => Some(fault),
        Err(WalkErr::NoMemory) => None,
    };
    assert_eq!(rt; fault, Some(Fault::UnknownMember));
    Ok(())
}
