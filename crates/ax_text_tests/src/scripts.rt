//! Whole scripts: what is read, and the line of what is refused. Refusals that runs of the program show stand there.
use ax_script::{ScriptErr, read_script, script_error_text};
use std::alloc::Global;
use std::test::Fail;

/// What is told of a script: `ok`, or the line of its refusal.
fn told(alloc: Global, json: &[u8]) -> Result<Vec<u8>, Fail> {
    let mut line = Vec::new(alloc);
    match read_script(alloc, json) {
        Ok(_script) => line.extend_from_slice("ok\n".as_bytes())?,
        Err(error) => script_error_text(&error, &mut line)?,
    }
    Ok(line)
}

/// Whether a script is told by this line.
fn is_told(alloc: Global, json: &str, wanted: &str) -> Result<bool, Fail> {
    let line = if wanted == "ok" {
        String::from_str(alloc, "ok\n")?
    } else {
        format!(in alloc; "script {wanted}\n")?
    };
    Ok(told(alloc, json.as_bytes())?.as_slice() == line.as_bytes())
}

/// Whole scripts, and what is told of them.
const WHOLE: [(&str, &str); 12] = [
    (
        "{\"version\":3,\"frames\":[{\"tree\":1,\"ops\":[]}]}",
        "BadNumber $.version",
    ),
    (
        "{\"version\":\"1\",\"frames\":[{\"tree\":1,\"ops\":[]}]}",
        "BadType $.version",
    ),
    (
        "{\"version\":1,\"frames\":[{\"tree\":1,\"ops\":[]}],\"x\":1}",
        "UnknownMember $",
    ),
    (
        "{\"version\":1,\"frames\":[{\"tree\":1,\"ops\":[]}],\"actions\":[]}",
        "UnknownMember $",
    ),
    (
        "{\"version\":2,\"frames\":[{\"tree\":1,\"ops\":[]}],\"actions\":[]}",
        "ok",
    ),
    (
        "{\"version\":1,\"frames\":[{\"tree\":1,\"ops\":[]},{\"tree\":1,\"ops\":[]}]}",
        "BadNumber $.frames[1].tree",
    ),
    (
        "{\"version\":1,\"frames\":[{\"tree\":1,\"tree\":2,\"ops\":[]}],\"order\":\"d2:1\"}",
        "ok",
    ),
    (
        "{\"version\":1,\"frames\":[{\"tree\":1,\"ops\":[]}],\"order\":\"f1  f1\"}",
        "BadOrder 2",
    ),
    (
        "{\"version\":1,\"frames\":[{\"tree\":1,\"ops\":[]}],\"order\":\"f01\"}",
        "BadOrder 1",
    ),
    (
        "{\"version\":1,\"frames\":[{\"tree\":1,\"ops\":[]}],\"order\":\"b d1:1000000 d1:1000001\"}",
        "BadOrder 3",
    ),
    (
        "{\"version\":1,\"frames\":[{\"tree\":1,\"ops\":[]}],\"order\":\"r1\"}",
        "BadOrder 1",
    ),
    (
        "{\"version\":1,\"frames\":[{\"tree\":1,\"ops\":[]}],\"readers\":[[]],\"order\":\"r1 r1 f2\"}",
        "BadOrder 3",
    ),
];

/// Operations of the one frame of a script of version 1.
const OPS: [(&str, &str); 12] = [
    (
        "{\"op\":\"root\",\"node\":0}",
        "BadNumber $.frames[0].ops[0].node",
    ),
    (
        "{\"op\":\"root\",\"node\":18446744073709551616}",
        "BadNumber $.frames[0].ops[0].node",
    ),
    (
        "{\"op\":\"root\",\"node\":-0}",
        "BadNumber $.frames[0].ops[0].node",
    ),
    (
        "{\"op\":\"pass\"},{\"op\":\"touch\",\"node\":1e0}",
        "BadNumber $.frames[0].ops[1].node",
    ),
    (
        "{\"op\":\"pass\",\"node\":1}",
        "UnknownMember $.frames[0].ops[0]",
    ),
    ("{\"x\":1}", "Missing $.frames[0].ops[0].op"),
    (
        "{\"op\":\"data\",\"sel\":[1,0,1]}",
        "BadCount $.frames[0].ops[0].sel",
    ),
    (
        "{\"op\":\"data\",\"sel\":[0,1,1,0]}",
        "BadNumber $.frames[0].ops[0].sel[1]",
    ),
    (
        "{\"op\":\"root\",\"node\":1,\"rect\":[0,0,-1,\"x\"]}",
        "BadNumber $.frames[0].ops[0].rect[2]",
    ),
    (
        "{\"op\":\"root\",\"node\":1,\"states\":[\"ignored\",\"offscreen\"]}",
        "BadName $.frames[0].ops[0].states[1]",
    ),
    (
        "{\"op\":\"root\",\"node\":1,\"attrs\":{\"name\":null}}",
        "BadType $.frames[0].ops[0].attrs.name",
    ),
    (
        "{\"op\":\"set\",\"node\":1,\"attrs\":{\"name\":null}}",
        "ok",
    ),
];

/// Members after the one empty frame of tree 1, by version.
const MORE: [(&str, &str, &str); 12] = [
    (
        "1",
        "\"browser\":[{\"op\":\"ask\",\"tree\":2}]",
        "BadNumber $.browser[0].tree",
    ),
    (
        "1",
        "\"browser\":[{\"op\":\"probe\",\"tree\":1}]",
        "Missing $.browser[0].update",
    ),
    (
        "1",
        "\"browser\":[{\"op\":\"probe\",\"tree\":1,\"update\":{\"nodes\":[{\"node\":1},{\"node\":2,\"attrs\":{\"level\":1.5}}]}}]",
        "BadNumber $.browser[0].update.nodes[1].attrs.level",
    ),
    (
        "1",
        "\"browser\":[{\"op\":\"probe\",\"tree\":1,\"update\":{\"nodes\":[{\"node\":1},{\"node\":2,\"attrs\":{\"level\":\"x\"}}]}}]",
        "BadType $.browser[0].update.nodes[1].attrs.level",
    ),
    (
        "1",
        "\"readers\":[[],[{\"q\":\"u_next\",\"tree\":1,\"node\":1}]]",
        "BadName $.readers[1][0].q",
    ),
    (
        "2",
        "\"readers\":[[],[{\"q\":\"u_next\",\"tree\":1,\"node\":1}]]",
        "ok",
    ),
    (
        "1",
        "\"readers\":[[{\"q\":\"leaf\",\"at\":{\"tree\":1,\"node\":1,\"child\":0,\"offset\":0}}]]",
        "UnknownMember $.readers[0][0].at",
    ),
    (
        "1",
        "\"readers\":[[{\"q\":\"move\",\"at\":null,\"unit\":\"word\",\"way\":\"up\"}]]",
        "BadName $.readers[0][0].way",
    ),
    (
        "1",
        "\"readers\":[[],[],[],[],[],[],[],[],[],[],[],[],[],[],[],[],[]]",
        "BadCount $.readers",
    ),
    (
        "2",
        "\"actions\":[{\"do\":\"set_value\",\"tree\":1,\"node\":1}]",
        "Missing $.actions[0].value",
    ),
    (
        "2",
        "\"actions\":[{\"do\":\"scroll\",\"tree\":2,\"node\":1}]",
        "BadNumber $.actions[0].tree",
    ),
    (
        "2",
        "\"actions\":[{\"do\":\"fly\"}]",
        "BadName $.actions[0].do",
    ),
];

/// A script that has each kind of member.
const EXAMPLE: &str =
    "{\"version\":2,\"frames\":[{\"tree\":1,\"ops\":[{\"op\":\"root\",\"node\":1,\"role\":\"root_web_area\",\"rect\":[0,0,800,600]},{\"op\":\"insert\",\"parent\":1,\"index\":0,\"node\":2,\"role\":\"button\",\"states\":[\"focusable\"],\"attrs\":{\"name\":\"More\"},\"rect\":[10,40,80,20]},{\"op\":\"insert\",\"parent\":1,\"index\":1,\"node\":3,\"role\":\"iframe\",\"attrs\":{\"child_tree\":2},\"rect\":[0,100,400,300]},{\"op\":\"data\",\"title\":\"News\",\"url\":\"https://news.example/\",\"loaded\":true,\"focus\":2,\"sel\":[2,0,2,4]},{\"op\":\"pass\"},{\"op\":\"set\",\"node\":2,\"attrs\":{\"name\":null},\"states\":[]},{\"op\":\"move\",\"node\":3,\"parent\":1,\"index\":0},{\"op\":\"touch\",\"node\":1},{\"op\":\"pass\"}]},{\"tree\":2,\"ops\":[{\"op\":\"data\",\"parent\":1},{\"op\":\"root\",\"node\":1,\"role\":\"static_text\",\"attrs\":{\"name\":\"Rain\"}},{\"op\":\"pass\"}]}],\"browser\":[{\"op\":\"probe\",\"tree\":1,\"after\":2,\"update\":{\"clear\":2,\"nodes\":[{\"node\":2,\"role\":\"link\",\"children\":[4]},{\"node\":4}],\"data\":{\"title\":\"News\"}}},{\"op\":\"ask\",\"tree\":2,\"after\":3},{\"op\":\"destroy\",\"tree\":2}],\"readers\":[[{\"q\":\"hit\",\"x\":15,\"y\":45,\"after\":1},{\"q\":\"u_next\",\"tree\":1,\"node\":1}],[{\"q\":\"move\",\"at\":{\"tree\":2,\"node\":1,\"offset\":2,\"affinity\":\"up\"},\"unit\":\"word\",\"way\":\"prev\",\"after\":2}]],\"order\":\"f1 f1 f1 f1 f1 a1 r1 f2 f2 f2 a2 r2 b\",\"actions\":[{\"do\":\"set_value\",\"tree\":1,\"node\":2,\"value\":\"Less\"}]}";

#[test]
fn example(rt: HostRuntime) -> Result<(), Fail> {
    assert!(rt; is_told(rt.alloc(), EXAMPLE, "ok")?);
    Ok(())
}

#[test]
fn whole_scripts(rt: HostRuntime) -> Result<(), Fail> {
    for (json, wanted) in WHOLE {
        assert!(rt; is_told(rt.alloc(), json, wanted)?);
    }
    Ok(())
}

#[test]
fn operations(rt: HostRuntime) -> Result<(), Fail> {
    for (ops, wanted) in OPS {
        let json = format!(in rt.alloc();
            "{{\"version\":1,\"frames\":[{{\"tree\":1,\"ops\":[{ops}]}}]}}"
        )?;
        assert!(rt; is_told(rt.alloc(), json.as_str(), wanted)?);
    }
    Ok(())
}

#[test]
fn other_members(rt: HostRuntime) -> Result<(), Fail> {
    for (version, member, wanted) in MORE {
        let json = format!(in rt.alloc();
            "{{\"version\":{version},\"frames\":[{{\"tree\":1,\"ops\":[]}}],{member}}}"
        )?;
        assert!(rt; is_told(rt.alloc(), json.as_str(), wanted)?);
    }
    Ok(())
}

#[test]
fn numbers_in_lines(rt: HostRuntime) -> Result<(), Fail> {
    let mut lines = Vec::new(rt.alloc());
    script_error_text(&ScriptErr::TooBig(67_108_865), &mut lines)?;
    script_error_text(&ScriptErr::TooManyOps(1_000_001), &mut lines)?;
    let wanted = "script TooBig 67108865\nscript TooManyOps 1000001\n";
    assert_eq!(rt; lines.as_slice(), wanted.as_bytes());
    Ok(())
}
