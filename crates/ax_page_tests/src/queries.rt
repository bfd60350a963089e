//! Replies to queries of each kind over a page, a clipped page, one with containers, and one with ignored nodes. Those on positions stand in
//! `positions.rt`, and whole walks in `walks.rt`.

use crate::story::{Story, is_told};

const STORIES: [Story; 4] = [
    // A page and the tree in its host, asked from each place for what it is and what stands around it. The focus goes into the host.
    (
        "two trees are one",
        r#"{"version":1,"frames":[
 {"tree":1,"ops":[
  {"op":"root","node":1},{"op":"insert","parent":1,"index":0,"node":2,"attrs":{"name":"abe\u0301"}},
  {"op":"insert","parent":1,"index":1,"node":3,"attrs":{"child_tree":2}},{"op":"data","focus":3},{"op":"pass"}]},
 {"tree":2,"ops":[
  {"op":"data","parent":1,"focus":1},{"op":"root","node":1,"attrs":{"name":"c"}},{"op":"pass"}]}],
"readers":[
 [{"q":"node","tree":1,"node":1},{"q":"node","tree":1,"node":3},{"q":"node","tree":1,"node":9},
  {"q":"node","tree":9,"node":1},{"q":"children","tree":1,"node":3},{"q":"children","tree":2,"node":1},
  {"q":"parent","tree":2,"node":1},{"q":"parent","tree":1,"node":1},{"q":"next","tree":1,"node":3},
  {"q":"next","tree":2,"node":1},{"q":"prev","tree":2,"node":1},{"q":"prev","tree":1,"node":1},{"q":"focus"}]]}"#,
        "finale
f1 root 1 ok
f1 insert 2 ok
f1 insert 3 ok
f1 data ok
f1 pass 1 base 0 token 0
  u clear 0 root 1 list 1 2 3 data
f2 data ok
f2 root 1 ok
f2 pass 1 base 0 token 0
  u clear 0 root 1 list 1 data
a1 applied 1
  e 1:3 focus_changed
  e 1:1 subtree_created
a2 applied 1
  e 2:1 focus_changed
  e 2:1 subtree_created
r1 node = generic 2
r1 node = generic 1
r1 node = NoNode
r1 node = NoTree
r1 children = 2:1
r1 children = -
r1 parent = 1:3
r1 parent = NoParent
r1 next = 2:1
r1 next = AtEnd
r1 prev = 1:3
r1 prev = AtStart
r1 focus = 2:1
dump
tree 1 parent 0 focused 0 loaded no focus 3 sel 0 0 0 0 title \"\" url \"\"
1 generic
  2 generic name=\"abe\u{301}\"
  3 generic child_tree=2
tree 2 parent 1 focused 0 loaded no focus 1 sel 0 0 0 0 title \"\" url \"\"
1 generic name=\"c\"
",
    ),
    // A root that clips, and a node that lies partly outside it: its right edge belongs to it no more. Nothing has the focus.
    (
        "hits",
        r#"{"version":1,"frames":[
 {"tree":1,"ops":[
  {"op":"root","node":1,"attrs":{"clips":true},"rect":[0,0,100,100]},
  {"op":"insert","parent":1,"index":0,"node":2,"rect":[50,50,100,100]},{"op":"pass"}]}],
"readers":[
 [{"q":"hit","x":60,"y":60},{"q":"hit","x":10,"y":10},{"q":"hit","x":120,"y":120},{"q":"hit","x":100,"y":60},
  {"q":"hit","x":99,"y":60},{"q":"focus"}]]}"#,
        r#"finale
f1 root 1 ok
f1 insert 2 ok
f1 pass 1 base 0 token 0
  u clear 0 root 1 list 1 2 data
a1 applied 1
  e 1:1 subtree_created
r1 hit = 1:2
r1 hit = 1:1
r1 hit = NoHit
r1 hit = NoHit
r1 hit = 1:2
r1 focus = NoFocus
dump
tree 1 parent 0 focused 0 loaded no focus 0 sel 0 0 0 0 title "" url ""
1 generic [0,0,100,100] clips=yes
  2 generic [50,50,100,100]
"#,
    ),
    // A node in a scrolled container, which is measured from another one.
    (
        "bounds in containers",
        r#"{"version":2,"frames":[
 {"tree":1,"ops":[
  {"op":"root","node":1,"attrs":{"clips":true},"rect":[0,0,100,100]},
  {"op":"insert","parent":1,"index":0,"node":2,"attrs":{"container":1,"scroll_y":50},"rect":[10,10,80,200]},
  {"op":"insert","parent":2,"index":0,"node":3,"attrs":{"container":2},"rect":[5,60,20,10]},{"op":"pass"}]}],
"readers":[
 [{"q":"bounds","tree":1,"node":3},{"q":"bounds","tree":1,"node":2},{"q":"bounds","tree":1,"node":9},
  {"q":"bounds","tree":2,"node":1},{"q":"hit","x":16,"y":21}]]}"#,
        r#"finale
f1 root 1 ok
f1 insert 2 ok
f1 insert 3 ok
f1 pass 1 base 0 token 0
  u clear 0 root 1 list 1 2 3 data
a1 applied 1
  e 1:1 subtree_created
r1 bounds = [15,20,20,10]
r1 bounds = [10,10,80,200]
r1 bounds = NoNode
r1 bounds = NoTree
r1 hit = 1:3
dump
tree 1 parent 0 focused 0 loaded no focus 0 sel 0 0 0 0 title "" url ""
1 generic [0,0,100,100] clips=yes
  2 generic [10,10,80,200] container=1 scroll_y=50
    3 generic [5,60,20,10] container=2
"#,
    ),
    // Two ignored nodes, one under the other, between shown ones.
    (
        "the shown list",
        r#"{"version":2,"frames":[
 {"tree":1,"ops":[
  {"op":"root","node":1},{"op":"insert","parent":1,"index":0,"node":2,"states":["ignored"]},
  {"op":"insert","parent":1,"index":1,"node":5,"attrs":{"name":"c"}},
  {"op":"insert","parent":2,"index":0,"node":3,"attrs":{"name":"a"}},
  {"op":"insert","parent":2,"index":1,"node":6,"states":["ignored"]},
  {"op":"insert","parent":6,"index":0,"node":4,"attrs":{"name":"b"}},{"op":"pass"}]}],
"readers":[
 [{"q":"u_children","tree":1,"node":1},{"q":"u_parent","tree":1,"node":4},{"q":"u_next","tree":1,"node":4},
  {"q":"u_prev","tree":1,"node":1},{"q":"u_children","tree":1,"node":2},{"q":"u_text","tree":1,"node":1}]]}"#,
        r#"finale
f1 root 1 ok
f1 insert 2 ok
f1 insert 5 ok
f1 insert 3 ok
f1 insert 6 ok
f1 insert 4 ok
f1 pass 1 base 0 token 0
  u clear 0 root 1 list 1 2 3 6 4 5 data
a1 applied 1
  e 1:1 subtree_created
r1 u_children = 1:3 1:4 1:5
r1 u_parent = 1:1
r1 u_next = 1:5
r1 u_prev = AtStart
r1 u_children = Ignored
r1 u_text = "abc"
dump
tree 1 parent 0 focused 0 loaded no focus 0 sel 0 0 0 0 title "" url ""
1 generic
  2 generic +ignored
    3 generic name="a"
    6 generic +ignored
      4 generic name="b"
  5 generic name="c"
"#,
    ),
];

#[test]
fn queries_are_answered(rt: HostRuntime) {
    for (name, script, text) in STORIES {
        assert!(rt; is_told(rt.alloc(), script, text), "{name}");
    }
}
