//! Where trees hang. In the first stories trees 2 and 3 have roots, and tree 1 as their parent; reader 1 asks after each receipt of tree 1
//! what stands above their roots, which is where they hang, or that they stand nowhere.

use crate::story::{Story, is_told};

const STORIES: [Story; 7] = [
    // 2 and 3 name the same tree. The host goes, the other one gets a child and loses it.
    (
        "a host goes and gets a child",
        r#"{"version":1,"frames":[
 {"tree":1,"ops":[
  {"op":"root","node":1},{"op":"insert","parent":1,"index":0,"node":2,"attrs":{"child_tree":2}},
  {"op":"insert","parent":1,"index":1,"node":3,"attrs":{"child_tree":2}},{"op":"pass"},
  {"op":"remove","node":2},{"op":"pass"},
  {"op":"insert","parent":3,"index":0,"node":4},{"op":"pass"},
  {"op":"remove","node":4},{"op":"pass"}]},
 {"tree":2,"ops":[
  {"op":"data","parent":1},{"op":"root","node":1},{"op":"pass"}]},
 {"tree":3,"ops":[
  {"op":"data","parent":1},{"op":"root","node":1},{"op":"pass"}]}],
"readers":[
 [{"q":"parent","tree":2,"node":1},{"q":"parent","tree":3,"node":1},{"q":"parent","tree":2,"node":1},
  {"q":"parent","tree":3,"node":1},{"q":"parent","tree":2,"node":1},{"q":"parent","tree":3,"node":1},
  {"q":"parent","tree":2,"node":1},{"q":"parent","tree":3,"node":1}]],
"order":"f2 f2 f2 a2 f3 f3 f3 a3 f1 f1 f1 f1 a1 r1 r1 f1 f1 a1 r1 r1 f1 f1 a1 r1 r1 f1 f1 a1 r1 r1"}"#,
        r#"f2 data ok
f2 root 1 ok
f2 pass 1 base 0 token 0
  u clear 0 root 1 list 1 data
a2 applied 1
  e 2:1 subtree_created
f3 data ok
f3 root 1 ok
f3 pass 1 base 0 token 0
  u clear 0 root 1 list 1 data
a3 applied 1
  e 3:1 subtree_created
f1 root 1 ok
f1 insert 2 ok
f1 insert 3 ok
f1 pass 1 base 0 token 0
  u clear 0 root 1 list 1 2 3 data
a1 applied 1
  e 1:1 subtree_created
r1 parent = 1:2
r1 parent = NoNode
f1 remove 2 ok
f1 pass 2 base 1 token 0
  u clear 0 root 0 list 1
a1 applied 2
  e 1:1 children_changed
r1 parent = 1:3
r1 parent = NoNode
f1 insert 4 ok
f1 pass 3 base 2 token 0
  u clear 0 root 0 list 3 4
a1 applied 3
  e 1:3 children_changed
  e 1:4 subtree_created
r1 parent = NoNode
r1 parent = NoNode
f1 remove 4 ok
f1 pass 4 base 3 token 0
  u clear 0 root 0 list 3
a1 applied 4
  e 1:3 children_changed
r1 parent = 1:3
r1 parent = NoNode
finale
dump
tree 1 parent 0 focused 0 loaded no focus 0 sel 0 0 0 0 title "" url ""
1 generic
  3 generic child_tree=2
tree 2 parent 1 focused 0 loaded no focus 0 sel 0 0 0 0 title "" url ""
1 generic
tree 3 parent 1 focused 0 loaded no focus 0 sel 0 0 0 0 title "" url ""
1 generic
"#,
    ),
    // No node that names the tree is touched, but the first one is another: its place changed, and then that of a node above.
    (
        "the first host is another after a move",
        r#"{"version":1,"frames":[
 {"tree":1,"ops":[
  {"op":"root","node":1},{"op":"insert","parent":1,"index":0,"node":2,"attrs":{"child_tree":2}},
  {"op":"insert","parent":1,"index":1,"node":3},
  {"op":"insert","parent":3,"index":0,"node":4,"attrs":{"child_tree":2}},{"op":"pass"},
  {"op":"move","node":3,"parent":1,"index":0},{"op":"pass"},
  {"op":"move","node":2,"parent":1,"index":0},{"op":"pass"}]},
 {"tree":2,"ops":[
  {"op":"data","parent":1},{"op":"root","node":1},{"op":"pass"}]},
 {"tree":3,"ops":[
  {"op":"data","parent":1},{"op":"root","node":1},{"op":"pass"}]}],
"readers":[
 [{"q":"parent","tree":2,"node":1},{"q":"parent","tree":3,"node":1},{"q":"parent","tree":2,"node":1},
  {"q":"parent","tree":3,"node":1},{"q":"parent","tree":2,"node":1},{"q":"parent","tree":3,"node":1}]],
"order":"f2 f2 f2 a2 f3 f3 f3 a3 f1 f1 f1 f1 f1 a1 r1 r1 f1 f1 a1 r1 r1 f1 f1 a1 r1 r1"}"#,
        r#"f2 data ok
f2 root 1 ok
f2 pass 1 base 0 token 0
  u clear 0 root 1 list 1 data
a2 applied 1
  e 2:1 subtree_created
f3 data ok
f3 root 1 ok
f3 pass 1 base 0 token 0
  u clear 0 root 1 list 1 data
a3 applied 1
  e 3:1 subtree_created
f1 root 1 ok
f1 insert 2 ok
f1 insert 3 ok
f1 insert 4 ok
f1 pass 1 base 0 token 0
  u clear 0 root 1 list 1 2 3 4 data
a1 applied 1
  e 1:1 subtree_created
r1 parent = 1:2
r1 parent = NoNode
f1 move 3 ok
f1 pass 2 base 1 token 0
  u clear 0 root 0 list 1
a1 applied 2
  e 1:1 children_changed
r1 parent = 1:4
r1 parent = NoNode
f1 move 2 ok
f1 pass 3 base 2 token 0
  u clear 0 root 0 list 1
a1 applied 3
  e 1:1 children_changed
r1 parent = 1:2
r1 parent = NoNode
finale
dump
tree 1 parent 0 focused 0 loaded no focus 0 sel 0 0 0 0 title "" url ""
1 generic
  2 generic child_tree=2
  3 generic
    4 generic child_tree=2
tree 2 parent 1 focused 0 loaded no focus 0 sel 0 0 0 0 title "" url ""
1 generic
tree 3 parent 1 focused 0 loaded no focus 0 sel 0 0 0 0 title "" url ""
1 generic
"#,
    ),
    // 4 comes before the host and names the same tree; then it names none.
    (
        "another host comes first",
        r#"{"version":1,"frames":[
 {"tree":1,"ops":[
  {"op":"root","node":1},{"op":"insert","parent":1,"index":0,"node":2,"attrs":{"child_tree":2}},{"op":"pass"},
  {"op":"insert","parent":1,"index":0,"node":4,"attrs":{"child_tree":2}},{"op":"pass"},
  {"op":"set","node":4,"attrs":{"child_tree":null}},{"op":"pass"}]},
 {"tree":2,"ops":[
  {"op":"data","parent":1},{"op":"root","node":1},{"op":"pass"}]},
 {"tree":3,"ops":[
  {"op":"data","parent":1},{"op":"root","node":1},{"op":"pass"}]}],
"readers":[
 [{"q":"parent","tree":2,"node":1},{"q":"parent","tree":3,"node":1},{"q":"parent","tree":2,"node":1},
  {"q":"parent","tree":3,"node":1},{"q":"parent","tree":2,"node":1},{"q":"parent","tree":3,"node":1}]],
"order":"f2 f2 f2 a2 f3 f3 f3 a3 f1 f1 f1 a1 r1 r1 f1 f1 a1 r1 r1 f1 f1 a1 r1 r1"}"#,
        r#"f2 data ok
f2 root 1 ok
f2 pass 1 base 0 token 0
  u clear 0 root 1 list 1 data
a2 applied 1
  e 2:1 subtree_created
f3 data ok
f3 root 1 ok
f3 pass 1 base 0 token 0
  u clear 0 root 1 list 1 data
a3 applied 1
  e 3:1 subtree_created
f1 root 1 ok
f1 insert 2 ok
f1 pass 1 base 0 token 0
  u clear 0 root 1 list 1 2 data
a1 applied 1
  e 1:1 subtree_created
r1 parent = 1:2
r1 parent = NoNode
f1 insert 4 ok
f1 pass 2 base 1 token 0
  u clear 0 root 0 list 1 4
a1 applied 2
  e 1:1 children_changed
  e 1:4 subtree_created
r1 parent = 1:4
r1 parent = NoNode
f1 set 4 ok
f1 pass 3 base 2 token 0
  u clear 0 root 0 list 4
a1 applied 3
  e 1:4 child_tree_changed
r1 parent = 1:2
r1 parent = NoNode
finale
dump
tree 1 parent 0 focused 0 loaded no focus 0 sel 0 0 0 0 title "" url ""
1 generic
  4 generic
  2 generic child_tree=2
tree 2 parent 1 focused 0 loaded no focus 0 sel 0 0 0 0 title "" url ""
1 generic
tree 3 parent 1 focused 0 loaded no focus 0 sel 0 0 0 0 title "" url ""
1 generic
"#,
    ),
    // A host names another tree, which hangs there from then on, and a new node names the first one.
    (
        "a host names another tree",
        r#"{"version":1,"frames":[
 {"tree":1,"ops":[
  {"op":"root","node":1},{"op":"insert","parent":1,"index":0,"node":2,"attrs":{"child_tree":2}},{"op":"pass"},
  {"op":"set","node":2,"attrs":{"child_tree":3}},{"op":"pass"},
  {"op":"insert","parent":1,"index":1,"node":5,"attrs":{"child_tree":2}},{"op":"pass"}]},
 {"tree":2,"ops":[
  {"op":"data","parent":1},{"op":"root","node":1},{"op":"pass"}]},
 {"tree":3,"ops":[
  {"op":"data","parent":1},{"op":"root","node":1},{"op":"pass"}]}],
"readers":[
 [{"q":"parent","tree":2,"node":1},{"q":"parent","tree":3,"node":1},{"q":"parent","tree":2,"node":1},
  {"q":"parent","tree":3,"node":1},{"q":"parent","tree":2,"node":1},{"q":"parent","tree":3,"node":1}]],
"order":"f2 f2 f2 a2 f3 f3 f3 a3 f1 f1 f1 a1 r1 r1 f1 f1 a1 r1 r1 f1 f1 a1 r1 r1"}"#,
        r#"f2 data ok
f2 root 1 ok
f2 pass 1 base 0 token 0
  u clear 0 root 1 list 1 data
a2 applied 1
  e 2:1 subtree_created
f3 data ok
f3 root 1 ok
f3 pass 1 base 0 token 0
  u clear 0 root 1 list 1 data
a3 applied 1
  e 3:1 subtree_created
f1 root 1 ok
f1 insert 2 ok
f1 pass 1 base 0 token 0
  u clear 0 root 1 list 1 2 data
a1 applied 1
  e 1:1 subtree_created
r1 parent = 1:2
r1 parent = NoNode
f1 set 2 ok
f1 pass 2 base 1 token 0
  u clear 0 root 0 list 2
a1 applied 2
  e 1:2 child_tree_changed
r1 parent = NoNode
r1 parent = 1:2
f1 insert 5 ok
f1 pass 3 base 2 token 0
  u clear 0 root 0 list 1 5
a1 applied 3
  e 1:1 children_changed
  e 1:5 subtree_created
r1 parent = 1:5
r1 parent = 1:2
finale
dump
tree 1 parent 0 focused 0 loaded no focus 0 sel 0 0 0 0 title "" url ""
1 generic
  2 generic child_tree=3
  5 generic child_tree=2
tree 2 parent 1 focused 0 loaded no focus 0 sel 0 0 0 0 title "" url ""
1 generic
tree 3 parent 1 focused 0 loaded no focus 0 sel 0 0 0 0 title "" url ""
1 generic
"#,
    ),
    // 2 and 3 name tree 2, which hangs at the first of them; once tree 1 has ended it stands nowhere.
    (
        "the first of two nodes is the host",
        r#"{"version":1,"frames":[
 {"tree":1,"ops":[
  {"op":"root","node":1},{"op":"insert","parent":1,"index":0,"node":2,"attrs":{"child_tree":2}},
  {"op":"insert","parent":1,"index":1,"node":3,"attrs":{"child_tree":2}},{"op":"pass"}]},
 {"tree":2,"ops":[
  {"op":"data","parent":1},{"op":"root","node":1},{"op":"pass"}]}],
"browser":[
 {"op":"destroy","tree":1}],
"readers":[
 [{"q":"children","tree":1,"node":2},{"q":"children","tree":1,"node":3},{"q":"parent","tree":2,"node":1},
  {"q":"parent","tree":2,"node":1},{"q":"parent","tree":1,"node":2}]],
"order":"f1 f1 f1 f1 a1 f2 f2 f2 a2 r1 r1 r1 b r1 r1"}"#,
        r#"f1 root 1 ok
f1 insert 2 ok
f1 insert 3 ok
f1 pass 1 base 0 token 0
  u clear 0 root 1 list 1 2 3 data
a1 applied 1
  e 1:1 subtree_created
f2 data ok
f2 root 1 ok
f2 pass 1 base 0 token 0
  u clear 0 root 1 list 1 data
a2 applied 1
  e 2:1 subtree_created
r1 children = 2:1
r1 children = -
r1 parent = 1:2
b destroy 1 ok
r1 parent = NoNode
r1 parent = NoTree
finale
dump
tree 1 gone
tree 2 parent 1 focused 0 loaded no focus 0 sel 0 0 0 0 title "" url ""
1 generic
"#,
    ),
    // Tree 2 hangs at a node of its own, and trees 3 and 4 at one another's, so they stand nowhere. The first tree names itself and hangs nowhere.
    (
        "a tree that names itself and a cycle",
        r#"{"version":1,"frames":[
 {"tree":1,"ops":[
  {"op":"root","node":1,"attrs":{"child_tree":1}},{"op":"data","parent":1},{"op":"pass"}]},
 {"tree":2,"ops":[
  {"op":"root","node":1,"attrs":{"child_tree":2}},{"op":"data","parent":2},{"op":"pass"}]},
 {"tree":3,"ops":[
  {"op":"root","node":1,"attrs":{"child_tree":4}},{"op":"data","parent":4},{"op":"pass"}]},
 {"tree":4,"ops":[
  {"op":"root","node":1,"attrs":{"child_tree":3}},{"op":"data","parent":3},{"op":"pass"}]}],
"readers":[
 [{"q":"parent","tree":1,"node":1},{"q":"parent","tree":2,"node":1},{"q":"parent","tree":3,"node":1},
  {"q":"parent","tree":4,"node":1}],
 [{"q":"children","tree":1,"node":1},{"q":"children","tree":2,"node":1}],
 [{"q":"next","tree":1,"node":1},{"q":"next","tree":4,"node":1}]]}"#,
        r#"finale
f1 root 1 ok
f1 data ok
f1 pass 1 base 0 token 0
  u clear 0 root 1 list 1 data
f2 root 1 ok
f2 data ok
f2 pass 1 base 0 token 0
  u clear 0 root 1 list 1 data
f3 root 1 ok
f3 data ok
f3 pass 1 base 0 token 0
  u clear 0 root 1 list 1 data
f4 root 1 ok
f4 data ok
f4 pass 1 base 0 token 0
  u clear 0 root 1 list 1 data
a1 applied 1
  e 1:1 subtree_created
a2 applied 1
  e 2:1 subtree_created
a3 applied 1
  e 3:1 subtree_created
a4 applied 1
  e 4:1 subtree_created
r1 parent = NoParent
r1 parent = NoNode
r1 parent = NoNode
r1 parent = NoNode
r2 children = -
r2 children = NoNode
r3 next = AtEnd
r3 next = NoNode
dump
tree 1 parent 1 focused 0 loaded no focus 0 sel 0 0 0 0 title "" url ""
1 generic child_tree=1
tree 2 parent 2 focused 0 loaded no focus 0 sel 0 0 0 0 title "" url ""
1 generic child_tree=2
tree 3 parent 4 focused 0 loaded no focus 0 sel 0 0 0 0 title "" url ""
1 generic child_tree=4
tree 4 parent 3 focused 0 loaded no focus 0 sel 0 0 0 0 title "" url ""
1 generic child_tree=3
"#,
    ),
    // Tree 2 has no root yet, then it has one, and then no parent.
    (
        "a tree hangs where it has a root and a parent",
        r#"{"version":1,"frames":[
 {"tree":1,"ops":[
  {"op":"root","node":1,"attrs":{"child_tree":2}},{"op":"pass"}]},
 {"tree":2,"ops":[
  {"op":"data","parent":1},{"op":"pass"},
  {"op":"root","node":1},{"op":"pass"},
  {"op":"data","parent":0},{"op":"pass"}]}],
"readers":[
 [{"q":"children","tree":1,"node":1},{"q":"children","tree":1,"node":1},{"q":"children","tree":1,"node":1}]],
"order":"f1 f1 a1 f2 f2 r1 f2 f2 a2 r1 f2 f2 a2 r1"}"#,
        r#"f1 root 1 ok
f1 pass 1 base 0 token 0
  u clear 0 root 1 list 1 data
a1 applied 1
  e 1:1 subtree_created
f2 data ok
f2 pass nothing
r1 children = -
f2 root 1 ok
f2 pass 1 base 0 token 0
  u clear 0 root 1 list 1 data
a2 applied 1
  e 2:1 subtree_created
r1 children = 2:1
f2 data ok
f2 pass 2 base 1 token 0
  u clear 0 root 0 list - data
a2 applied 2
r1 children = -
finale
dump
tree 1 parent 0 focused 0 loaded no focus 0 sel 0 0 0 0 title "" url ""
1 generic child_tree=2
tree 2 parent 0 focused 0 loaded no focus 0 sel 0 0 0 0 title "" url ""
1 generic
"#,
    ),
];

#[test]
fn trees_hang_at_their_hosts(rt: HostRuntime) {
    for (name, script, text) in STORIES {
        assert!(rt; is_told(rt.alloc(), script, text), "{name}");
    }
}
