//! What passes send and which edits are refused. The updates for plain changes stand in `events.rt`, beside what is told of them.

use crate::story::{Story, is_told};

const STORIES: [Story; 10] = [
    // A pass without a root, one with nothing changed since the one before, and one after nothing but a refused edit.
    (
        "nothing to send",
        r#"{"version":1,"frames":[
 {"tree":1,"ops":[
  {"op":"pass"},
  {"op":"root","node":1},{"op":"pass"},
  {"op":"pass"},
  {"op":"remove","node":1},{"op":"pass"}]}]}"#,
        r#"finale
f1 pass nothing
f1 root 1 ok
f1 pass 1 base 0 token 0
  u clear 0 root 1 list 1 data
f1 pass nothing
f1 remove 1 IsRoot 1
f1 pass nothing
a1 applied 1
  e 1:1 subtree_created
dump
tree 1 parent 0 focused 0 loaded no focus 0 sel 0 0 0 0 title "" url ""
1 generic
"#,
    ),
    // A touched node alone, then all below a node in one update. Neither has changed, and the receiver tells nothing.
    (
        "touched nodes are sent",
        r#"{"version":1,"frames":[
 {"tree":1,"ops":[
  {"op":"root","node":1},{"op":"insert","parent":1,"index":0,"node":2},{"op":"pass"},
  {"op":"touch","node":2},{"op":"pass"},
  {"op":"touch_below","node":1},{"op":"pass"}]}]}"#,
        r#"finale
f1 root 1 ok
f1 insert 2 ok
f1 pass 1 base 0 token 0
  u clear 0 root 1 list 1 2 data
f1 touch 2 ok
f1 pass 2 base 1 token 0
  u clear 0 root 0 list 2
f1 touch_below 1 ok
f1 pass 3 base 2 token 0
  u clear 0 root 0 list 1 2
a1 applied 1
  e 1:1 subtree_created
a1 applied 2
a1 applied 3
dump
tree 1 parent 0 focused 0 loaded no focus 0 sel 0 0 0 0 title "" url ""
1 generic
  2 generic
"#,
    ),
    // 1 and 3 are named. 2 between them isn't marked, so 3 has an update of its own; where 2 is touched too, one update has all three.
    (
        "a mark below keeps its turn",
        r#"{"version":1,"frames":[
 {"tree":1,"ops":[
  {"op":"root","node":1},{"op":"insert","parent":1,"index":0,"node":2},{"op":"insert","parent":2,"index":0,"node":3},
  {"op":"pass"},
  {"op":"set","node":1,"attrs":{"name":"x"}},{"op":"set","node":3,"attrs":{"name":"x"}},{"op":"pass"},
  {"op":"set","node":1,"attrs":{"name":"y"}},{"op":"set","node":3,"attrs":{"name":"y"}},{"op":"touch","node":2},
  {"op":"pass"}]}]}"#,
        r#"finale
f1 root 1 ok
f1 insert 2 ok
f1 insert 3 ok
f1 pass 1 base 0 token 0
  u clear 0 root 1 list 1 2 3 data
f1 set 1 ok
f1 set 3 ok
f1 pass 2 base 1 token 0
  u clear 0 root 0 list 1
  u clear 0 root 0 list 3
f1 set 1 ok
f1 set 3 ok
f1 touch 2 ok
f1 pass 3 base 2 token 0
  u clear 0 root 0 list 1 2 3
a1 applied 1
  e 1:1 subtree_created
a1 applied 2
  e 1:1 name_changed
  e 1:3 name_changed
a1 applied 3
  e 1:1 name_changed
  e 1:3 name_changed
dump
tree 1 parent 0 focused 0 loaded no focus 0 sel 0 0 0 0 title "" url ""
1 generic name="y"
  2 generic
    3 generic name="y"
"#,
    ),
    // A move makes two updates. The tree data that were changed before it come with the second.
    (
        "tree data ride on the last update",
        r#"{"version":1,"frames":[
 {"tree":1,"ops":[
  {"op":"root","node":1},{"op":"insert","parent":1,"index":0,"node":2},{"op":"insert","parent":1,"index":1,"node":3},
  {"op":"insert","parent":2,"index":0,"node":4},{"op":"pass"},
  {"op":"data","title":"News"},{"op":"move","node":4,"parent":3,"index":0},{"op":"pass"}]}]}"#,
        r#"finale
f1 root 1 ok
f1 insert 2 ok
f1 insert 3 ok
f1 insert 4 ok
f1 pass 1 base 0 token 0
  u clear 0 root 1 list 1 2 4 3 data
f1 data ok
f1 move 4 ok
f1 pass 2 base 1 token 0
  u clear 0 root 0 list 2
  u clear 0 root 0 list 3 4 data
a1 applied 1
  e 1:1 subtree_created
a1 applied 2
  e 1 document_title_changed
  e 1:2 children_changed
  e 1:3 children_changed
dump
tree 1 parent 0 focused 0 loaded no focus 0 sel 0 0 0 0 title "News" url ""
1 generic
  2 generic
  3 generic
    4 generic
"#,
    ),
    // Each refusal of an edit or touch by name. Then the frame is asked for its tree, which has the two nodes of the edits that were taken.
    (
        "refused edits change nothing",
        r#"{"version":1,"frames":[
 {"tree":1,"ops":[
  {"op":"remove","node":1},{"op":"root","node":1},{"op":"insert","parent":1,"index":0,"node":2},
  {"op":"insert","parent":9,"index":0,"node":3},{"op":"insert","parent":1,"index":0,"node":2},
  {"op":"insert","parent":1,"index":5,"node":3},{"op":"remove","node":1},{"op":"move","node":1,"parent":2,"index":0},
  {"op":"move","node":2,"parent":2,"index":0},{"op":"touch","node":9},{"op":"touch_below","node":9},{"op":"pass"}]}],
"browser":[
 {"op":"ask","tree":1}],
"order":"f1 f1 f1 f1 f1 f1 f1 f1 f1 f1 f1 b d1:1 f1 a1"}"#,
        r#"f1 remove 1 NoRoot
f1 root 1 ok
f1 insert 2 ok
f1 insert 3 UnknownNode 9
f1 insert 2 IdTaken 2
f1 insert 3 BadIndex 5 1
f1 remove 1 IsRoot 1
f1 move 1 IsRoot 1
f1 move 2 IntoItself 2
f1 touch 9 UnknownNode 9
f1 touch_below 9 UnknownNode 9
b ask 1 token 1
d1:1
f1 pass 1 base 0 token 1
  u clear 0 root 1 list 1 2 data
a1 applied 1
  e 1:1 subtree_created
finale
dump
tree 1 parent 0 focused 0 loaded no focus 0 sel 0 0 0 0 title "" url ""
1 generic
  2 generic
"#,
    ),
    // A packet stands on the pass before, until a token is delivered: then all is sent again. Tree 1 passes after it and is done; tree 2 doesn't,
    // and the finale catches up.
    (
        "a delivery asks for the whole tree",
        r#"{"version":1,"frames":[
 {"tree":1,"ops":[
  {"op":"root","node":1},{"op":"pass"},
  {"op":"set","node":1,"attrs":{"name":"a"}},{"op":"pass"},
  {"op":"pass"},
  {"op":"pass"}]},
 {"tree":2,"ops":[
  {"op":"root","node":1},{"op":"insert","parent":1,"index":0,"node":2},{"op":"pass"}]}],
"browser":[
 {"op":"ask","tree":1},{"op":"ask","tree":2}],
"order":"f1 f1 f1 f1 f1 a1 a1 b d1:1 f1 a1 f2 f2 f2 a2 b d2:1"}"#,
        r#"f1 root 1 ok
f1 pass 1 base 0 token 0
  u clear 0 root 1 list 1 data
f1 set 1 ok
f1 pass 2 base 1 token 0
  u clear 0 root 0 list 1
f1 pass nothing
a1 applied 1
  e 1:1 subtree_created
a1 applied 2
  e 1:1 name_changed
b ask 1 token 1
d1:1
f1 pass 3 base 0 token 1
  u clear 0 root 1 list 1 data
a1 applied 3
f2 root 1 ok
f2 insert 2 ok
f2 pass 1 base 0 token 0
  u clear 0 root 1 list 1 2 data
a2 applied 1
  e 2:1 subtree_created
b ask 2 token 1
d2:1
finale
b ask 2 token 2
d2:2
f2 pass 2 base 0 token 2
  u clear 0 root 1 list 1 2 data
a2 applied 2
dump
tree 1 parent 0 focused 0 loaded no focus 0 sel 0 0 0 0 title "" url ""
1 generic name="a"
tree 2 parent 0 focused 0 loaded no focus 0 sel 0 0 0 0 title "" url ""
1 generic
  2 generic
"#,
    ),
    // 4 has moved to a node that is listed before its old parent, so the update would be refused upon the mirror as it was.
    (
        "a whole tree comes upon nothing",
        r#"{"version":1,"frames":[
 {"tree":1,"ops":[
  {"op":"root","node":1},{"op":"insert","parent":1,"index":0,"node":2},{"op":"insert","parent":1,"index":1,"node":3},
  {"op":"insert","parent":3,"index":0,"node":4},{"op":"pass"},
  {"op":"move","node":4,"parent":2,"index":0},{"op":"pass"}]}],
"browser":[
 {"op":"ask","tree":1},
 {"op":"probe","tree":1,"update":{"root":1,"nodes":[{"node":1,"children":[2,3]},{"node":2,"children":[4]},{"node":4},{"node":3}]}}],
"order":"f1 f1 f1 f1 f1 a1 f1 b d1:1 f1 b a1"}"#,
        r#"f1 root 1 ok
f1 insert 2 ok
f1 insert 3 ok
f1 insert 4 ok
f1 pass 1 base 0 token 0
  u clear 0 root 1 list 1 2 3 4 data
a1 applied 1
  e 1:1 subtree_created
f1 move 4 ok
b ask 1 token 1
d1:1
f1 pass 2 base 0 token 1
  u clear 0 root 1 list 1 2 4 3 data
b probe 1 Reparented 4
a1 applied 2
  e 1:2 children_changed
  e 1:3 children_changed
finale
dump
tree 1 parent 0 focused 0 loaded no focus 0 sel 0 0 0 0 title "" url ""
1 generic
  2 generic
    4 generic
  3 generic
"#,
    ),
    // An edit comes with the whole tree where a token was delivered before it, and the next one stands on that pass.
    (
        "a packet stands on the pass before",
        r#"{"version":1,"frames":[
 {"tree":1,"ops":[
  {"op":"root","node":1},{"op":"pass"},
  {"op":"set","node":1,"attrs":{"name":"a"}},{"op":"pass"},
  {"op":"set","node":1,"attrs":{"name":"b"}},{"op":"pass"},
  {"op":"pass"}]}],
"browser":[
 {"op":"ask","tree":1},{"op":"ask","tree":1}],
"order":"f1 f1 a1 b d1:1 f1 f1 a1 f1 f1 a1 b d1:2 f1 a1"}"#,
        r#"f1 root 1 ok
f1 pass 1 base 0 token 0
  u clear 0 root 1 list 1 data
a1 applied 1
  e 1:1 subtree_created
b ask 1 token 1
d1:1
f1 set 1 ok
f1 pass 2 base 0 token 1
  u clear 0 root 1 list 1 data
a1 applied 2
  e 1:1 name_changed
f1 set 1 ok
f1 pass 3 base 2 token 1
  u clear 0 root 0 list 1
a1 applied 3
  e 1:1 name_changed
b ask 1 token 2
d1:2
f1 pass 4 base 0 token 2
  u clear 0 root 1 list 1 data
a1 applied 4
finale
dump
tree 1 parent 0 focused 0 loaded no focus 0 sel 0 0 0 0 title "" url ""
1 generic name="b"
"#,
    ),
    // The frame is told a token of which the browser knows nothing: its packets are stale, then one stands on a pass that wasn't applied, and at
    // last the finale asks.
    (
        "tokens that weren't asked for",
        r#"{"version":1,"frames":[
 {"tree":1,"ops":[
  {"op":"root","node":1},{"op":"pass"},
  {"op":"set","node":1,"attrs":{"name":"a"}},{"op":"pass"},
  {"op":"set","node":1,"attrs":{"name":"b"}},{"op":"pass"}]}],
"browser":[
 {"op":"ask","tree":1}],
"order":"f1 f1 d1:1 f1 f1 a1 a1 b f1 f1 a1"}"#,
        r#"f1 root 1 ok
f1 pass 1 base 0 token 0
  u clear 0 root 1 list 1 data
d1:1
f1 set 1 ok
f1 pass 2 base 0 token 1
  u clear 0 root 1 list 1 data
a1 applied 1
  e 1:1 subtree_created
a1 stale 1 0
b ask 1 token 1
f1 set 1 ok
f1 pass 3 base 2 token 1
  u clear 0 root 0 list 1
a1 gap 2 1
finale
b ask 1 token 2
d1:2
f1 pass 4 base 0 token 2
  u clear 0 root 1 list 1 data
a1 applied 4
  e 1:1 name_changed
dump
tree 1 parent 0 focused 0 loaded no focus 0 sel 0 0 0 0 title "" url ""
1 generic name="b"
"#,
    ),
    // The tree ends while a packet waits. It is asked for and ended in vain, and nothing catches up.
    (
        "a packet of a tree that has ended",
        r#"{"version":1,"frames":[
 {"tree":1,"ops":[
  {"op":"root","node":1},{"op":"pass"},
  {"op":"set","node":1,"attrs":{"name":"a"}},{"op":"pass"}]}],
"browser":[
 {"op":"destroy","tree":1},{"op":"ask","tree":1},{"op":"destroy","tree":1},
 {"op":"probe","tree":1,"update":{"nodes":[]}}],
"order":"f1 f1 a1 f1 f1 b a1 b b b"}"#,
        r#"f1 root 1 ok
f1 pass 1 base 0 token 0
  u clear 0 root 1 list 1 data
a1 applied 1
  e 1:1 subtree_created
f1 set 1 ok
f1 pass 2 base 1 token 0
  u clear 0 root 0 list 1
b destroy 1 ok
a1 gone
b ask 1 gone
b destroy 1 gone
b probe 1 gone
finale
dump
tree 1 gone
"#,
    ),
];

#[test]
fn passes_send_what_changed(rt: HostRuntime) {
    for (name, script, text) in STORIES {
        assert!(rt; is_told(rt.alloc(), script, text), "{name}");
    }
}
