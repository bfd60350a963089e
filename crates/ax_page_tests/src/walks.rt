//! Walks of the joined trees, hits, the focus, and walks that pass over ignored nodes. All trees come in first receipts but where a story has an
//! order; then the readers ask.

use crate::story::{Story, is_told};

const STORIES: [Story; 6] = [
    // 2 has a child, so nothing hangs there; 3 and 4 name one tree, which hangs at the first; 5 names tree 4, whose parent has ended; trees 6 and
    // 7 hang in one another. Readers 1 and 2 go forth and back through the whole list, reader 3 asks for places that aren't in it, readers 4 and 5
    // for what stands above and below.
    (
        "a hanging tree stands below its host",
        r#"{"version":1,"frames":[
 {"tree":1,"ops":[
  {"op":"root","node":1},{"op":"insert","parent":1,"index":0,"node":2,"attrs":{"child_tree":3}},
  {"op":"insert","parent":1,"index":1,"node":3,"attrs":{"child_tree":2}},
  {"op":"insert","parent":1,"index":2,"node":4,"attrs":{"child_tree":2}},
  {"op":"insert","parent":2,"index":0,"node":5,"attrs":{"child_tree":4}},{"op":"pass"}]},
 {"tree":2,"ops":[
  {"op":"root","node":1},{"op":"insert","parent":1,"index":0,"node":2},{"op":"data","parent":1},{"op":"pass"}]},
 {"tree":3,"ops":[
  {"op":"root","node":1},{"op":"data","parent":1},{"op":"pass"}]},
 {"tree":4,"ops":[
  {"op":"root","node":1},{"op":"data","parent":5},{"op":"pass"}]},
 {"tree":5,"ops":[
  {"op":"root","node":1,"attrs":{"child_tree":4}},{"op":"data","parent":1},{"op":"pass"}]},
 {"tree":6,"ops":[
  {"op":"root","node":1,"attrs":{"child_tree":7}},{"op":"data","parent":7},{"op":"pass"}]},
 {"tree":7,"ops":[
  {"op":"root","node":1,"attrs":{"child_tree":6}},{"op":"data","parent":6},{"op":"pass"}]}],
"browser":[
 {"op":"destroy","tree":5}],
"readers":[
 [{"q":"next","tree":1,"node":1},{"q":"next","tree":1,"node":2},{"q":"next","tree":1,"node":5},
  {"q":"next","tree":1,"node":3},{"q":"next","tree":2,"node":1},{"q":"next","tree":2,"node":2},
  {"q":"next","tree":1,"node":4}],
 [{"q":"prev","tree":1,"node":1},{"q":"prev","tree":1,"node":2},{"q":"prev","tree":1,"node":5},
  {"q":"prev","tree":1,"node":3},{"q":"prev","tree":2,"node":1},{"q":"prev","tree":2,"node":2},
  {"q":"prev","tree":1,"node":4}],
 [{"q":"node","tree":3,"node":1},{"q":"node","tree":4,"node":1},{"q":"node","tree":5,"node":1},
  {"q":"node","tree":6,"node":1},{"q":"node","tree":7,"node":1},{"q":"node","tree":1,"node":9}],
 [{"q":"parent","tree":2,"node":1},{"q":"parent","tree":1,"node":5},{"q":"parent","tree":1,"node":1}],
 [{"q":"children","tree":1,"node":1},{"q":"children","tree":1,"node":3},{"q":"children","tree":1,"node":4}]]}"#,
        r#"finale
f1 root 1 ok
f1 insert 2 ok
f1 insert 3 ok
f1 insert 4 ok
f1 insert 5 ok
f1 pass 1 base 0 token 0
  u clear 0 root 1 list 1 2 5 3 4 data
f2 root 1 ok
f2 insert 2 ok
f2 data ok
f2 pass 1 base 0 token 0
  u clear 0 root 1 list 1 2 data
f3 root 1 ok
f3 data ok
f3 pass 1 base 0 token 0
  u clear 0 root 1 list 1 data
f4 root 1 ok
f4 data ok
f4 pass 1 base 0 token 0
  u clear 0 root 1 list 1 data
f5 root 1 ok
f5 data ok
f5 pass 1 base 0 token 0
  u clear 0 root 1 list 1 data
f6 root 1 ok
f6 data ok
f6 pass 1 base 0 token 0
  u clear 0 root 1 list 1 data
f7 root 1 ok
f7 data ok
f7 pass 1 base 0 token 0
  u clear 0 root 1 list 1 data
a1 applied 1
  e 1:1 subtree_created
a2 applied 1
  e 2:1 subtree_created
a3 applied 1
  e 3:1 subtree_created
a4 applied 1
  e 4:1 subtree_created
a5 applied 1
  e 5:1 subtree_created
a6 applied 1
  e 6:1 subtree_created
a7 applied 1
  e 7:1 subtree_created
b destroy 5 ok
r1 next = 1:2
r1 next = 1:5
r1 next = 1:3
r1 next = 2:1
r1 next = 2:2
r1 next = 1:4
r1 next = AtEnd
r2 prev = AtStart
r2 prev = 1:1
r2 prev = 1:2
r2 prev = 1:5
r2 prev = 1:3
r2 prev = 2:1
r2 prev = 2:2
r3 node = NoNode
r3 node = NoNode
r3 node = NoTree
r3 node = NoNode
r3 node = NoNode
r3 node = NoNode
r4 parent = 1:3
r4 parent = 1:2
r4 parent = NoParent
r5 children = 1:2 1:3 1:4
r5 children = 2:1
r5 children = -
dump
tree 1 parent 0 focused 0 loaded no focus 0 sel 0 0 0 0 title "" url ""
1 generic
  2 generic child_tree=3
    5 generic child_tree=4
  3 generic child_tree=2
  4 generic child_tree=2
tree 2 parent 1 focused 0 loaded no focus 0 sel 0 0 0 0 title "" url ""
1 generic
  2 generic
tree 3 parent 1 focused 0 loaded no focus 0 sel 0 0 0 0 title "" url ""
1 generic
tree 4 parent 5 focused 0 loaded no focus 0 sel 0 0 0 0 title "" url ""
1 generic
tree 5 gone
tree 6 parent 7 focused 0 loaded no focus 0 sel 0 0 0 0 title "" url ""
1 generic child_tree=7
tree 7 parent 6 focused 0 loaded no focus 0 sel 0 0 0 0 title "" url ""
1 generic child_tree=6
"#,
    ),
    // Nine trees, each in the one before. The ninth isn't in the list: hit and focus end in the eighth, and nothing stands below that.
    (
        "eight levels are shown",
        r#"{"version":2,"frames":[
 {"tree":1,"ops":[
  {"op":"root","node":1,"attrs":{"child_tree":2},"rect":[0,0,10,10]},{"op":"data","focus":1},{"op":"pass"}]},
 {"tree":2,"ops":[
  {"op":"root","node":1,"attrs":{"child_tree":3},"rect":[0,0,10,10]},{"op":"data","focus":1,"parent":1},
  {"op":"pass"}]},
 {"tree":3,"ops":[
  {"op":"root","node":1,"attrs":{"child_tree":4},"rect":[0,0,10,10]},{"op":"data","focus":1,"parent":2},
  {"op":"pass"}]},
 {"tree":4,"ops":[
  {"op":"root","node":1,"attrs":{"child_tree":5},"rect":[0,0,10,10]},{"op":"data","focus":1,"parent":3},
  {"op":"pass"}]},
 {"tree":5,"ops":[
  {"op":"root","node":1,"attrs":{"child_tree":6},"rect":[0,0,10,10]},{"op":"data","focus":1,"parent":4},
  {"op":"pass"}]},
 {"tree":6,"ops":[
  {"op":"root","node":1,"attrs":{"child_tree":7},"rect":[0,0,10,10]},{"op":"data","focus":1,"parent":5},
  {"op":"pass"}]},
 {"tree":7,"ops":[
  {"op":"root","node":1,"attrs":{"child_tree":8},"rect":[0,0,10,10]},{"op":"data","focus":1,"parent":6},
  {"op":"pass"}]},
 {"tree":8,"ops":[
  {"op":"root","node":1,"attrs":{"child_tree":9},"rect":[0,0,10,10]},{"op":"data","focus":1,"parent":7},
  {"op":"pass"}]},
 {"tree":9,"ops":[
  {"op":"root","node":1,"attrs":{"child_tree":10},"rect":[0,0,10,10]},{"op":"data","focus":1,"parent":8},
  {"op":"pass"}]}],
"readers":[
 [{"q":"next","tree":1,"node":1},{"q":"next","tree":2,"node":1},{"q":"next","tree":3,"node":1},
  {"q":"next","tree":4,"node":1},{"q":"next","tree":5,"node":1},{"q":"next","tree":6,"node":1},
  {"q":"next","tree":7,"node":1},{"q":"next","tree":8,"node":1}],
 [{"q":"prev","tree":1,"node":1},{"q":"prev","tree":2,"node":1},{"q":"prev","tree":3,"node":1},
  {"q":"prev","tree":4,"node":1},{"q":"prev","tree":5,"node":1},{"q":"prev","tree":6,"node":1},
  {"q":"prev","tree":7,"node":1},{"q":"prev","tree":8,"node":1}],
 [{"q":"node","tree":9,"node":1},{"q":"node","tree":8,"node":1},{"q":"children","tree":8,"node":1},{"q":"focus"},
  {"q":"hit","x":5,"y":5},{"q":"u_next","tree":8,"node":1}]]}"#,
        r#"finale
f1 root 1 ok
f1 data ok
f1 pass 1 base 0 token 0
  u clear 0 root 1 list 1 data
f2 root 1 ok
f2 data ok
f2 pass 1 base 0 token 0
  u clear 0 root 1 list 1 data
f3 root 1 ok
f3 data ok
f3 pass 1 base 0 token 0
  u clear 0 root 1 list 1 data
f4 root 1 ok
f4 data ok
f4 pass 1 base 0 token 0
  u clear 0 root 1 list 1 data
f5 root 1 ok
f5 data ok
f5 pass 1 base 0 token 0
  u clear 0 root 1 list 1 data
f6 root 1 ok
f6 data ok
f6 pass 1 base 0 token 0
  u clear 0 root 1 list 1 data
f7 root 1 ok
f7 data ok
f7 pass 1 base 0 token 0
  u clear 0 root 1 list 1 data
f8 root 1 ok
f8 data ok
f8 pass 1 base 0 token 0
  u clear 0 root 1 list 1 data
f9 root 1 ok
f9 data ok
f9 pass 1 base 0 token 0
  u clear 0 root 1 list 1 data
a1 applied 1
  e 1:1 focus_changed
  e 1:1 subtree_created
a2 applied 1
  e 2:1 focus_changed
  e 2:1 subtree_created
a3 applied 1
  e 3:1 focus_changed
  e 3:1 subtree_created
a4 applied 1
  e 4:1 focus_changed
  e 4:1 subtree_created
a5 applied 1
  e 5:1 focus_changed
  e 5:1 subtree_created
a6 applied 1
  e 6:1 focus_changed
  e 6:1 subtree_created
a7 applied 1
  e 7:1 focus_changed
  e 7:1 subtree_created
a8 applied 1
  e 8:1 focus_changed
  e 8:1 subtree_created
a9 applied 1
  e 9:1 focus_changed
  e 9:1 subtree_created
r1 next = 2:1
r1 next = 3:1
r1 next = 4:1
r1 next = 5:1
r1 next = 6:1
r1 next = 7:1
r1 next = 8:1
r1 next = AtEnd
r2 prev = AtStart
r2 prev = 1:1
r2 prev = 2:1
r2 prev = 3:1
r2 prev = 4:1
r2 prev = 5:1
r2 prev = 6:1
r2 prev = 7:1
r3 node = NoNode
r3 node = generic 0
r3 children = -
r3 focus = 8:1
r3 hit = 8:1
r3 u_next = AtEnd
dump
tree 1 parent 0 focused 0 loaded no focus 1 sel 0 0 0 0 title "" url ""
1 generic [0,0,10,10] child_tree=2
tree 2 parent 1 focused 0 loaded no focus 1 sel 0 0 0 0 title "" url ""
1 generic [0,0,10,10] child_tree=3
tree 3 parent 2 focused 0 loaded no focus 1 sel 0 0 0 0 title "" url ""
1 generic [0,0,10,10] child_tree=4
tree 4 parent 3 focused 0 loaded no focus 1 sel 0 0 0 0 title "" url ""
1 generic [0,0,10,10] child_tree=5
tree 5 parent 4 focused 0 loaded no focus 1 sel 0 0 0 0 title "" url ""
1 generic [0,0,10,10] child_tree=6
tree 6 parent 5 focused 0 loaded no focus 1 sel 0 0 0 0 title "" url ""
1 generic [0,0,10,10] child_tree=7
tree 7 parent 6 focused 0 loaded no focus 1 sel 0 0 0 0 title "" url ""
1 generic [0,0,10,10] child_tree=8
tree 8 parent 7 focused 0 loaded no focus 1 sel 0 0 0 0 title "" url ""
1 generic [0,0,10,10] child_tree=9
tree 9 parent 8 focused 0 loaded no focus 1 sel 0 0 0 0 title "" url ""
1 generic [0,0,10,10] child_tree=10
"#,
    ),
    // In tree 1 the nodes 2 and 6 are ignored, one under the other, and 7, where tree 2 hangs. There the root is ignored, 2 is no leaf, and all
    // below 3 is ignored. Readers 1 and 2 go forth and back; of the others the first asks for ignored places, and each next one for what stands
    // above, what stands below, and texts.
    (
        "ignored places are passed over",
        r#"{"version":2,"frames":[
 {"tree":1,"ops":[
  {"op":"root","node":1},{"op":"insert","parent":1,"index":0,"node":2,"states":["ignored"]},
  {"op":"insert","parent":1,"index":1,"node":5,"attrs":{"name":"c"}},
  {"op":"insert","parent":1,"index":2,"node":7,"states":["ignored"],"attrs":{"child_tree":2}},
  {"op":"insert","parent":2,"index":0,"node":3,"attrs":{"name":"a"}},
  {"op":"insert","parent":2,"index":1,"node":6,"states":["ignored"]},
  {"op":"insert","parent":6,"index":0,"node":4,"attrs":{"name":"b"}},{"op":"pass"}]},
 {"tree":2,"ops":[
  {"op":"data","parent":1},{"op":"root","node":1,"states":["ignored"]},
  {"op":"insert","parent":1,"index":0,"node":2,"attrs":{"name":"over"}},
  {"op":"insert","parent":1,"index":1,"node":3,"attrs":{"name":"e"}},
  {"op":"insert","parent":2,"index":0,"node":4,"attrs":{"name":"d"}},
  {"op":"insert","parent":3,"index":0,"node":5,"states":["ignored"],"attrs":{"name":"none"}},{"op":"pass"}]}],
"readers":[
 [{"q":"u_next","tree":1,"node":1},{"q":"u_next","tree":1,"node":3},{"q":"u_next","tree":1,"node":4},
  {"q":"u_next","tree":1,"node":5},{"q":"u_next","tree":2,"node":2},{"q":"u_next","tree":2,"node":4},
  {"q":"u_next","tree":2,"node":3}],
 [{"q":"u_prev","tree":1,"node":1},{"q":"u_prev","tree":1,"node":3},{"q":"u_prev","tree":1,"node":4},
  {"q":"u_prev","tree":1,"node":5},{"q":"u_prev","tree":2,"node":2},{"q":"u_prev","tree":2,"node":4},
  {"q":"u_prev","tree":2,"node":3}],
 [{"q":"u_next","tree":1,"node":2},{"q":"u_next","tree":2,"node":1}],
 [{"q":"u_parent","tree":1,"node":4},{"q":"u_parent","tree":2,"node":4},{"q":"u_parent","tree":2,"node":3},
  {"q":"u_parent","tree":1,"node":1}],
 [{"q":"u_children","tree":1,"node":1},{"q":"u_children","tree":2,"node":3}],
 [{"q":"u_text","tree":1,"node":1},{"q":"u_text","tree":2,"node":2},{"q":"u_text","tree":2,"node":3}]]}"#,
        r#"finale
f1 root 1 ok
f1 insert 2 ok
f1 insert 5 ok
f1 insert 7 ok
f1 insert 3 ok
f1 insert 6 ok
f1 insert 4 ok
f1 pass 1 base 0 token 0
  u clear 0 root 1 list 1 2 3 6 4 5 7 data
f2 data ok
f2 root 1 ok
f2 insert 2 ok
f2 insert 3 ok
f2 insert 4 ok
f2 insert 5 ok
f2 pass 1 base 0 token 0
  u clear 0 root 1 list 1 2 4 3 5 data
a1 applied 1
  e 1:1 subtree_created
a2 applied 1
  e 2:1 subtree_created
r1 u_next = 1:3
r1 u_next = 1:4
r1 u_next = 1:5
r1 u_next = 2:2
r1 u_next = 2:4
r1 u_next = 2:3
r1 u_next = AtEnd
r2 u_prev = AtStart
r2 u_prev = 1:1
r2 u_prev = 1:3
r2 u_prev = 1:4
r2 u_prev = 1:5
r2 u_prev = 2:2
r2 u_prev = 2:4
r3 u_next = Ignored
r3 u_next = Ignored
r4 u_parent = 1:1
r4 u_parent = 2:2
r4 u_parent = 1:1
r4 u_parent = NoParent
r5 u_children = 1:3 1:4 1:5 2:2 2:3
r5 u_children = -
r6 u_text = "abcde"
r6 u_text = "d"
r6 u_text = "e"
dump
tree 1 parent 0 focused 0 loaded no focus 0 sel 0 0 0 0 title "" url ""
1 generic
  2 generic +ignored
    3 generic name="a"
    6 generic +ignored
      4 generic name="b"
  5 generic name="c"
  7 generic +ignored child_tree=2
tree 2 parent 1 focused 0 loaded no focus 0 sel 0 0 0 0 title "" url ""
1 generic +ignored
  2 generic name="over"
    4 generic name="d"
  3 generic name="e"
    5 generic +ignored name="none"
"#,
    ),
    // 2 is scrolled in 1, which clips, and 3 is measured from 2. Then 2 is scrolled on.
    (
        "a scroll moves what is measured from it",
        r#"{"version":2,"frames":[
 {"tree":1,"ops":[
  {"op":"root","node":1,"attrs":{"clips":true},"rect":[0,0,100,100]},
  {"op":"insert","parent":1,"index":0,"node":2,"attrs":{"container":1,"scroll_y":50},"rect":[10,10,80,200]},
  {"op":"insert","parent":2,"index":0,"node":3,"attrs":{"container":2},"rect":[5,60,20,10]},{"op":"pass"},
  {"op":"set","node":2,"attrs":{"scroll_y":60}},{"op":"pass"}]}],
"readers":[
 [{"q":"bounds","tree":1,"node":3},{"q":"hit","x":16,"y":21},{"q":"bounds","tree":1,"node":3},
  {"q":"hit","x":16,"y":21}]],
"order":"f1 f1 f1 f1 a1 r1 r1"}"#,
        r#"f1 root 1 ok
f1 insert 2 ok
f1 insert 3 ok
f1 pass 1 base 0 token 0
  u clear 0 root 1 list 1 2 3 data
a1 applied 1
  e 1:1 subtree_created
r1 bounds = [15,20,20,10]
r1 hit = 1:3
finale
f1 set 2 ok
f1 pass 2 base 1 token 0
  u clear 0 root 0 list 2
a1 applied 2
  e 1:2 location_changed
r1 bounds = [15,10,20,10]
r1 hit = 1:2
dump
tree 1 parent 0 focused 0 loaded no focus 0 sel 0 0 0 0 title "" url ""
1 generic [0,0,100,100] clips=yes
  2 generic [10,10,80,200] container=1 scroll_y=60
    3 generic [5,60,20,10] container=2
"#,
    ),
    // 2 clips what stands below it; 3 stands beside it, and 5 upon 3. 6 is a child of 3 that lies outside it, and 3 doesn't clip.
    (
        "the last that nothing above hides is hit",
        r#"{"version":1,"frames":[
 {"tree":1,"ops":[
  {"op":"root","node":1,"rect":[0,0,100,100]},
  {"op":"insert","parent":1,"index":0,"node":2,"attrs":{"clips":true},"rect":[0,0,10,10]},
  {"op":"insert","parent":1,"index":1,"node":3,"rect":[50,50,10,10]},
  {"op":"insert","parent":1,"index":2,"node":5,"rect":[55,55,10,10]},
  {"op":"insert","parent":2,"index":0,"node":4,"rect":[0,0,80,80]},
  {"op":"insert","parent":3,"index":0,"node":6,"rect":[80,80,10,10]},{"op":"pass"}]}],
"readers":[
 [{"q":"hit","x":5,"y":5},{"q":"hit","x":52,"y":52},{"q":"hit","x":56,"y":56},{"q":"hit","x":70,"y":70},
  {"q":"hit","x":100,"y":100},{"q":"hit","x":85,"y":85}]]}"#,
        r#"finale
f1 root 1 ok
f1 insert 2 ok
f1 insert 3 ok
f1 insert 5 ok
f1 insert 4 ok
f1 insert 6 ok
f1 pass 1 base 0 token 0
  u clear 0 root 1 list 1 2 4 3 6 5 data
a1 applied 1
  e 1:1 subtree_created
r1 hit = 1:4
r1 hit = 1:3
r1 hit = 1:5
r1 hit = 1:1
r1 hit = NoHit
r1 hit = 1:6
dump
tree 1 parent 0 focused 0 loaded no focus 0 sel 0 0 0 0 title "" url ""
1 generic [0,0,100,100]
  2 generic [0,0,10,10] clips=yes
    4 generic [0,0,80,80]
  3 generic [50,50,10,10]
    6 generic [80,80,10,10]
  5 generic [55,55,10,10]
"#,
    ),
    // The focus of tree 1 is 2, where tree 2 hangs. There it is 1, then 3, under which 4 is active, and then nothing.
    (
        "the focus goes into the hanging tree",
        r#"{"version":1,"frames":[
 {"tree":1,"ops":[
  {"op":"root","node":1},{"op":"insert","parent":1,"index":0,"node":2,"attrs":{"child_tree":2}},
  {"op":"data","focus":2},{"op":"pass"}]},
 {"tree":2,"ops":[
  {"op":"root","node":1},{"op":"insert","parent":1,"index":0,"node":3,"attrs":{"active_descendant":4}},
  {"op":"insert","parent":1,"index":1,"node":4},{"op":"data","parent":1,"focus":1},{"op":"pass"},
  {"op":"data","focus":3},{"op":"pass"},
  {"op":"data","focus":0},{"op":"pass"}]}],
"readers":[
 [{"q":"focus"},{"q":"focus"},{"q":"focus"}]],
"order":"f1 f1 f1 f1 a1 f2 f2 f2 f2 f2 a2 r1 f2 f2 a2 r1 f2 f2 a2 r1"}"#,
        r#"f1 root 1 ok
f1 insert 2 ok
f1 data ok
f1 pass 1 base 0 token 0
  u clear 0 root 1 list 1 2 data
a1 applied 1
  e 1:2 focus_changed
  e 1:1 subtree_created
f2 root 1 ok
f2 insert 3 ok
f2 insert 4 ok
f2 data ok
f2 pass 1 base 0 token 0
  u clear 0 root 1 list 1 3 4 data
a2 applied 1
  e 2:1 focus_changed
  e 2:1 subtree_created
r1 focus = 2:1
f2 data ok
f2 pass 2 base 1 token 0
  u clear 0 root 0 list - data
a2 applied 2
  e 2:3 focus_changed
r1 focus = 2:4
f2 data ok
f2 pass 3 base 2 token 0
  u clear 0 root 0 list - data
a2 applied 3
r1 focus = 1:2
finale
dump
tree 1 parent 0 focused 0 loaded no focus 2 sel 0 0 0 0 title "" url ""
1 generic
  2 generic child_tree=2
tree 2 parent 1 focused 0 loaded no focus 0 sel 0 0 0 0 title "" url ""
1 generic
  3 generic active_descendant=4
  4 generic
"#,
    ),
];

#[test]
fn pages_are_walked(rt: HostRuntime) {
    for (name, script, text) in STORIES {
        assert!(rt; is_told(rt.alloc(), script, text), "{name}");
    }
}
