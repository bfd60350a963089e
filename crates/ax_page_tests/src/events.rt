//! What a receipt tells: the events between a page before and after. A story's passes behind the first are its changes; their lines say
//! which nodes are sent for each.

use crate::story::{Story, is_told};

const STORIES: [Story; 17] = [
    // The parent and the new child are told of, and not the children that stay.
    (
        "a child goes and one comes",
        r#"{"version":1,"frames":[
 {"tree":1,"ops":[
  {"op":"root","node":1},{"op":"insert","parent":1,"index":0,"node":2},{"op":"insert","parent":1,"index":1,"node":3},
  {"op":"insert","parent":1,"index":2,"node":4},{"op":"insert","parent":1,"index":3,"node":5},{"op":"pass"},
  {"op":"remove","node":2},{"op":"insert","parent":1,"index":3,"node":6},{"op":"pass"}]}]}"#,
        r#"finale
f1 root 1 ok
f1 insert 2 ok
f1 insert 3 ok
f1 insert 4 ok
f1 insert 5 ok
f1 pass 1 base 0 token 0
  u clear 0 root 1 list 1 2 3 4 5 data
f1 remove 2 ok
f1 insert 6 ok
f1 pass 2 base 1 token 0
  u clear 0 root 0 list 1 6
a1 applied 1
  e 1:1 subtree_created
a1 applied 2
  e 1:1 children_changed
  e 1:6 subtree_created
dump
tree 1 parent 0 focused 0 loaded no focus 0 sel 0 0 0 0 title "" url ""
1 generic
  3 generic
  4 generic
  5 generic
  6 generic
"#,
    ),
    // 4 leaves 2 for 3: both parents are sent, the old one first. 4 is an old node, so nothing is told of it.
    (
        "a node moves",
        r#"{"version":1,"frames":[
 {"tree":1,"ops":[
  {"op":"root","node":1},{"op":"insert","parent":1,"index":0,"node":2},{"op":"insert","parent":1,"index":1,"node":3},
  {"op":"insert","parent":2,"index":0,"node":4},{"op":"pass"},
  {"op":"move","node":4,"parent":3,"index":0},{"op":"pass"}]}]}"#,
        r#"finale
f1 root 1 ok
f1 insert 2 ok
f1 insert 3 ok
f1 insert 4 ok
f1 pass 1 base 0 token 0
  u clear 0 root 1 list 1 2 4 3 data
f1 move 4 ok
f1 pass 2 base 1 token 0
  u clear 0 root 0 list 2
  u clear 0 root 0 list 3 4
a1 applied 1
  e 1:1 subtree_created
a1 applied 2
  e 1:2 children_changed
  e 1:3 children_changed
dump
tree 1 parent 0 focused 0 loaded no focus 0 sel 0 0 0 0 title "" url ""
1 generic
  2 generic
  3 generic
    4 generic
"#,
    ),
    // 3 is sent first, while the receiver has 4 below 2: so the whole tree is sent anew, and nodes that are as they were tell nothing.
    (
        "a node moves and one is named",
        r#"{"version":1,"frames":[
 {"tree":1,"ops":[
  {"op":"root","node":1},{"op":"insert","parent":1,"index":0,"node":2},{"op":"insert","parent":1,"index":1,"node":3},
  {"op":"insert","parent":2,"index":0,"node":4},{"op":"pass"},
  {"op":"set","node":3,"attrs":{"name":"x"}},{"op":"move","node":4,"parent":3,"index":0},{"op":"pass"}]}]}"#,
        r#"finale
f1 root 1 ok
f1 insert 2 ok
f1 insert 3 ok
f1 insert 4 ok
f1 pass 1 base 0 token 0
  u clear 0 root 1 list 1 2 4 3 data
f1 set 3 ok
f1 move 4 ok
f1 pass 2 base 1 token 0
  u clear 1 root 0 list 1 2 3 4
a1 applied 1
  e 1:1 subtree_created
a1 applied 2
  e 1:2 children_changed
  e 1:3 name_changed
  e 1:3 children_changed
dump
tree 1 parent 0 focused 0 loaded no focus 0 sel 0 0 0 0 title "" url ""
1 generic
  2 generic
  3 generic name="x"
    4 generic
"#,
    ),
    // A node that goes and comes again under its id is an old node with another role.
    (
        "an id is used again",
        r#"{"version":1,"frames":[
 {"tree":1,"ops":[
  {"op":"root","node":1},{"op":"insert","parent":1,"index":0,"node":2},{"op":"pass"},
  {"op":"remove","node":2},{"op":"insert","parent":1,"index":0,"node":2,"role":"button"},{"op":"pass"}]}]}"#,
        r#"finale
f1 root 1 ok
f1 insert 2 ok
f1 pass 1 base 0 token 0
  u clear 0 root 1 list 1 2 data
f1 remove 2 ok
f1 insert 2 ok
f1 pass 2 base 1 token 0
  u clear 0 root 0 list 1 2
a1 applied 1
  e 1:1 subtree_created
a1 applied 2
  e 1:2 role_changed
dump
tree 1 parent 0 focused 0 loaded no focus 0 sel 0 0 0 0 title "" url ""
1 generic
  2 button
"#,
    ),
    // 4, 6 and 7 differ, two of them below 2 and one behind it. 2 isn't closed, so all below the root is sent anew.
    (
        "siblings are told in pre-order",
        r#"{"version":1,"frames":[
 {"tree":1,"ops":[
  {"op":"root","node":1},{"op":"insert","parent":1,"index":0,"node":2},{"op":"insert","parent":1,"index":1,"node":7},
  {"op":"insert","parent":2,"index":0,"node":3},{"op":"insert","parent":2,"index":1,"node":6},
  {"op":"insert","parent":3,"index":0,"node":4},{"op":"insert","parent":6,"index":0,"node":5},
  {"op":"insert","parent":7,"index":0,"node":8},{"op":"pass"},
  {"op":"set","node":4,"attrs":{"name":"x"}},{"op":"move","node":5,"parent":4,"index":0},
  {"op":"move","node":8,"parent":6,"index":0},{"op":"pass"}]}]}"#,
        r#"finale
f1 root 1 ok
f1 insert 2 ok
f1 insert 7 ok
f1 insert 3 ok
f1 insert 6 ok
f1 insert 4 ok
f1 insert 5 ok
f1 insert 8 ok
f1 pass 1 base 0 token 0
  u clear 0 root 1 list 1 2 3 4 6 5 7 8 data
f1 set 4 ok
f1 move 5 ok
f1 move 8 ok
f1 pass 2 base 1 token 0
  u clear 1 root 0 list 1 2 3 4 5 6 8 7
a1 applied 1
  e 1:1 subtree_created
a1 applied 2
  e 1:4 name_changed
  e 1:4 children_changed
  e 1:6 children_changed
  e 1:7 children_changed
dump
tree 1 parent 0 focused 0 loaded no focus 0 sel 0 0 0 0 title "" url ""
1 generic
  2 generic
    3 generic
      4 generic name="x"
        5 generic
    6 generic
      8 generic
  7 generic
"#,
    ),
    // 3, which stood below 1, is the root now, and 1 stands below it.
    (
        "the root changes",
        r#"{"version":1,"frames":[
 {"tree":1,"ops":[
  {"op":"root","node":1},{"op":"insert","parent":1,"index":0,"node":2},{"op":"insert","parent":1,"index":1,"node":3},
  {"op":"pass"},
  {"op":"root","node":3},{"op":"insert","parent":3,"index":0,"node":1},{"op":"pass"}]}]}"#,
        r#"finale
f1 root 1 ok
f1 insert 2 ok
f1 insert 3 ok
f1 pass 1 base 0 token 0
  u clear 0 root 1 list 1 2 3 data
f1 root 3 ok
f1 insert 1 ok
f1 pass 2 base 1 token 0
  u clear 1 root 3 list 3 1
a1 applied 1
  e 1:1 subtree_created
a1 applied 2
  e 1:3 children_changed
  e 1:1 children_changed
dump
tree 1 parent 0 focused 0 loaded no focus 0 sel 0 0 0 0 title "" url ""
3 generic
  1 generic
"#,
    ),
    // The nodes are touched and sent, with nothing changed.
    (
        "nodes that are as they were tell nothing",
        r#"{"version":1,"frames":[
 {"tree":1,"ops":[
  {"op":"root","node":1},{"op":"insert","parent":1,"index":0,"node":2},{"op":"pass"},
  {"op":"touch_below","node":1},{"op":"pass"}]}]}"#,
        r#"finale
f1 root 1 ok
f1 insert 2 ok
f1 pass 1 base 0 token 0
  u clear 0 root 1 list 1 2 data
f1 touch_below 1 ok
f1 pass 2 base 1 token 0
  u clear 0 root 0 list 1 2
a1 applied 1
  e 1:1 subtree_created
a1 applied 2
dump
tree 1 parent 0 focused 0 loaded no focus 0 sel 0 0 0 0 title "" url ""
1 generic
  2 generic
"#,
    ),
    // Only the part below 2, the lowest closed node: 5 leaves 3 for 4, which is named.
    (
        "a part is sent anew",
        r#"{"version":1,"frames":[
 {"tree":1,"ops":[
  {"op":"root","node":1},{"op":"insert","parent":1,"index":0,"node":2},{"op":"insert","parent":1,"index":1,"node":9},
  {"op":"insert","parent":2,"index":0,"node":3},{"op":"insert","parent":2,"index":1,"node":4},
  {"op":"insert","parent":3,"index":0,"node":5},{"op":"pass"},
  {"op":"set","node":4,"attrs":{"name":"x"}},{"op":"move","node":5,"parent":4,"index":0},{"op":"pass"}]}]}"#,
        r#"finale
f1 root 1 ok
f1 insert 2 ok
f1 insert 9 ok
f1 insert 3 ok
f1 insert 4 ok
f1 insert 5 ok
f1 pass 1 base 0 token 0
  u clear 0 root 1 list 1 2 3 5 4 9 data
f1 set 4 ok
f1 move 5 ok
f1 pass 2 base 1 token 0
  u clear 2 root 0 list 2 3 4 5
a1 applied 1
  e 1:1 subtree_created
a1 applied 2
  e 1:3 children_changed
  e 1:4 name_changed
  e 1:4 children_changed
dump
tree 1 parent 0 focused 0 loaded no focus 0 sel 0 0 0 0 title "" url ""
1 generic
  2 generic
    3 generic
    4 generic name="x"
      5 generic
  9 generic
"#,
    ),
    // A node that was off the screen is shown, and it has two attributes now that tell of an error.
    (
        "a lost state and two attributes",
        r#"{"version":2,"frames":[
 {"tree":1,"ops":[
  {"op":"root","node":1,"states":["offscreen"]},{"op":"pass"},
  {"op":"set","node":1,"states":[],"attrs":{"invalid":"true","error_message":1}},{"op":"pass"}]}]}"#,
        r#"finale
f1 root 1 ok
f1 pass 1 base 0 token 0
  u clear 0 root 1 list 1 data
f1 set 1 ok
f1 pass 2 base 1 token 0
  u clear 0 root 0 list 1
a1 applied 1
  e 1:1 subtree_created
a1 applied 2
  e 1:1 shown
  e 1:1 error_changed
  e 1:1 error_changed
dump
tree 1 parent 0 focused 0 loaded no focus 0 sel 0 0 0 0 title "" url ""
1 generic invalid="true" error_message=1
"#,
    ),
    // All that a node can tell of: role, states, attributes, rectangle, children. The new child comes behind it.
    (
        "one node tells in order",
        r#"{"version":1,"frames":[
 {"tree":1,"ops":[
  {"op":"root","node":1},{"op":"pass"},
  {"op":"set","node":1,"role":"button","states":["expanded"],"attrs":{"name":"x"},"rect":[1,2,3,4]},
  {"op":"insert","parent":1,"index":0,"node":2},{"op":"pass"}]}]}"#,
        r#"finale
f1 root 1 ok
f1 pass 1 base 0 token 0
  u clear 0 root 1 list 1 data
f1 set 1 ok
f1 insert 2 ok
f1 pass 2 base 1 token 0
  u clear 0 root 0 list 1 2
a1 applied 1
  e 1:1 subtree_created
a1 applied 2
  e 1:1 role_changed
  e 1:1 expanded
  e 1:1 name_changed
  e 1:1 location_changed
  e 1:1 children_changed
  e 1:2 subtree_created
dump
tree 1 parent 0 focused 0 loaded no focus 0 sel 0 0 0 0 title "" url ""
1 button [1,2,3,4] +expanded name="x"
  2 generic
"#,
    ),
    // Of a first receipt the root alone tells, whatever the nodes have; of tree 2 its data tell first, with the focus at a node.
    (
        "first receipts",
        r#"{"version":1,"frames":[
 {"tree":1,"ops":[
  {"op":"root","node":1,"attrs":{"name":"x"}},{"op":"insert","parent":1,"index":0,"node":2,"attrs":{"live":"polite"}},
  {"op":"pass"}]},
 {"tree":2,"ops":[
  {"op":"root","node":1,"attrs":{"name":"x"}},{"op":"insert","parent":1,"index":0,"node":2,"attrs":{"live":"polite"}},
  {"op":"data","title":"News","url":"https://news.example/","loaded":true,"focus":2},{"op":"pass"}]}]}"#,
        r#"finale
f1 root 1 ok
f1 insert 2 ok
f1 pass 1 base 0 token 0
  u clear 0 root 1 list 1 2 data
f2 root 1 ok
f2 insert 2 ok
f2 data ok
f2 pass 1 base 0 token 0
  u clear 0 root 1 list 1 2 data
a1 applied 1
  e 1:1 subtree_created
a2 applied 1
  e 2 document_title_changed
  e 2 url_changed
  e 2 load_complete
  e 2:2 focus_changed
  e 2:1 subtree_created
dump
tree 1 parent 0 focused 0 loaded no focus 0 sel 0 0 0 0 title "" url ""
1 generic name="x"
  2 generic live="polite"
tree 2 parent 0 focused 0 loaded yes focus 2 sel 0 0 0 0 title "News" url "https://news.example/"
1 generic name="x"
  2 generic live="polite"
"#,
    ),
    // The title alone differs; then the selection; then the focus is an id that no node has; then the address, with the focus at a node again.
    (
        "tree data tell of what differs",
        r#"{"version":1,"frames":[
 {"tree":1,"ops":[
  {"op":"root","node":1},{"op":"data","title":"News","loaded":true,"focus":1},{"op":"pass"},
  {"op":"data","title":"More"},{"op":"pass"},
  {"op":"data","sel":[1,0,1,2]},{"op":"pass"},
  {"op":"data","focus":9},{"op":"pass"},
  {"op":"data","url":"https://news.example/","focus":1},{"op":"pass"}]}]}"#,
        r#"finale
f1 root 1 ok
f1 data ok
f1 pass 1 base 0 token 0
  u clear 0 root 1 list 1 data
f1 data ok
f1 pass 2 base 1 token 0
  u clear 0 root 0 list - data
f1 data ok
f1 pass 3 base 2 token 0
  u clear 0 root 0 list - data
f1 data ok
f1 pass 4 base 3 token 0
  u clear 0 root 0 list - data
f1 data ok
f1 pass 5 base 4 token 0
  u clear 0 root 0 list - data
a1 applied 1
  e 1 document_title_changed
  e 1 load_complete
  e 1:1 focus_changed
  e 1:1 subtree_created
a1 applied 2
  e 1 document_title_changed
a1 applied 3
  e 1 selection_changed
a1 applied 4
a1 applied 5
  e 1 url_changed
  e 1:1 focus_changed
dump
tree 1 parent 0 focused 0 loaded yes focus 1 sel 1 0 1 2 title "More" url "https://news.example/"
1 generic
"#,
    ),
    // Nodes are named in another order than they stand in, and 9 goes. Then 6 is sent twice, and at last nothing but tree data.
    (
        "touched ids are told in pre-order",
        r#"{"version":1,"frames":[
 {"tree":1,"ops":[
  {"op":"root","node":1},{"op":"insert","parent":1,"index":0,"node":5},{"op":"insert","parent":1,"index":1,"node":2},
  {"op":"insert","parent":1,"index":2,"node":3},{"op":"insert","parent":2,"index":0,"node":4},
  {"op":"insert","parent":4,"index":0,"node":7},{"op":"insert","parent":4,"index":1,"node":6},
  {"op":"insert","parent":7,"index":0,"node":8},{"op":"insert","parent":3,"index":0,"node":9},{"op":"pass"},
  {"op":"set","node":3,"attrs":{"name":"x"}},{"op":"remove","node":9},{"op":"set","node":6,"attrs":{"name":"x"}},
  {"op":"set","node":2,"attrs":{"name":"x"}},{"op":"set","node":7,"attrs":{"name":"x"}},{"op":"pass"},
  {"op":"set","node":6,"attrs":{"name":"y"}},{"op":"set","node":5,"attrs":{"name":"y"}},
  {"op":"set","node":3,"attrs":{"name":"y"}},{"op":"move","node":8,"parent":5,"index":0},{"op":"pass"},
  {"op":"data"},{"op":"pass"}]}]}"#,
        r#"finale
f1 root 1 ok
f1 insert 5 ok
f1 insert 2 ok
f1 insert 3 ok
f1 insert 4 ok
f1 insert 7 ok
f1 insert 6 ok
f1 insert 8 ok
f1 insert 9 ok
f1 pass 1 base 0 token 0
  u clear 0 root 1 list 1 5 2 4 7 8 6 3 9 data
f1 set 3 ok
f1 remove 9 ok
f1 set 6 ok
f1 set 2 ok
f1 set 7 ok
f1 pass 2 base 1 token 0
  u clear 0 root 0 list 3
  u clear 0 root 0 list 6
  u clear 0 root 0 list 2
  u clear 0 root 0 list 7
f1 set 6 ok
f1 set 5 ok
f1 set 3 ok
f1 move 8 ok
f1 pass 3 base 2 token 0
  u clear 0 root 0 list 6
  u clear 1 root 0 list 1 5 8 2 4 7 6 3
f1 data ok
f1 pass 4 base 3 token 0
  u clear 0 root 0 list - data
a1 applied 1
  e 1:1 subtree_created
a1 applied 2
  e 1:2 name_changed
  e 1:7 name_changed
  e 1:6 name_changed
  e 1:3 name_changed
  e 1:3 children_changed
a1 applied 3
  e 1:5 name_changed
  e 1:5 children_changed
  e 1:7 children_changed
  e 1:6 name_changed
  e 1:3 name_changed
a1 applied 4
dump
tree 1 parent 0 focused 0 loaded no focus 0 sel 0 0 0 0 title "" url ""
1 generic
  5 generic name="y"
    8 generic
  2 generic name="x"
    4 generic
      7 generic name="x"
      6 generic name="y"
  3 generic name="y"
"#,
    ),
    // No region is touched: 5 belongs to the inner one alone, 4 to the outer one. 6 comes with `live` and a child, and as a new node tells
    // nothing.
    (
        "regions tell of what is theirs",
        r#"{"version":1,"frames":[
 {"tree":1,"ops":[
  {"op":"root","node":1},{"op":"insert","parent":1,"index":0,"node":2,"attrs":{"live":"polite"}},
  {"op":"insert","parent":2,"index":0,"node":3,"attrs":{"live":"polite"}},
  {"op":"insert","parent":2,"index":1,"node":4},{"op":"insert","parent":3,"index":0,"node":5},{"op":"pass"},
  {"op":"set","node":5,"attrs":{"name":"x"}},{"op":"pass"},
  {"op":"set","node":4,"attrs":{"name":"x"}},{"op":"pass"},
  {"op":"insert","parent":2,"index":2,"node":6,"attrs":{"live":"polite"}},
  {"op":"insert","parent":6,"index":0,"node":7},{"op":"pass"}]}]}"#,
        r#"finale
f1 root 1 ok
f1 insert 2 ok
f1 insert 3 ok
f1 insert 4 ok
f1 insert 5 ok
f1 pass 1 base 0 token 0
  u clear 0 root 1 list 1 2 3 5 4 data
f1 set 5 ok
f1 pass 2 base 1 token 0
  u clear 0 root 0 list 5
f1 set 4 ok
f1 pass 3 base 2 token 0
  u clear 0 root 0 list 4
f1 insert 6 ok
f1 insert 7 ok
f1 pass 4 base 3 token 0
  u clear 0 root 0 list 2 6 7
a1 applied 1
  e 1:1 subtree_created
a1 applied 2
  e 1:3 live_region_changed
  e 1:5 name_changed
a1 applied 3
  e 1:2 live_region_changed
  e 1:4 name_changed
a1 applied 4
  e 1:2 children_changed
  e 1:2 live_region_changed
  e 1:6 subtree_created
dump
tree 1 parent 0 focused 0 loaded no focus 0 sel 0 0 0 0 title "" url ""
1 generic
  2 generic live="polite"
    3 generic live="polite"
      5 generic name="x"
    4 generic name="x"
    6 generic live="polite"
      7 generic
"#,
    ),
    // The inner region is off, and is the nearest one of 5 all the same.
    (
        "a region that is off tells nothing",
        r#"{"version":1,"frames":[
 {"tree":1,"ops":[
  {"op":"root","node":1},{"op":"insert","parent":1,"index":0,"node":2,"attrs":{"live":"polite"}},
  {"op":"insert","parent":2,"index":0,"node":3,"attrs":{"live":"off"}},{"op":"insert","parent":2,"index":1,"node":4},
  {"op":"insert","parent":3,"index":0,"node":5},{"op":"pass"},
  {"op":"set","node":5,"attrs":{"name":"x"}},{"op":"pass"}]}]}"#,
        r#"finale
f1 root 1 ok
f1 insert 2 ok
f1 insert 3 ok
f1 insert 4 ok
f1 insert 5 ok
f1 pass 1 base 0 token 0
  u clear 0 root 1 list 1 2 3 5 4 data
f1 set 5 ok
f1 pass 2 base 1 token 0
  u clear 0 root 0 list 5
a1 applied 1
  e 1:1 subtree_created
a1 applied 2
  e 1:5 name_changed
dump
tree 1 parent 0 focused 0 loaded no focus 0 sel 0 0 0 0 title "" url ""
1 generic
  2 generic live="polite"
    3 generic live="off"
      5 generic name="x"
    4 generic
"#,
    ),
    // 3 moves from 2 to 1, and 5 is named: the region tells where it stands now, and 2 of its own children.
    (
        "a region that moved tells",
        r#"{"version":1,"frames":[
 {"tree":1,"ops":[
  {"op":"root","node":1},{"op":"insert","parent":1,"index":0,"node":2,"attrs":{"live":"polite"}},
  {"op":"insert","parent":2,"index":0,"node":3,"attrs":{"live":"polite"}},
  {"op":"insert","parent":2,"index":1,"node":4},{"op":"insert","parent":3,"index":0,"node":5},{"op":"pass"},
  {"op":"move","node":3,"parent":1,"index":1},{"op":"set","node":5,"attrs":{"name":"x"}},{"op":"pass"}]}]}"#,
        r#"finale
f1 root 1 ok
f1 insert 2 ok
f1 insert 3 ok
f1 insert 4 ok
f1 insert 5 ok
f1 pass 1 base 0 token 0
  u clear 0 root 1 list 1 2 3 5 4 data
f1 move 3 ok
f1 set 5 ok
f1 pass 2 base 1 token 0
  u clear 0 root 0 list 2
  u clear 0 root 0 list 1 3 5
a1 applied 1
  e 1:1 subtree_created
a1 applied 2
  e 1:1 children_changed
  e 1:2 children_changed
  e 1:2 live_region_changed
  e 1:3 live_region_changed
  e 1:5 name_changed
dump
tree 1 parent 0 focused 0 loaded no focus 0 sel 0 0 0 0 title "" url ""
1 generic
  2 generic live="polite"
    4 generic
  3 generic live="polite"
    5 generic name="x"
"#,
    ),
    // 3 loses `live` and 5 is named: 5 belongs to 2 now.
    (
        "a region that lost its attribute",
        r#"{"version":1,"frames":[
 {"tree":1,"ops":[
  {"op":"root","node":1},{"op":"insert","parent":1,"index":0,"node":2,"attrs":{"live":"polite"}},
  {"op":"insert","parent":2,"index":0,"node":3,"attrs":{"live":"polite"}},
  {"op":"insert","parent":2,"index":1,"node":4},{"op":"insert","parent":3,"index":0,"node":5},{"op":"pass"},
  {"op":"set","node":3,"attrs":{"live":null}},{"op":"set","node":5,"attrs":{"name":"x"}},{"op":"pass"}]}]}"#,
        r#"finale
f1 root 1 ok
f1 insert 2 ok
f1 insert 3 ok
f1 insert 4 ok
f1 insert 5 ok
f1 pass 1 base 0 token 0
  u clear 0 root 1 list 1 2 3 5 4 data
f1 set 3 ok
f1 set 5 ok
f1 pass 2 base 1 token 0
  u clear 0 root 0 list 3 5
a1 applied 1
  e 1:1 subtree_created
a1 applied 2
  e 1:2 live_region_changed
  e 1:3 live_status_changed
  e 1:5 name_changed
dump
tree 1 parent 0 focused 0 loaded no focus 0 sel 0 0 0 0 title "" url ""
1 generic
  2 generic live="polite"
    3 generic
      5 generic name="x"
    4 generic
"#,
    ),
];

#[test]
fn receipts_tell_what_changed(rt: HostRuntime) {
    for (name, script, text) in STORIES {
        assert!(rt; is_told(rt.alloc(), script, text), "{name}");
    }
}
