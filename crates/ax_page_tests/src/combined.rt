//! The combined tree behind the dump: one tree with fresh ids for all trees that are shown.

use crate::story::{Story, is_combined};

const STORIES: [Story; 6] = [
    // The second tree hangs below the last node of the first.
    (
        "two trees are one",
        r#"{"version":1,"frames":[
 {"tree":1,"ops":[
  {"op":"root","node":1},{"op":"insert","parent":1,"index":0,"node":2,"attrs":{"name":"abé"}},{"op":"insert","parent":1,"index":1,"node":3,"role":"iframe","attrs":{"child_tree":2}},{"op":"pass"}]},
 {"tree":2,"ops":[
  {"op":"data","parent":1},{"op":"root","node":1,"attrs":{"name":"c"}},{"op":"pass"}]}]}"#,
        r#"finale
f1 root 1 ok
f1 insert 2 ok
f1 insert 3 ok
f1 pass 1 base 0 token 0
  u clear 0 root 1 list 1 2 3 data
f2 data ok
f2 root 1 ok
f2 pass 1 base 0 token 0
  u clear 0 root 1 list 1 data
a1 applied 1
  e 1:1 subtree_created
a2 applied 1
  e 2:1 subtree_created
dump
tree 1 parent 0 focused 0 loaded no focus 0 sel 0 0 0 0 title "" url ""
1 generic
  2 generic name="abé"
  3 iframe child_tree=2
tree 2 parent 1 focused 0 loaded no focus 0 sel 0 0 0 0 title "" url ""
1 generic name="c"
combined
tree 1 parent 0 focused 0 loaded no focus 0 sel 0 0 0 0 title "" url ""
1 under 0 from 1:1 generic
2 under 1 from 1:2 generic name="abé"
3 under 1 from 1:3 iframe
4 under 3 from 2:1 generic name="c"
"#,
    ),
    // Nothing is shown where the first tree has ended.
    (
        "the first tree is gone",
        r#"{"version":1,"frames":[
 {"tree":1,"ops":[
  {"op":"root","node":1},{"op":"insert","parent":1,"index":0,"node":2,"attrs":{"name":"abé"}},{"op":"insert","parent":1,"index":1,"node":3,"role":"iframe","attrs":{"child_tree":2}},{"op":"pass"}]},
 {"tree":2,"ops":[
  {"op":"data","parent":1},{"op":"root","node":1,"attrs":{"name":"c"}},{"op":"pass"}]}],
"browser":[{"op":"destroy","tree":1}]}"#,
        r#"finale
f1 root 1 ok
f1 insert 2 ok
f1 insert 3 ok
f1 pass 1 base 0 token 0
  u clear 0 root 1 list 1 2 3 data
f2 data ok
f2 root 1 ok
f2 pass 1 base 0 token 0
  u clear 0 root 1 list 1 data
a1 applied 1
  e 1:1 subtree_created
a2 applied 1
  e 2:1 subtree_created
b destroy 1 ok
dump
tree 1 gone
tree 2 parent 1 focused 0 loaded no focus 0 sel 0 0 0 0 title "" url ""
1 generic name="c"
combined
tree 1 empty
"#,
    ),
    // What hangs at the host is numbered before its later sibling, where nothing hangs any more.
    (
        "a host has a later sibling",
        r#"{"version":1,"frames":[
{"tree":1,"ops":[
{"op":"data","title":"News","url":"https://news.example/"},
{"op":"root","node":1,"role":"root_web_area","rect":[0,0,800,600]},
{"op":"insert","parent":1,"index":0,"node":2,"role":"heading","attrs":{"name":"Storm"},"rect":[0,0,800,40]},
{"op":"insert","parent":1,"index":1,"node":3,"role":"status","attrs":{"live":"polite"},"rect":[0,40,800,20]},
{"op":"insert","parent":3,"index":0,"node":4,"role":"static_text","attrs":{"name":"0 new"},"rect":[0,40,800,20]},
{"op":"insert","parent":1,"index":2,"node":5,"role":"iframe","attrs":{"child_tree":2},"rect":[600,60,200,200]},
{"op":"insert","parent":1,"index":3,"node":6,"role":"iframe","attrs":{"child_tree":3},"rect":[600,260,200,200]},
{"op":"pass"},
{"op":"set","node":4,"attrs":{"name":"1 new"}},
{"op":"data","loaded":true,"focus":2},
{"op":"pass"}]},
{"tree":2,"ops":[{"op":"data","parent":1},
{"op":"root","node":1,"role":"button","attrs":{"name":"Buy"},"rect":[600,60,200,200]},
{"op":"pass"}]},
{"tree":3,"ops":[{"op":"data","parent":1},
{"op":"root","node":1,"rect":[600,260,200,200]},
{"op":"insert","parent":1,"index":0,"node":2,"role":"link","attrs":{"name":"Ad"},"rect":[600,260,100,20]},
{"op":"pass"}]}],
"browser":[{"op":"destroy","tree":3,"after":4}],
"readers":[[{"q":"hit","x":650,"y":270,"after":3}],[{"q":"focus","after":4}],
[{"q":"text","at":{"tree":1,"node":2,"offset":0},"to":{"tree":3,"node":2,"offset":2}}]],
"order":"f1 f1 f1 f1 f1 f1 f1 f1 a1 f2 f2 f2 a2 f3 f3 f3 f3 a3 r1 f1 f1 f1 a1 r2 r3 b"}"#,
        r#"f1 data ok
f1 root 1 ok
f1 insert 2 ok
f1 insert 3 ok
f1 insert 4 ok
f1 insert 5 ok
f1 insert 6 ok
f1 pass 1 base 0 token 0
  u clear 0 root 1 list 1 2 3 4 5 6 data
a1 applied 1
  e 1 document_title_changed
  e 1 url_changed
  e 1:1 subtree_created
f2 data ok
f2 root 1 ok
f2 pass 1 base 0 token 0
  u clear 0 root 1 list 1 data
a2 applied 1
  e 2:1 subtree_created
f3 data ok
f3 root 1 ok
f3 insert 2 ok
f3 pass 1 base 0 token 0
  u clear 0 root 1 list 1 2 data
a3 applied 1
  e 3:1 subtree_created
r1 hit = 3:2
f1 set 4 ok
f1 data ok
f1 pass 2 base 1 token 0
  u clear 0 root 0 list 4 data
a1 applied 2
  e 1 load_complete
  e 1:2 focus_changed
  e 1:3 live_region_changed
  e 1:4 name_changed
r2 focus = 1:2
r3 text = "Storm1 newBuyAd"
b destroy 3 ok
finale
dump
tree 1 parent 0 focused 0 loaded yes focus 2 sel 0 0 0 0 title "News" url "https://news.example/"
1 root_web_area [0,0,800,600]
  2 heading [0,0,800,40] name="Storm"
  3 status [0,40,800,20] live="polite"
    4 static_text [0,40,800,20] name="1 new"
  5 iframe [600,60,200,200] child_tree=2
  6 iframe [600,260,200,200] child_tree=3
tree 2 parent 1 focused 0 loaded no focus 0 sel 0 0 0 0 title "" url ""
1 button [600,60,200,200] name="Buy"
tree 3 gone
combined
tree 1 parent 0 focused 0 loaded yes focus 2 sel 0 0 0 0 title "News" url "https://news.example/"
1 under 0 from 1:1 root_web_area [0,0,800,600]
2 under 1 from 1:2 heading [0,0,800,40] name="Storm"
3 under 1 from 1:3 status [0,40,800,20] live="polite"
4 under 3 from 1:4 static_text [0,40,800,20] name="1 new"
5 under 1 from 1:5 iframe [600,60,200,200]
6 under 5 from 2:1 button [600,60,200,200] name="Buy"
7 under 1 from 1:6 iframe [600,260,200,200]
"#,
    ),
    // A value that names a node of its own tree has that node's number; one that names no node of it, or a tree, goes. The focus is the inner one.
    (
        "ids are numbered anew",
        r#"{"version":1,"frames":[
 {"tree":1,"ops":[
  {"op":"root","node":1,"role":"root_web_area"},
  {"op":"insert","parent":1,"index":0,"node":2,"attrs":{"active_descendant":4,"name":"kept"}},
  {"op":"insert","parent":1,"index":1,"node":3,"role":"iframe","attrs":{"child_tree":2,"active_descendant":9}},
  {"op":"insert","parent":2,"index":0,"node":4,"states":["focusable"],"rect":[1,2,3,4]},
  {"op":"insert","parent":1,"index":2,"node":7,"role":"iframe","attrs":{"child_tree":3}},
  {"op":"data","focus":3,"focused":2,"sel":[4,0,7,1],"title":"t","url":"u","loaded":true},{"op":"pass"}]},
 {"tree":2,"ops":[
  {"op":"root","node":5,"attrs":{"active_descendant":4}},{"op":"insert","parent":5,"index":0,"node":4,"attrs":{"active_descendant":5}},
  {"op":"data","parent":1,"focus":4},{"op":"pass"}]},
 {"tree":3,"ops":[
  {"op":"root","node":1},{"op":"data","parent":1},{"op":"pass"}]}],
"browser":[{"op":"destroy","tree":3}]}"#,
        r#"finale
f1 root 1 ok
f1 insert 2 ok
f1 insert 3 ok
f1 insert 4 ok
f1 insert 7 ok
f1 data ok
f1 pass 1 base 0 token 0
  u clear 0 root 1 list 1 2 4 3 7 data
f2 root 5 ok
f2 insert 4 ok
f2 data ok
f2 pass 1 base 0 token 0
  u clear 0 root 5 list 5 4 data
f3 root 1 ok
f3 data ok
f3 pass 1 base 0 token 0
  u clear 0 root 1 list 1 data
a1 applied 1
  e 1 document_title_changed
  e 1 url_changed
  e 1 load_complete
  e 1 selection_changed
  e 1:3 focus_changed
  e 1:1 subtree_created
a2 applied 1
  e 2:4 focus_changed
  e 2:5 subtree_created
a3 applied 1
  e 3:1 subtree_created
b destroy 3 ok
dump
tree 1 parent 0 focused 2 loaded yes focus 3 sel 4 0 7 1 title "t" url "u"
1 root_web_area
  2 generic name="kept" active_descendant=4
    4 generic [1,2,3,4] +focusable
  3 iframe child_tree=2 active_descendant=9
  7 iframe child_tree=3
tree 2 parent 1 focused 0 loaded no focus 4 sel 0 0 0 0 title "" url ""
5 generic active_descendant=4
  4 generic active_descendant=5
tree 3 gone
combined
tree 1 parent 0 focused 0 loaded yes focus 5 sel 3 0 7 1 title "t" url "u"
1 under 0 from 1:1 root_web_area
2 under 1 from 1:2 generic name="kept" active_descendant=3
3 under 2 from 1:4 generic [1,2,3,4] +focusable
4 under 1 from 1:3 iframe
5 under 4 from 2:5 generic active_descendant=6
6 under 5 from 2:4 generic active_descendant=5
7 under 1 from 1:7 iframe
"#,
    ),
    // The second tree isn't shown, since it hangs nowhere.
    (
        "the first tree has no root",
        r#"{"version":1,"frames":[
 {"tree":4,"ops":[{"op":"data","title":"no root"},{"op":"pass"}]},
 {"tree":2,"ops":[{"op":"root","node":1},{"op":"pass"}]}]}"#,
        r#"finale
f4 data ok
f4 pass nothing
f2 root 1 ok
f2 pass 1 base 0 token 0
  u clear 0 root 1 list 1 data
a2 applied 1
  e 2:1 subtree_created
dump
tree 4 empty
tree 2 parent 0 focused 0 loaded no focus 0 sel 0 0 0 0 title "" url ""
1 generic
combined
tree 4 empty
"#,
    ),
    // The node of the anchor and of the focus has gone.
    (
        "an end of the selection goes",
        r#"{"version":1,"frames":[
 {"tree":1,"ops":[
  {"op":"root","node":1},{"op":"insert","parent":1,"index":0,"node":2},{"op":"insert","parent":1,"index":1,"node":3},
  {"op":"insert","parent":3,"index":0,"node":4},
  {"op":"data","sel":[2,1,4,2],"focus":2},{"op":"pass"},
  {"op":"remove","node":2},{"op":"pass"}]}],
"order":"f1 f1 f1 f1 f1 f1 a1 f1"}"#,
        r#"f1 root 1 ok
f1 insert 2 ok
f1 insert 3 ok
f1 insert 4 ok
f1 data ok
f1 pass 1 base 0 token 0
  u clear 0 root 1 list 1 2 3 4 data
a1 applied 1
  e 1 selection_changed
  e 1:2 focus_changed
  e 1:1 subtree_created
f1 remove 2 ok
finale
f1 pass 2 base 1 token 0
  u clear 0 root 0 list 1
a1 applied 2
  e 1:1 children_changed
dump
tree 1 parent 0 focused 0 loaded no focus 2 sel 2 1 4 2 title "" url ""
1 generic
  3 generic
    4 generic
combined
tree 1 parent 0 focused 0 loaded no focus 0 sel 0 0 3 2 title "" url ""
1 under 0 from 1:1 generic
2 under 1 from 1:3 generic
3 under 2 from 1:4 generic
"#,
    ),
];

#[test]
fn trees_are_combined(rt: HostRuntime) {
    for (name, script, text) in STORIES {
        assert!(rt; is_combined(rt.alloc(), script, text), "{name}");
    }
}
