//! Positions and moves. The first two stories stand on a page of three trees with empty leaves in runs, a family that is joined to one
//! character of seven scalars, and a conjunct that is one of four; a fourth tree has ended. The others stand on two worked pages.

use crate::story::{Story, is_told};

const STORIES: [Story; 4] = [
    // Readers 1 and 2 ask for the leaf form of each offset of the document, downstream and upstream, 3 for offsets before the children of the root
    // and of a host, 4 for forms before children, 5 for forms on the place above, 6 for order at one offset, 7 for the text through three trees,
    // and 8 for what is refused.
    (
        "each offset has a form on either side",
        r#"{"version":1,"frames":[
 {"tree":1,"ops":[
  {"op":"root","node":1},{"op":"insert","parent":1,"index":0,"node":2},
  {"op":"insert","parent":1,"index":1,"node":3,"attrs":{"name":"ab c"}},
  {"op":"insert","parent":1,"index":2,"node":4,"attrs":{"child_tree":2}},
  {"op":"insert","parent":1,"index":3,"node":5},
  {"op":"insert","parent":1,"index":4,"node":6,"attrs":{"child_tree":3}},
  {"op":"insert","parent":1,"index":5,"node":7},{"op":"insert","parent":1,"index":6,"node":8,"attrs":{"name":"  "}},
  {"op":"pass"}]},
 {"tree":2,"ops":[
  {"op":"data","parent":1},{"op":"root","node":1},
  {"op":"insert","parent":1,"index":0,"node":2,"attrs":{"name":"\ud83d\udc68\u200d\ud83d\udc69\u200d\ud83d\udc67\u200d\ud83d\udc66"}},
  {"op":"insert","parent":1,"index":1,"node":3},
  {"op":"insert","parent":1,"index":2,"node":4,"attrs":{"name":"\u0915\u094d\u0937\u093f"}},{"op":"pass"}]},
 {"tree":3,"ops":[
  {"op":"data","parent":1},{"op":"root","node":1,"attrs":{"name":"z\r\ny"}},{"op":"pass"}]},
 {"tree":4,"ops":[
  {"op":"root","node":1},{"op":"pass"}]}],
"browser":[
 {"op":"destroy","tree":4}],
"readers":[
 [{"q":"leaf","at":{"tree":1,"node":1,"offset":0}},{"q":"leaf","at":{"tree":1,"node":1,"offset":1}},
  {"q":"leaf","at":{"tree":1,"node":1,"offset":2}},{"q":"leaf","at":{"tree":1,"node":1,"offset":3}},
  {"q":"leaf","at":{"tree":1,"node":1,"offset":4}},{"q":"leaf","at":{"tree":1,"node":1,"offset":5}},
  {"q":"leaf","at":{"tree":1,"node":1,"offset":6}},{"q":"leaf","at":{"tree":1,"node":1,"offset":7}},
  {"q":"leaf","at":{"tree":1,"node":1,"offset":8}},{"q":"leaf","at":{"tree":1,"node":1,"offset":9}},
  {"q":"leaf","at":{"tree":1,"node":1,"offset":10}},{"q":"leaf","at":{"tree":1,"node":1,"offset":11}},
  {"q":"leaf","at":{"tree":1,"node":1,"offset":12}},{"q":"leaf","at":{"tree":1,"node":1,"offset":13}},
  {"q":"leaf","at":{"tree":1,"node":1,"offset":14}},{"q":"leaf","at":{"tree":1,"node":1,"offset":15}},
  {"q":"leaf","at":{"tree":1,"node":1,"offset":16}},{"q":"leaf","at":{"tree":1,"node":1,"offset":17}},
  {"q":"leaf","at":{"tree":1,"node":1,"offset":18}},{"q":"leaf","at":{"tree":1,"node":1,"offset":19}},
  {"q":"leaf","at":{"tree":1,"node":1,"offset":20}},{"q":"leaf","at":{"tree":1,"node":1,"offset":21}}],
 [{"q":"leaf","at":{"tree":1,"node":1,"offset":0,"affinity":"up"}},
  {"q":"leaf","at":{"tree":1,"node":1,"offset":1,"affinity":"up"}},
  {"q":"leaf","at":{"tree":1,"node":1,"offset":2,"affinity":"up"}},
  {"q":"leaf","at":{"tree":1,"node":1,"offset":3,"affinity":"up"}},
  {"q":"leaf","at":{"tree":1,"node":1,"offset":4,"affinity":"up"}},
  {"q":"leaf","at":{"tree":1,"node":1,"offset":5,"affinity":"up"}},
  {"q":"leaf","at":{"tree":1,"node":1,"offset":6,"affinity":"up"}},
  {"q":"leaf","at":{"tree":1,"node":1,"offset":7,"affinity":"up"}},
  {"q":"leaf","at":{"tree":1,"node":1,"offset":8,"affinity":"up"}},
  {"q":"leaf","at":{"tree":1,"node":1,"offset":9,"affinity":"up"}},
  {"q":"leaf","at":{"tree":1,"node":1,"offset":10,"affinity":"up"}},
  {"q":"leaf","at":{"tree":1,"node":1,"offset":11,"affinity":"up"}},
  {"q":"leaf","at":{"tree":1,"node":1,"offset":12,"affinity":"up"}},
  {"q":"leaf","at":{"tree":1,"node":1,"offset":13,"affinity":"up"}},
  {"q":"leaf","at":{"tree":1,"node":1,"offset":14,"affinity":"up"}},
  {"q":"leaf","at":{"tree":1,"node":1,"offset":15,"affinity":"up"}},
  {"q":"leaf","at":{"tree":1,"node":1,"offset":16,"affinity":"up"}},
  {"q":"leaf","at":{"tree":1,"node":1,"offset":17,"affinity":"up"}},
  {"q":"leaf","at":{"tree":1,"node":1,"offset":18,"affinity":"up"}},
  {"q":"leaf","at":{"tree":1,"node":1,"offset":19,"affinity":"up"}},
  {"q":"leaf","at":{"tree":1,"node":1,"offset":20,"affinity":"up"}},
  {"q":"leaf","at":{"tree":1,"node":1,"offset":21,"affinity":"up"}}],
 [{"q":"offset","at":{"tree":1,"node":1,"child":0}},{"q":"offset","at":{"tree":1,"node":1,"child":1}},
  {"q":"offset","at":{"tree":1,"node":1,"child":2}},{"q":"offset","at":{"tree":1,"node":1,"child":3}},
  {"q":"offset","at":{"tree":1,"node":1,"child":4}},{"q":"offset","at":{"tree":1,"node":1,"child":5}},
  {"q":"offset","at":{"tree":1,"node":1,"child":6}},{"q":"offset","at":{"tree":1,"node":1,"child":7}},
  {"q":"offset","at":{"tree":1,"node":1,"child":8}},{"q":"offset","at":{"tree":1,"node":4,"child":0}},
  {"q":"offset","at":{"tree":1,"node":4,"child":1}},{"q":"offset","at":{"tree":1,"node":4,"child":2}}],
 [{"q":"leaf","at":{"tree":1,"node":1,"child":3}},{"q":"leaf","at":{"tree":1,"node":1,"child":7}},
  {"q":"leaf","at":{"tree":2,"node":1,"child":1}}],
 [{"q":"up","at":{"tree":2,"node":1,"offset":3}},{"q":"up","at":{"tree":2,"node":4,"offset":1,"affinity":"up"}}],
 [{"q":"compare","at":{"tree":1,"node":3,"offset":4},"to":{"tree":2,"node":2,"offset":0,"affinity":"up"}},
  {"q":"compare","at":{"tree":2,"node":1,"offset":0},"to":{"tree":1,"node":4,"offset":0}},
  {"q":"compare","at":{"tree":1,"node":5,"offset":0,"affinity":"up"},"to":{"tree":1,"node":5,"offset":0}},
  {"q":"compare","at":{"tree":1,"node":5,"offset":0},"to":{"tree":1,"node":5,"offset":0}}],
 [{"q":"text","at":{"tree":3,"node":1,"offset":1},"to":{"tree":1,"node":3,"offset":3}}],
 [{"q":"offset","at":{"tree":1,"node":3,"offset":4,"affinity":"up"}},
  {"q":"offset","at":{"tree":4,"node":1,"child":1}},{"q":"offset","at":{"tree":1,"node":9,"offset":0}},
  {"q":"leaf","at":{"tree":2,"node":4,"offset":5}},{"q":"leaf","at":{"tree":1,"node":1,"offset":22}}]]}"#,
        "finale
f1 root 1 ok
f1 insert 2 ok
f1 insert 3 ok
f1 insert 4 ok
f1 insert 5 ok
f1 insert 6 ok
f1 insert 7 ok
f1 insert 8 ok
f1 pass 1 base 0 token 0
  u clear 0 root 1 list 1 2 3 4 5 6 7 8 data
f2 data ok
f2 root 1 ok
f2 insert 2 ok
f2 insert 3 ok
f2 insert 4 ok
f2 pass 1 base 0 token 0
  u clear 0 root 1 list 1 2 3 4 data
f3 data ok
f3 root 1 ok
f3 pass 1 base 0 token 0
  u clear 0 root 1 list 1 data
f4 root 1 ok
f4 pass 1 base 0 token 0
  u clear 0 root 1 list 1 data
a1 applied 1
  e 1:1 subtree_created
a2 applied 1
  e 2:1 subtree_created
a3 applied 1
  e 3:1 subtree_created
a4 applied 1
  e 4:1 subtree_created
b destroy 4 ok
r1 leaf = 1:3 text 0 down
r1 leaf = 1:3 text 1 down
r1 leaf = 1:3 text 2 down
r1 leaf = 1:3 text 3 down
r1 leaf = 2:2 text 0 down
r1 leaf = 2:2 text 1 down
r1 leaf = 2:2 text 2 down
r1 leaf = 2:2 text 3 down
r1 leaf = 2:2 text 4 down
r1 leaf = 2:2 text 5 down
r1 leaf = 2:2 text 6 down
r1 leaf = 2:4 text 0 down
r1 leaf = 2:4 text 1 down
r1 leaf = 2:4 text 2 down
r1 leaf = 2:4 text 3 down
r1 leaf = 3:1 text 0 down
r1 leaf = 3:1 text 1 down
r1 leaf = 3:1 text 2 down
r1 leaf = 3:1 text 3 down
r1 leaf = 1:8 text 0 down
r1 leaf = 1:8 text 1 down
r1 leaf = 1:8 text 2 down
r2 leaf = 1:2 text 0 up
r2 leaf = 1:3 text 1 up
r2 leaf = 1:3 text 2 up
r2 leaf = 1:3 text 3 up
r2 leaf = 1:3 text 4 up
r2 leaf = 2:2 text 1 up
r2 leaf = 2:2 text 2 up
r2 leaf = 2:2 text 3 up
r2 leaf = 2:2 text 4 up
r2 leaf = 2:2 text 5 up
r2 leaf = 2:2 text 6 up
r2 leaf = 2:2 text 7 up
r2 leaf = 2:4 text 1 up
r2 leaf = 2:4 text 2 up
r2 leaf = 2:4 text 3 up
r2 leaf = 2:4 text 4 up
r2 leaf = 3:1 text 1 up
r2 leaf = 3:1 text 2 up
r2 leaf = 3:1 text 3 up
r2 leaf = 3:1 text 4 up
r2 leaf = 1:8 text 1 up
r2 leaf = 1:8 text 2 up
r3 offset = 0
r3 offset = 0
r3 offset = 4
r3 offset = 15
r3 offset = 15
r3 offset = 19
r3 offset = 19
r3 offset = 21
r3 offset = BadIndex 8 7
r3 offset = 4
r3 offset = 15
r3 offset = BadIndex 2 1
r4 leaf = 3:1 text 0 down
r4 leaf = 1:8 text 2 down
r4 leaf = 2:4 text 0 down
r5 up = 1:4 text 3 down
r5 up = 2:1 text 8 up
r6 compare = Less
r6 compare = Greater
r6 compare = Less
r6 compare = Equal
r7 text = \"c\u{1f468}\u{200d}\u{1f469}\u{200d}\u{1f467}\u{200d}\u{1f466}\u{915}\u{94d}\u{937}\u{93f}z\"
r8 offset = 4
r8 offset = NoTree
r8 offset = NoNode
r8 leaf = BadOffset 5 4
r8 leaf = BadOffset 22 21
dump
tree 1 parent 0 focused 0 loaded no focus 0 sel 0 0 0 0 title \"\" url \"\"
1 generic
  2 generic
  3 generic name=\"ab c\"
  4 generic child_tree=2
  5 generic
  6 generic child_tree=3
  7 generic
  8 generic name=\"  \"
tree 2 parent 1 focused 0 loaded no focus 0 sel 0 0 0 0 title \"\" url \"\"
1 generic
  2 generic name=\"\u{1f468}\u{200d}\u{1f469}\u{200d}\u{1f467}\u{200d}\u{1f466}\"
  3 generic
  4 generic name=\"\u{915}\u{94d}\u{937}\u{93f}\"
tree 3 parent 1 focused 0 loaded no focus 0 sel 0 0 0 0 title \"\" url \"\"
1 generic name=\"z\\r\\ny\"
tree 4 gone
",
    ),
    // Readers 1 and 2 go by characters from the start to the end and back, 3 and 4 by words, 5 and 6 by leaves, and 7 from within a character,
    // from behind the last bound, and from behind the end.
    (
        "moves to both ends and back",
        r#"{"version":1,"frames":[
 {"tree":1,"ops":[
  {"op":"root","node":1},{"op":"insert","parent":1,"index":0,"node":2},
  {"op":"insert","parent":1,"index":1,"node":3,"attrs":{"name":"ab c"}},
  {"op":"insert","parent":1,"index":2,"node":4,"attrs":{"child_tree":2}},
  {"op":"insert","parent":1,"index":3,"node":5},
  {"op":"insert","parent":1,"index":4,"node":6,"attrs":{"child_tree":3}},
  {"op":"insert","parent":1,"index":5,"node":7},{"op":"insert","parent":1,"index":6,"node":8,"attrs":{"name":"  "}},
  {"op":"pass"}]},
 {"tree":2,"ops":[
  {"op":"data","parent":1},{"op":"root","node":1},
  {"op":"insert","parent":1,"index":0,"node":2,"attrs":{"name":"\ud83d\udc68\u200d\ud83d\udc69\u200d\ud83d\udc67\u200d\ud83d\udc66"}},
  {"op":"insert","parent":1,"index":1,"node":3},
  {"op":"insert","parent":1,"index":2,"node":4,"attrs":{"name":"\u0915\u094d\u0937\u093f"}},{"op":"pass"}]},
 {"tree":3,"ops":[
  {"op":"data","parent":1},{"op":"root","node":1,"attrs":{"name":"z\r\ny"}},{"op":"pass"}]},
 {"tree":4,"ops":[
  {"op":"root","node":1},{"op":"pass"}]}],
"browser":[
 {"op":"destroy","tree":4}],
"readers":[
 [{"q":"move","at":{"tree":1,"node":1,"offset":0},"unit":"char","way":"next"},
  {"q":"move","at":{"tree":1,"node":1,"offset":1},"unit":"char","way":"next"},
  {"q":"move","at":{"tree":1,"node":1,"offset":2},"unit":"char","way":"next"},
  {"q":"move","at":{"tree":1,"node":1,"offset":3},"unit":"char","way":"next"},
  {"q":"move","at":{"tree":1,"node":1,"offset":4},"unit":"char","way":"next"},
  {"q":"move","at":{"tree":1,"node":1,"offset":11},"unit":"char","way":"next"},
  {"q":"move","at":{"tree":1,"node":1,"offset":15},"unit":"char","way":"next"},
  {"q":"move","at":{"tree":1,"node":1,"offset":16},"unit":"char","way":"next"},
  {"q":"move","at":{"tree":1,"node":1,"offset":18},"unit":"char","way":"next"},
  {"q":"move","at":{"tree":1,"node":1,"offset":19},"unit":"char","way":"next"},
  {"q":"move","at":{"tree":1,"node":1,"offset":20},"unit":"char","way":"next"},
  {"q":"move","at":{"tree":1,"node":1,"offset":21},"unit":"char","way":"next"}],
 [{"q":"move","at":{"tree":1,"node":1,"offset":21},"unit":"char","way":"prev"},
  {"q":"move","at":{"tree":1,"node":1,"offset":20},"unit":"char","way":"prev"},
  {"q":"move","at":{"tree":1,"node":1,"offset":19},"unit":"char","way":"prev"},
  {"q":"move","at":{"tree":1,"node":1,"offset":18},"unit":"char","way":"prev"},
  {"q":"move","at":{"tree":1,"node":1,"offset":16},"unit":"char","way":"prev"},
  {"q":"move","at":{"tree":1,"node":1,"offset":15},"unit":"char","way":"prev"},
  {"q":"move","at":{"tree":1,"node":1,"offset":11},"unit":"char","way":"prev"},
  {"q":"move","at":{"tree":1,"node":1,"offset":4},"unit":"char","way":"prev"},
  {"q":"move","at":{"tree":1,"node":1,"offset":3},"unit":"char","way":"prev"},
  {"q":"move","at":{"tree":1,"node":1,"offset":2},"unit":"char","way":"prev"},
  {"q":"move","at":{"tree":1,"node":1,"offset":1},"unit":"char","way":"prev"},
  {"q":"move","at":{"tree":1,"node":1,"offset":0},"unit":"char","way":"prev"}],
 [{"q":"move","at":{"tree":1,"node":1,"offset":0},"unit":"word","way":"next"},
  {"q":"move","at":{"tree":1,"node":1,"offset":3},"unit":"word","way":"next"},
  {"q":"move","at":{"tree":1,"node":1,"offset":4},"unit":"word","way":"next"},
  {"q":"move","at":{"tree":1,"node":1,"offset":11},"unit":"word","way":"next"},
  {"q":"move","at":{"tree":1,"node":1,"offset":15},"unit":"word","way":"next"},
  {"q":"move","at":{"tree":1,"node":1,"offset":18},"unit":"word","way":"next"}],
 [{"q":"move","at":{"tree":1,"node":1,"offset":21},"unit":"word","way":"prev"},
  {"q":"move","at":{"tree":1,"node":1,"offset":18},"unit":"word","way":"prev"},
  {"q":"move","at":{"tree":1,"node":1,"offset":15},"unit":"word","way":"prev"},
  {"q":"move","at":{"tree":1,"node":1,"offset":11},"unit":"word","way":"prev"},
  {"q":"move","at":{"tree":1,"node":1,"offset":4},"unit":"word","way":"prev"},
  {"q":"move","at":{"tree":1,"node":1,"offset":3},"unit":"word","way":"prev"},
  {"q":"move","at":{"tree":1,"node":1,"offset":0},"unit":"word","way":"prev"}],
 [{"q":"move","at":{"tree":1,"node":1,"offset":0},"unit":"leaf","way":"next"},
  {"q":"move","at":{"tree":1,"node":1,"offset":4},"unit":"leaf","way":"next"},
  {"q":"move","at":{"tree":1,"node":1,"offset":11},"unit":"leaf","way":"next"},
  {"q":"move","at":{"tree":1,"node":1,"offset":15},"unit":"leaf","way":"next"},
  {"q":"move","at":{"tree":1,"node":1,"offset":19},"unit":"leaf","way":"next"}],
 [{"q":"move","at":{"tree":1,"node":1,"offset":21},"unit":"leaf","way":"prev"},
  {"q":"move","at":{"tree":1,"node":1,"offset":19},"unit":"leaf","way":"prev"},
  {"q":"move","at":{"tree":1,"node":1,"offset":15},"unit":"leaf","way":"prev"},
  {"q":"move","at":{"tree":1,"node":1,"offset":11},"unit":"leaf","way":"prev"},
  {"q":"move","at":{"tree":1,"node":1,"offset":4},"unit":"leaf","way":"prev"},
  {"q":"move","at":{"tree":1,"node":1,"offset":0},"unit":"leaf","way":"prev"}],
 [{"q":"move","at":{"tree":1,"node":1,"offset":7},"unit":"char","way":"next"},
  {"q":"move","at":{"tree":1,"node":1,"offset":7},"unit":"char","way":"prev"},
  {"q":"move","at":{"tree":1,"node":1,"offset":17},"unit":"char","way":"next"},
  {"q":"move","at":{"tree":1,"node":1,"offset":17},"unit":"char","way":"prev"},
  {"q":"move","at":{"tree":1,"node":1,"offset":20},"unit":"word","way":"next"},
  {"q":"move","at":{"tree":1,"node":1,"offset":20},"unit":"word","way":"prev"},
  {"q":"move","at":{"tree":1,"node":1,"offset":15},"unit":"leaf","way":"next"},
  {"q":"move","at":{"tree":1,"node":1,"offset":15},"unit":"leaf","way":"prev"},
  {"q":"move","at":{"tree":1,"node":1,"offset":99},"unit":"char","way":"next"},
  {"q":"move","at":{"tree":1,"node":1,"offset":99},"unit":"char","way":"prev"}]]}"#,
        "finale
f1 root 1 ok
f1 insert 2 ok
f1 insert 3 ok
f1 insert 4 ok
f1 insert 5 ok
f1 insert 6 ok
f1 insert 7 ok
f1 insert 8 ok
f1 pass 1 base 0 token 0
  u clear 0 root 1 list 1 2 3 4 5 6 7 8 data
f2 data ok
f2 root 1 ok
f2 insert 2 ok
f2 insert 3 ok
f2 insert 4 ok
f2 pass 1 base 0 token 0
  u clear 0 root 1 list 1 2 3 4 data
f3 data ok
f3 root 1 ok
f3 pass 1 base 0 token 0
  u clear 0 root 1 list 1 data
f4 root 1 ok
f4 pass 1 base 0 token 0
  u clear 0 root 1 list 1 data
a1 applied 1
  e 1:1 subtree_created
a2 applied 1
  e 2:1 subtree_created
a3 applied 1
  e 3:1 subtree_created
a4 applied 1
  e 4:1 subtree_created
b destroy 4 ok
r1 move = 1:3 text 1 down
r1 move = 1:3 text 2 down
r1 move = 1:3 text 3 down
r1 move = 2:2 text 0 down
r1 move = 2:4 text 0 down
r1 move = 3:1 text 0 down
r1 move = 3:1 text 1 down
r1 move = 3:1 text 3 down
r1 move = 1:8 text 0 down
r1 move = 1:8 text 1 down
r1 move = 1:8 text 2 down
r1 move = AtEnd
r2 move = 1:8 text 1 down
r2 move = 1:8 text 0 down
r2 move = 3:1 text 3 down
r2 move = 3:1 text 1 down
r2 move = 3:1 text 0 down
r2 move = 2:4 text 0 down
r2 move = 2:2 text 0 down
r2 move = 1:3 text 3 down
r2 move = 1:3 text 2 down
r2 move = 1:3 text 1 down
r2 move = 1:3 text 0 down
r2 move = AtStart
r3 move = 1:3 text 3 down
r3 move = 2:2 text 0 down
r3 move = 2:4 text 0 down
r3 move = 3:1 text 0 down
r3 move = 3:1 text 3 down
r3 move = AtEnd
r4 move = 3:1 text 3 down
r4 move = 3:1 text 0 down
r4 move = 2:4 text 0 down
r4 move = 2:2 text 0 down
r4 move = 1:3 text 3 down
r4 move = 1:3 text 0 down
r4 move = AtStart
r5 move = 2:2 text 0 down
r5 move = 2:4 text 0 down
r5 move = 3:1 text 0 down
r5 move = 1:8 text 0 down
r5 move = AtEnd
r6 move = 1:8 text 0 down
r6 move = 3:1 text 0 down
r6 move = 2:4 text 0 down
r6 move = 2:2 text 0 down
r6 move = 1:3 text 0 down
r6 move = AtStart
r7 move = 2:4 text 0 down
r7 move = 2:2 text 0 down
r7 move = 3:1 text 3 down
r7 move = 3:1 text 1 down
r7 move = AtEnd
r7 move = 3:1 text 3 down
r7 move = 1:8 text 0 down
r7 move = 2:4 text 0 down
r7 move = BadOffset 99 21
r7 move = BadOffset 99 21
dump
tree 1 parent 0 focused 0 loaded no focus 0 sel 0 0 0 0 title \"\" url \"\"
1 generic
  2 generic
  3 generic name=\"ab c\"
  4 generic child_tree=2
  5 generic
  6 generic child_tree=3
  7 generic
  8 generic name=\"  \"
tree 2 parent 1 focused 0 loaded no focus 0 sel 0 0 0 0 title \"\" url \"\"
1 generic
  2 generic name=\"\u{1f468}\u{200d}\u{1f469}\u{200d}\u{1f467}\u{200d}\u{1f466}\"
  3 generic
  4 generic name=\"\u{915}\u{94d}\u{937}\u{93f}\"
tree 3 parent 1 focused 0 loaded no focus 0 sel 0 0 0 0 title \"\" url \"\"
1 generic name=\"z\\r\\ny\"
tree 4 gone
",
    ),
    // The end of one tree stands before the start of the next; characters and text run across, and an accent of its own stays with its letter.
    (
        "a tree that hangs behind a leaf",
        r#"{"version":1,"frames":[
 {"tree":1,"ops":[
  {"op":"root","node":1},{"op":"insert","parent":1,"index":0,"node":2,"attrs":{"name":"abe\u0301"}},
  {"op":"insert","parent":1,"index":1,"node":3,"attrs":{"child_tree":2}},{"op":"pass"}]},
 {"tree":2,"ops":[
  {"op":"data","parent":1},{"op":"root","node":1,"attrs":{"name":"c"}},{"op":"pass"}]}],
"readers":[
 [{"q":"compare","at":{"tree":1,"node":2,"offset":4,"affinity":"up"},"to":{"tree":2,"node":1,"offset":0}},
  {"q":"compare","at":{"tree":2,"node":1,"offset":0},"to":{"tree":1,"node":2,"offset":4,"affinity":"up"}}],
 [{"q":"move","at":{"tree":1,"node":2,"offset":2},"unit":"char","way":"next"},
  {"q":"move","at":{"tree":2,"node":1,"offset":0},"unit":"char","way":"next"},
  {"q":"move","at":{"tree":2,"node":1,"offset":1},"unit":"char","way":"next"},
  {"q":"move","at":{"tree":2,"node":1,"offset":0},"unit":"char","way":"prev"}],
 [{"q":"text","at":{"tree":1,"node":2,"offset":2},"to":{"tree":2,"node":1,"offset":1}},
  {"q":"text","at":{"tree":2,"node":1,"offset":1},"to":{"tree":1,"node":2,"offset":2}}]]}"#,
        "finale
f1 root 1 ok
f1 insert 2 ok
f1 insert 3 ok
f1 pass 1 base 0 token 0
  u clear 0 root 1 list 1 2 3 data
f2 data ok
f2 root 1 ok
f2 pass 1 base 0 token 0
  u clear 0 root 1 list 1 data
a1 applied 1
  e 1:1 subtree_created
a2 applied 1
  e 2:1 subtree_created
r1 compare = Less
r1 compare = Greater
r2 move = 2:1 text 0 down
r2 move = 2:1 text 1 down
r2 move = AtEnd
r2 move = 1:2 text 2 down
r3 text = \"e\u{301}c\"
r3 text = \"e\u{301}c\"
dump
tree 1 parent 0 focused 0 loaded no focus 0 sel 0 0 0 0 title \"\" url \"\"
1 generic
  2 generic name=\"abe\u{301}\"
  3 generic child_tree=2
tree 2 parent 1 focused 0 loaded no focus 0 sel 0 0 0 0 title \"\" url \"\"
1 generic name=\"c\"
",
    ),
    // An offset between leaves has two forms, above the first place there is none, words pass over an empty leaf, and offsets and null have their
    // refusals.
    (
        "leaves of one tree",
        r#"{"version":1,"frames":[
 {"tree":1,"ops":[
  {"op":"root","node":1},{"op":"insert","parent":1,"index":0,"node":2,"attrs":{"name":"one two"}},
  {"op":"insert","parent":1,"index":1,"node":3},{"op":"insert","parent":1,"index":2,"node":4,"attrs":{"name":"x"}},
  {"op":"pass"}]}],
"readers":[
 [{"q":"leaf","at":{"tree":1,"node":1,"offset":7,"affinity":"up"}},{"q":"leaf","at":{"tree":1,"node":1,"offset":7}}],
 [{"q":"up","at":{"tree":1,"node":4,"offset":1}},{"q":"up","at":{"tree":1,"node":1,"offset":0}}],
 [{"q":"offset","at":{"tree":1,"node":1,"child":2}},{"q":"offset","at":{"tree":1,"node":1,"child":4}},
  {"q":"offset","at":{"tree":1,"node":2,"offset":8}},{"q":"offset","at":null}],
 [{"q":"move","at":{"tree":1,"node":2,"offset":0},"unit":"word","way":"next"},
  {"q":"move","at":{"tree":1,"node":2,"offset":4},"unit":"word","way":"next"},
  {"q":"move","at":{"tree":1,"node":2,"offset":0},"unit":"leaf","way":"prev"},
  {"q":"move","at":{"tree":1,"node":2,"offset":4},"unit":"char","way":"prev"}]]}"#,
        r#"finale
f1 root 1 ok
f1 insert 2 ok
f1 insert 3 ok
f1 insert 4 ok
f1 pass 1 base 0 token 0
  u clear 0 root 1 list 1 2 3 4 data
a1 applied 1
  e 1:1 subtree_created
r1 leaf = 1:2 text 7 up
r1 leaf = 1:4 text 0 down
r2 up = 1:1 text 8 down
r2 up = NoParent
r3 offset = 7
r3 offset = BadIndex 4 3
r3 offset = BadOffset 8 7
r3 offset = NoTree
r4 move = 1:2 text 4 down
r4 move = 1:4 text 0 down
r4 move = AtStart
r4 move = 1:2 text 3 down
dump
tree 1 parent 0 focused 0 loaded no focus 0 sel 0 0 0 0 title "" url ""
1 generic
  2 generic name="one two"
  3 generic
  4 generic name="x"
"#,
    ),
];

#[test]
fn positions_and_moves_are_answered(rt: HostRuntime) {
    for (name, script, text) in STORIES {
        assert!(rt; is_told(rt.alloc(), script, text), "{name}");
    }
}
