//! Scripts and the text that a run of each prints.

use crate::given::{Given, ends};
use ax_top::Status;

/// Scripts and their texts, which come from a reference written apart. Edits and probes of one frame, one script with each kind of
/// value and all tree data, then scripts with frames that hang in one another, an order, a token that is asked for, and readers of
/// both versions.
const REPLAYED: [(&str, &str); 18] = [
    (
        "{\"version\":1,\"frames\":[{\"tree\":1,\"ops\":[{\"op\":\"root\",\"node\":1},{\"op\":\"pass\"}]}]}",
        "finale\nf1 root 1 ok\nf1 pass 1 base 0 token 0\n  u clear 0 root 1 list 1 data\na1 applied 1\n  e 1:1 subtree_created\ndump\ntree 1 parent 0 focused 0 loaded no focus 0 sel 0 0 0 0 title \"\" url \"\"\n1 generic\n",
    ),
    (
        "{\"version\":1,\"frames\":[{\"tree\":1,\"ops\":[{\"op\":\"root\",\"node\":1},{\"op\":\"pass\"},{\"op\":\"pass\"}]}]}",
        "finale\nf1 root 1 ok\nf1 pass 1 base 0 token 0\n  u clear 0 root 1 list 1 data\nf1 pass nothing\na1 applied 1\n  e 1:1 subtree_created\ndump\ntree 1 parent 0 focused 0 loaded no focus 0 sel 0 0 0 0 title \"\" url \"\"\n1 generic\n",
    ),
    (
        "{\"version\":1,\"frames\":[{\"tree\":1,\"ops\":[]}]}",
        "finale\ndump\ntree 1 empty\n",
    ),
    (
        "{\"version\":1,\"frames\":[{\"tree\":1,\"ops\":[{\"op\":\"root\",\"node\":1},{\"op\":\"insert\",\"parent\":1,\"index\":0,\"node\":2},{\"op\":\"insert\",\"parent\":1,\"index\":1,\"node\":3},{\"op\":\"insert\",\"parent\":3,\"index\":0,\"node\":4},{\"op\":\"pass\"}]}],\"browser\":[{\"op\":\"probe\",\"tree\":1,\"update\":{\"nodes\":[{\"node\":1,\"children\":[2,3,9]}]}},{\"op\":\"probe\",\"tree\":1,\"update\":{\"nodes\":[{\"node\":2,\"children\":[4]}]}},{\"op\":\"probe\",\"tree\":1,\"update\":{\"nodes\":[{\"node\":1,\"children\":[2,2]}]}},{\"op\":\"probe\",\"tree\":1,\"update\":{\"clear\":9,\"nodes\":[]}},{\"op\":\"probe\",\"tree\":1,\"update\":{\"clear\":3,\"nodes\":[]}},{\"op\":\"probe\",\"tree\":1,\"update\":{\"nodes\":[{\"node\":9}]}}]}",
        "finale\nf1 root 1 ok\nf1 insert 2 ok\nf1 insert 3 ok\nf1 insert 4 ok\nf1 pass 1 base 0 token 0\n  u clear 0 root 1 list 1 2 3 4 data\na1 applied 1\n  e 1:1 subtree_created\nb probe 1 Pending 9\nb probe 1 Reparented 4\nb probe 1 DuplicateChild 2\nb probe 1 BadClear 9\nb probe 1 Pending 3\nb probe 1 NotInTree 9\ndump\ntree 1 parent 0 focused 0 loaded no focus 0 sel 0 0 0 0 title \"\" url \"\"\n1 generic\n  2 generic\n  3 generic\n    4 generic\n",
    ),
    (
        "{\"version\":1,\"frames\":[{\"tree\":1,\"ops\":[{\"op\":\"root\",\"node\":1},{\"op\":\"insert\",\"parent\":1,\"index\":0,\"node\":2},{\"op\":\"insert\",\"parent\":1,\"index\":1,\"node\":3},{\"op\":\"insert\",\"parent\":3,\"index\":0,\"node\":4},{\"op\":\"pass\"}]}],\"browser\":[{\"op\":\"probe\",\"tree\":1,\"update\":{\"nodes\":[{\"node\":1,\"children\":[2]},{\"node\":2,\"children\":[4]},{\"node\":4}]}}]}",
        "finale\nf1 root 1 ok\nf1 insert 2 ok\nf1 insert 3 ok\nf1 insert 4 ok\nf1 pass 1 base 0 token 0\n  u clear 0 root 1 list 1 2 3 4 data\na1 applied 1\n  e 1:1 subtree_created\nb probe 1 accepted 3\ndump\ntree 1 parent 0 focused 0 loaded no focus 0 sel 0 0 0 0 title \"\" url \"\"\n1 generic\n  2 generic\n  3 generic\n    4 generic\n",
    ),
    (
        "{\"version\":1,\"frames\":[{\"tree\":1,\"ops\":[{\"op\":\"remove\",\"node\":1},{\"op\":\"root\",\"node\":1},{\"op\":\"insert\",\"parent\":1,\"index\":0,\"node\":2},{\"op\":\"insert\",\"parent\":9,\"index\":0,\"node\":3},{\"op\":\"insert\",\"parent\":1,\"index\":0,\"node\":2},{\"op\":\"insert\",\"parent\":1,\"index\":5,\"node\":3},{\"op\":\"remove\",\"node\":1},{\"op\":\"move\",\"node\":1,\"parent\":2,\"index\":0},{\"op\":\"move\",\"node\":2,\"parent\":2,\"index\":0},{\"op\":\"touch\",\"node\":9}]}]}",
        "finale\nf1 remove 1 NoRoot\nf1 root 1 ok\nf1 insert 2 ok\nf1 insert 3 UnknownNode 9\nf1 insert 2 IdTaken 2\nf1 insert 3 BadIndex 5 1\nf1 remove 1 IsRoot 1\nf1 move 1 IsRoot 1\nf1 move 2 IntoItself 2\nf1 touch 9 UnknownNode 9\nb ask 1 token 1\nd1:1\nf1 pass 1 base 0 token 1\n  u clear 0 root 1 list 1 2 data\na1 applied 1\n  e 1:1 subtree_created\ndump\ntree 1 parent 0 focused 0 loaded no focus 0 sel 0 0 0 0 title \"\" url \"\"\n1 generic\n  2 generic\n",
    ),
    (
        "{\"version\":1,\"frames\":[{\"tree\":1,\"ops\":[{\"op\":\"root\",\"node\":1},{\"op\":\"insert\",\"parent\":1,\"index\":0,\"node\":2},{\"op\":\"pass\"},{\"op\":\"touch\",\"node\":2},{\"op\":\"pass\"}]}]}",
        "finale\nf1 root 1 ok\nf1 insert 2 ok\nf1 pass 1 base 0 token 0\n  u clear 0 root 1 list 1 2 data\nf1 touch 2 ok\nf1 pass 2 base 1 token 0\n  u clear 0 root 0 list 2\na1 applied 1\n  e 1:1 subtree_created\na1 applied 2\ndump\ntree 1 parent 0 focused 0 loaded no focus 0 sel 0 0 0 0 title \"\" url \"\"\n1 generic\n  2 generic\n",
    ),
    (
        "{\"version\":1,\"frames\":[{\"tree\":1,\"ops\":[{\"op\":\"root\",\"node\":1,\"role\":\"button\",\"states\":[\"visited\",\"focusable\"],\"attrs\":{\"level\":3,\"name\":\"a\\\"b\"},\"rect\":[1,2,3,4]},{\"op\":\"pass\"}]}]}",
        "finale\nf1 root 1 ok\nf1 pass 1 base 0 token 0\n  u clear 0 root 1 list 1 data\na1 applied 1\n  e 1:1 subtree_created\ndump\ntree 1 parent 0 focused 0 loaded no focus 0 sel 0 0 0 0 title \"\" url \"\"\n1 button [1,2,3,4] +focusable +visited name=\"a\\\"b\" level=3\n",
    ),
    (
        "{\"version\":1,\"frames\":[{\"tree\":1,\"ops\":[{\"op\":\"root\",\"node\":1},{\"op\":\"insert\",\"parent\":1,\"index\":0,\"node\":2},{\"op\":\"insert\",\"parent\":1,\"index\":1,\"node\":3},{\"op\":\"insert\",\"parent\":3,\"index\":0,\"node\":4},{\"op\":\"pass\"}]}],\"browser\":[{\"op\":\"probe\",\"tree\":1,\"update\":{\"nodes\":[]}},{\"op\":\"probe\",\"tree\":1,\"update\":{\"root\":5,\"nodes\":[{\"node\":5}]}},{\"op\":\"probe\",\"tree\":1,\"update\":{\"root\":5,\"nodes\":[]}},{\"op\":\"probe\",\"tree\":1,\"update\":{\"clear\":2,\"root\":9,\"nodes\":[{\"node\":9}]}},{\"op\":\"probe\",\"tree\":1,\"update\":{\"clear\":4,\"root\":1,\"nodes\":[{\"node\":1,\"children\":[2,3]}]}},{\"op\":\"probe\",\"tree\":1,\"update\":{\"nodes\":[{\"node\":1,\"children\":[1]}]}},{\"op\":\"probe\",\"tree\":1,\"update\":{\"nodes\":[{\"node\":1,\"children\":[4,4]}]}},{\"op\":\"probe\",\"tree\":1,\"update\":{\"nodes\":[{\"node\":3},{\"node\":2,\"children\":[4]},{\"node\":4}]}},{\"op\":\"probe\",\"tree\":1,\"update\":{\"nodes\":[{\"node\":2,\"children\":[7]},{\"node\":1,\"children\":[3]}]}}]}",
        "finale\nf1 root 1 ok\nf1 insert 2 ok\nf1 insert 3 ok\nf1 insert 4 ok\nf1 pass 1 base 0 token 0\n  u clear 0 root 1 list 1 2 3 4 data\na1 applied 1\n  e 1:1 subtree_created\nb probe 1 accepted 4\nb probe 1 accepted 1\nb probe 1 Pending 5\nb probe 1 accepted 1\nb probe 1 Pending 4\nb probe 1 Reparented 1\nb probe 1 DuplicateChild 4\nb probe 1 accepted 4\nb probe 1 accepted 3\ndump\ntree 1 parent 0 focused 0 loaded no focus 0 sel 0 0 0 0 title \"\" url \"\"\n1 generic\n  2 generic\n  3 generic\n    4 generic\n",
    ),
    (
        "{\"version\":1,\"frames\":[{\"tree\":1,\"ops\":[]}],\"browser\":[{\"op\":\"probe\",\"tree\":1,\"update\":{\"nodes\":[{\"node\":1}]}},{\"op\":\"probe\",\"tree\":1,\"update\":{\"clear\":1,\"nodes\":[]}}]}",
        "finale\nb probe 1 NotInTree 1\nb probe 1 BadClear 1\ndump\ntree 1 empty\n",
    ),
    (
        "{\"version\":1,\"frames\":[{\"tree\":7,\"ops\":[{\"op\":\"pass\"},{\"op\":\"root\",\"node\":1},{\"op\":\"pass\"},{\"op\":\"pass\"},{\"op\":\"root\",\"node\":5},{\"op\":\"pass\"},{\"op\":\"data\",\"focus\":5}]}]}",
        "finale\nf7 pass nothing\nf7 root 1 ok\nf7 pass 1 base 0 token 0\n  u clear 0 root 1 list 1 data\nf7 pass nothing\nf7 root 5 ok\nf7 pass 2 base 1 token 0\n  u clear 1 root 5 list 5\nf7 data ok\na7 applied 1\n  e 7:1 subtree_created\na7 applied 2\n  e 7:5 subtree_created\nb ask 7 token 1\nd7:1\nf7 pass 3 base 0 token 1\n  u clear 0 root 5 list 5 data\na7 applied 3\n  e 7:5 focus_changed\ndump\ntree 7 parent 0 focused 0 loaded no focus 5 sel 0 0 0 0 title \"\" url \"\"\n5 generic\n",
    ),
    (
        "{\"order\":\"\",\"version\":2,\"readers\":[[]],\"frames\":[{\"tree\":1,\"ops\":[]}],\"actions\":[{\"do\":\"focus\",\"tree\":1,\"node\":1}]}",
        "finale\ndump\ntree 1 empty\n",
    ),
    (
        "{\"version\":2,\"frames\":[{\"tree\":7,\"ops\":[{\"op\":\"root\",\"node\":9,\"role\":\"root_web_area\",\"rect\":[-5,-2147483648,2147483647,0]},{\"op\":\"insert\",\"parent\":9,\"index\":0,\"node\":4,\"role\":\"checkbox\",\"states\":[\"ignored\"]},{\"op\":\"insert\",\"parent\":9,\"index\":1,\"node\":8,\"role\":\"image\",\"rect\":[0,0,1,0]},{\"op\":\"insert\",\"parent\":9,\"index\":2,\"node\":2147483647,\"role\":\"iframe\",\"rect\":[0,1,0,0],\"attrs\":{\"child_tree\":1}},{\"op\":\"insert\",\"parent\":4,\"index\":0,\"node\":2,\"role\":\"text_field\",\"rect\":[0,0,0,1],\"states\":[\"pressed\",\"visited\",\"collapsed\",\"focusable\"],\"attrs\":{\"scroll_y\":0,\"atomic\":false,\"value_max\":2147483647,\"modal\":true,\"controls\":2147483647,\"level\":-2147483648,\"child_tree\":1000,\"language\":\"\",\"name\":\"\\u00e9\\\"\\\\/\\b\\f\\n\\r\\t\\u0000\\u000b\\u001f \\u007f\\u0080\\u2028\\ud83d\\ude00\"}},{\"op\":\"insert\",\"parent\":2,\"index\":0,\"node\":30,\"role\":\"static_text\"},{\"op\":\"data\",\"parent\":1000,\"focused\":1,\"loaded\":true,\"focus\":30,\"title\":\"\\\"Yes\\\"\",\"url\":\"c:\\\\new\\tpage\",\"sel\":[4,0,30,2147483647]},{\"op\":\"pass\"}]}]}",
        "finale\nf7 root 9 ok\nf7 insert 4 ok\nf7 insert 8 ok\nf7 insert 2147483647 ok\nf7 insert 2 ok\nf7 insert 30 ok\nf7 data ok\nf7 pass 1 base 0 token 0\n  u clear 0 root 9 list 9 4 2 30 8 2147483647 data\na7 applied 1\n  e 7 document_title_changed\n  e 7 url_changed\n  e 7 load_complete\n  e 7 selection_changed\n  e 7:30 focus_changed\n  e 7:9 subtree_created\ndump\ntree 7 parent 1000 focused 1 loaded yes focus 30 sel 4 0 30 2147483647 title \"\\\"Yes\\\"\" url \"c:\\\\new\\tpage\"\n9 root_web_area [-5,-2147483648,2147483647,0]\n  4 checkbox +ignored\n    2 text_field [0,0,0,1] +focusable +collapsed +visited +pressed name=\"\u{e9}\\\"\\\\/\\b\\f\\n\\r\\t\\u0000\\u000b\\u001f \u{7f}\u{80}\u{2028}\u{1f600}\" language=\"\" child_tree=1000 level=-2147483648 controls=2147483647 modal=yes value_max=2147483647 atomic=no scroll_y=0\n      30 static_text\n  8 image [0,0,1,0]\n  2147483647 iframe [0,1,0,0] child_tree=1\n",
    ),
    (
        "{\"version\":1,\"frames\":[{\"tree\":1,\"ops\":[{\"op\":\"data\",\"title\":\"News\",\"url\":\"https://news.example/\"},{\"op\":\"root\",\"node\":1,\"role\":\"root_web_area\",\"rect\":[0,0,800,600]},{\"op\":\"insert\",\"parent\":1,\"index\":0,\"node\":2,\"role\":\"heading\",\"attrs\":{\"name\":\"Storm\"},\"rect\":[0,0,800,40]},{\"op\":\"insert\",\"parent\":1,\"index\":1,\"node\":3,\"role\":\"status\",\"attrs\":{\"live\":\"polite\"},\"rect\":[0,40,800,20]},{\"op\":\"insert\",\"parent\":3,\"index\":0,\"node\":4,\"role\":\"static_text\",\"attrs\":{\"name\":\"0 new\"},\"rect\":[0,40,800,20]},{\"op\":\"insert\",\"parent\":1,\"index\":2,\"node\":5,\"role\":\"iframe\",\"attrs\":{\"child_tree\":2},\"rect\":[600,60,200,200]},{\"op\":\"insert\",\"parent\":1,\"index\":3,\"node\":6,\"role\":\"iframe\",\"attrs\":{\"child_tree\":3},\"rect\":[600,260,200,200]},{\"op\":\"pass\"},{\"op\":\"set\",\"node\":4,\"attrs\":{\"name\":\"1 new\"}},{\"op\":\"data\",\"loaded\":true,\"focus\":2},{\"op\":\"pass\"}]},{\"tree\":2,\"ops\":[{\"op\":\"data\",\"parent\":1},{\"op\":\"root\",\"node\":1,\"role\":\"button\",\"attrs\":{\"name\":\"Buy\"},\"rect\":[600,60,200,200]},{\"op\":\"pass\"}]},{\"tree\":3,\"ops\":[{\"op\":\"data\",\"parent\":1},{\"op\":\"root\",\"node\":1,\"rect\":[600,260,200,200]},{\"op\":\"insert\",\"parent\":1,\"index\":0,\"node\":2,\"role\":\"link\",\"attrs\":{\"name\":\"Ad\"},\"rect\":[600,260,100,20]},{\"op\":\"pass\"}]}],\"browser\":[{\"op\":\"destroy\",\"tree\":3,\"after\":4}],\"readers\":[[{\"q\":\"hit\",\"x\":650,\"y\":270,\"after\":3}],[{\"q\":\"focus\",\"after\":4}],[{\"q\":\"text\",\"at\":{\"tree\":1,\"node\":2,\"offset\":0},\"to\":{\"tree\":3,\"node\":2,\"offset\":2}}]],\"order\":\"f1 f1 f1 f1 f1 f1 f1 f1 a1 f2 f2 f2 a2 f3 f3 f3 f3 a3 r1 f1 f1 f1 a1 r2 r3 b\"}",
        "f1 data ok\nf1 root 1 ok\nf1 insert 2 ok\nf1 insert 3 ok\nf1 insert 4 ok\nf1 insert 5 ok\nf1 insert 6 ok\nf1 pass 1 base 0 token 0\n  u clear 0 root 1 list 1 2 3 4 5 6 data\na1 applied 1\n  e 1 document_title_changed\n  e 1 url_changed\n  e 1:1 subtree_created\nf2 data ok\nf2 root 1 ok\nf2 pass 1 base 0 token 0\n  u clear 0 root 1 list 1 data\na2 applied 1\n  e 2:1 subtree_created\nf3 data ok\nf3 root 1 ok\nf3 insert 2 ok\nf3 pass 1 base 0 token 0\n  u clear 0 root 1 list 1 2 data\na3 applied 1\n  e 3:1 subtree_created\nr1 hit = 3:2\nf1 set 4 ok\nf1 data ok\nf1 pass 2 base 1 token 0\n  u clear 0 root 0 list 4 data\na1 applied 2\n  e 1 load_complete\n  e 1:2 focus_changed\n  e 1:3 live_region_changed\n  e 1:4 name_changed\nr2 focus = 1:2\nr3 text = \"Storm1 newBuyAd\"\nb destroy 3 ok\nfinale\ndump\ntree 1 parent 0 focused 0 loaded yes focus 2 sel 0 0 0 0 title \"News\" url \"https://news.example/\"\n1 root_web_area [0,0,800,600]\n  2 heading [0,0,800,40] name=\"Storm\"\n  3 status [0,40,800,20] live=\"polite\"\n    4 static_text [0,40,800,20] name=\"1 new\"\n  5 iframe [600,60,200,200] child_tree=2\n  6 iframe [600,260,200,200] child_tree=3\ntree 2 parent 1 focused 0 loaded no focus 0 sel 0 0 0 0 title \"\" url \"\"\n1 button [600,60,200,200] name=\"Buy\"\ntree 3 gone\n",
    ),
    (
        "{\"version\":1,\"frames\":[{\"tree\":1,\"ops\":[{\"op\":\"root\",\"node\":1},{\"op\":\"pass\"},{\"op\":\"set\",\"node\":1,\"attrs\":{\"name\":\"a\"}},{\"op\":\"pass\"},{\"op\":\"pass\"}]}],\"browser\":[{\"op\":\"ask\",\"tree\":1}],\"order\":\"f1 f1 a1 f1 f1 b d1:1 a1 f1 a1\"}",
        "f1 root 1 ok\nf1 pass 1 base 0 token 0\n  u clear 0 root 1 list 1 data\na1 applied 1\n  e 1:1 subtree_created\nf1 set 1 ok\nf1 pass 2 base 1 token 0\n  u clear 0 root 0 list 1\nb ask 1 token 1\nd1:1\na1 stale 0 1\nf1 pass 3 base 0 token 1\n  u clear 0 root 1 list 1 data\na1 applied 3\n  e 1:1 name_changed\nfinale\ndump\ntree 1 parent 0 focused 0 loaded no focus 0 sel 0 0 0 0 title \"\" url \"\"\n1 generic name=\"a\"\n",
    ),
    (
        "{\"version\":1,\"frames\":[{\"tree\":1,\"ops\":[{\"op\":\"root\",\"node\":1},{\"op\":\"insert\",\"parent\":1,\"index\":0,\"node\":2,\"attrs\":{\"name\":\"abe\\u0301\"}},{\"op\":\"insert\",\"parent\":1,\"index\":1,\"node\":3,\"role\":\"iframe\",\"attrs\":{\"child_tree\":2}},{\"op\":\"pass\"}]},{\"tree\":2,\"ops\":[{\"op\":\"data\",\"parent\":1},{\"op\":\"root\",\"node\":1,\"attrs\":{\"name\":\"c\"}},{\"op\":\"pass\"}]}],\"readers\":[[{\"q\":\"children\",\"tree\":1,\"node\":3}]]}",
        "finale\nf1 root 1 ok\nf1 insert 2 ok\nf1 insert 3 ok\nf1 pass 1 base 0 token 0\n  u clear 0 root 1 list 1 2 3 data\nf2 data ok\nf2 root 1 ok\nf2 pass 1 base 0 token 0\n  u clear 0 root 1 list 1 data\na1 applied 1\n  e 1:1 subtree_created\na2 applied 1\n  e 2:1 subtree_created\nr1 children = 2:1\ndump\ntree 1 parent 0 focused 0 loaded no focus 0 sel 0 0 0 0 title \"\" url \"\"\n1 generic\n  2 generic name=\"abe\u{301}\"\n  3 iframe child_tree=2\ntree 2 parent 1 focused 0 loaded no focus 0 sel 0 0 0 0 title \"\" url \"\"\n1 generic name=\"c\"\n",
    ),
    (
        "{\"version\":1,\"frames\":[{\"tree\":1,\"ops\":[{\"op\":\"root\",\"node\":1},{\"op\":\"insert\",\"parent\":1,\"index\":0,\"node\":2,\"attrs\":{\"name\":\"one two\"}},{\"op\":\"insert\",\"parent\":1,\"index\":1,\"node\":3},{\"op\":\"insert\",\"parent\":1,\"index\":2,\"node\":4,\"attrs\":{\"name\":\"x\"}},{\"op\":\"pass\"}]}],\"readers\":[[{\"q\":\"leaf\",\"at\":{\"tree\":1,\"node\":1,\"offset\":7,\"affinity\":\"up\"}},{\"q\":\"leaf\",\"at\":{\"tree\":1,\"node\":1,\"offset\":7}},{\"q\":\"up\",\"at\":{\"tree\":1,\"node\":4,\"offset\":1}},{\"q\":\"up\",\"at\":{\"tree\":1,\"node\":1,\"offset\":0}},{\"q\":\"offset\",\"at\":{\"tree\":1,\"node\":1,\"child\":2}},{\"q\":\"offset\",\"at\":{\"tree\":1,\"node\":1,\"child\":4}},{\"q\":\"offset\",\"at\":{\"tree\":1,\"node\":2,\"offset\":8}},{\"q\":\"offset\",\"at\":null},{\"q\":\"move\",\"at\":{\"tree\":1,\"node\":2,\"offset\":0},\"unit\":\"word\",\"way\":\"next\"},{\"q\":\"move\",\"at\":{\"tree\":1,\"node\":2,\"offset\":4},\"unit\":\"word\",\"way\":\"next\"},{\"q\":\"move\",\"at\":{\"tree\":1,\"node\":2,\"offset\":0},\"unit\":\"leaf\",\"way\":\"prev\"}]]}",
        "finale\nf1 root 1 ok\nf1 insert 2 ok\nf1 insert 3 ok\nf1 insert 4 ok\nf1 pass 1 base 0 token 0\n  u clear 0 root 1 list 1 2 3 4 data\na1 applied 1\n  e 1:1 subtree_created\nr1 leaf = 1:2 text 7 up\nr1 leaf = 1:4 text 0 down\nr1 up = 1:1 text 8 down\nr1 up = NoParent\nr1 offset = 7\nr1 offset = BadIndex 4 3\nr1 offset = BadOffset 8 7\nr1 offset = NoTree\nr1 move = 1:2 text 4 down\nr1 move = 1:4 text 0 down\nr1 move = AtStart\ndump\ntree 1 parent 0 focused 0 loaded no focus 0 sel 0 0 0 0 title \"\" url \"\"\n1 generic\n  2 generic name=\"one two\"\n  3 generic\n  4 generic name=\"x\"\n",
    ),
    (
        "{\"version\":2,\"frames\":[{\"tree\":1,\"ops\":[{\"op\":\"root\",\"node\":1,\"attrs\":{\"name\":\"x\"}},{\"op\":\"insert\",\"parent\":1,\"index\":0,\"node\":2,\"attrs\":{\"name\":\"y\"},\"states\":[\"ignored\"]},{\"op\":\"pass\"}]}],\"readers\":[[{\"q\":\"u_text\",\"tree\":1,\"node\":1},{\"q\":\"u_children\",\"tree\":1,\"node\":1},{\"q\":\"u_next\",\"tree\":1,\"node\":1},{\"q\":\"text\",\"at\":{\"tree\":1,\"node\":2,\"offset\":0},\"to\":{\"tree\":1,\"node\":2,\"offset\":1}}]]}",
        "finale\nf1 root 1 ok\nf1 insert 2 ok\nf1 pass 1 base 0 token 0\n  u clear 0 root 1 list 1 2 data\na1 applied 1\n  e 1:1 subtree_created\nr1 u_text = \"x\"\nr1 u_children = -\nr1 u_next = AtEnd\nr1 text = \"y\"\ndump\ntree 1 parent 0 focused 0 loaded no focus 0 sel 0 0 0 0 title \"\" url \"\"\n1 generic name=\"x\"\n  2 generic +ignored name=\"y\"\n",
    ),
];

#[test]
fn scripts_are_replayed(rt: HostRuntime) {
    for (script, text) in REPLAYED {
        assert!(rt;
            ends(
                rt.alloc(),
                &Given::replay(script),
                Status::Ok,
                text.as_bytes()
            ),
            "{script}"
        );
    }
}

/// Bytes that are no script, scripts with an item of the order that isn't there in its turn, and the line of each.
const REFUSED: [(&str, &str); 16] = [
    ("", "script NotJson\n"),
    ("{\"version\":1,", "script NotJson\n"),
    ("{\"x\":1}", "script UnknownMember $\n"),
    ("{}", "script Missing $.version\n"),
    ("[]", "script BadType $\n"),
    (
        "{\"version\":1,\"frames\":[]}",
        "script BadCount $.frames\n",
    ),
    ("{\"version\":1.0}", "script BadNumber $.version\n"),
    (
        "{\"version\":1,\"frames\":[{\"tree\":1,\"ops\":[{\"op\":\"touch\",\"node\":1},{\"op\":\"fly\"}]}]}",
        "script BadName $.frames[0].ops[1].op\n",
    ),
    (
        "{\"version\":1,\"frames\":[{\"tree\":1001,\"ops\":[]}]}",
        "script BadNumber $.frames[0].tree\n",
    ),
    (
        "{\"version\":1,\"frames\":[{\"tree\":1,\"ops\":[]}],\"order\":\"f1 f2\"}",
        "script BadOrder 2\n",
    ),
    (
        "{\"version\":1,\"frames\":[{\"tree\":1,\"ops\":[{\"op\":\"pass\"}]}],\"order\":\"f1 f1\"}",
        "script BadOrder 2\n",
    ),
    (
        "{\"version\":1,\"frames\":[{\"tree\":1,\"ops\":[]}],\"order\":\"a1\"}",
        "script BadOrder 1\n",
    ),
    (
        "{\"version\":1,\"frames\":[{\"tree\":1,\"ops\":[{\"op\":\"root\",\"node\":1},{\"op\":\"pass\"}]},{\"tree\":2,\"ops\":[]}],\"order\":\"f1 f1 a1 d2:7 a2 a1\"}",
        "script BadOrder 5\n",
    ),
    (
        "{\"version\":1,\"frames\":[{\"tree\":1,\"ops\":[]}],\"browser\":[{\"op\":\"ask\",\"tree\":1}],\"order\":\"b b\"}",
        "script BadOrder 2\n",
    ),
    (
        "{\"version\":1,\"frames\":[{\"tree\":1,\"ops\":[]}],\"readers\":[[{\"q\":\"focus\"}],[]],\"order\":\"d1:1 r1 r2\"}",
        "script BadOrder 3\n",
    ),
    (
        "{\"version\":1,\"frames\":[{\"tree\":1,\"ops\":[{\"op\":\"pass\"}]}],\"order\":\"f1 f1 x\"}",
        "script BadOrder 3\n",
    ),
];

#[test]
fn other_bytes_are_refused(rt: HostRuntime) {
    for (bytes, line) in REFUSED {
        assert!(rt;
            ends(
                rt.alloc(),
                &Given::replay(bytes),
                Status::Script,
                line.as_bytes()
            ),
            "{bytes}"
        );
    }
}
