//! The tables.
ghost use Rattle.std.specs.Prelude.{◌≡◌, length, IsTrue};
ghost use Rattle.ax_attrs.specs.Entry.{IsTable};
ghost use Rattle.ax_attrs.specs.Rows.{entries};
ghost use Rattle.ax_attrs.specs.Tables.{role_rows, state_rows, key_rows, event_rows};

use crate::name::is_table;
use crate::{EventKind, Key, Kind, Role, Row, State, Table, When};

macro_rules! optional {
    () => {
        None
    };
    ($value:expr) => {
        Some($value)
    };
}

// A row is the constant that has its number, and its name, then the kind of its values in brackets, then its event and
// when in parentheses. So the contract of a table ties each constant to its row.
macro_rules! rows {
    ($type:ident: $($constant:ident $name:literal $([$kind:ident])? $(($event:ident, $when:ident))?;)*) => {
        [$(Row {
            number: $type::$constant.number,
            name: $name,
            kind: optional!($(Kind::$kind)?),
            event: optional!($((EventKind::$event.number, When::$when))?),
        }),*]
    };
}

/// The roles.
pub fn roles() -> Table<36>
    ensures { entries result.rows.now ≡ role_rows }
{
    const ROWS: [Row; 36] = rows! {
        Role:
        GENERIC "generic";
        ROOT_WEB_AREA "root_web_area";
        HEADING "heading";
        PARAGRAPH "paragraph";
        STATIC_TEXT "static_text";
        LINK "link";
        BUTTON "button";
        CHECKBOX "checkbox";
        TEXT_FIELD "text_field";
        IMAGE "image";
        LIST "list";
        LIST_ITEM "list_item";
        TABLE "table";
        ROW "row";
        CELL "cell";
        IFRAME "iframe";
        DIALOG "dialog";
        ALERT "alert";
        MENU "menu";
        MENU_ITEM "menu_item";
        TAB "tab";
        TAB_LIST "tab_list";
        MAIN "main";
        NAVIGATION "navigation";
        FORM "form";
        SLIDER "slider";
        STATUS "status";
        ARTICLE "article";
        BANNER "banner";
        COMPLEMENTARY "complementary";
        SEARCH "search";
        REGION "region";
        TREE "tree";
        TREE_ITEM "tree_item";
        SWITCH "switch";
        PROGRESS_BAR "progress_bar";
    };
    Table { rows: &ROWS }
}

pub(crate) fn role_list() -> &'static [Row]
    ensures rows { entries result.now ≡ role_rows }
    ensures len { length result.now ≡ 36 }
{
    let table = roles();
    let rows = table.rows;
    rows
}

/// The states: each with its event, and with which change makes it.
pub fn states() -> Table<12>
    ensures { entries result.rows.now ≡ state_rows }
{
    const ROWS: [Row; 12] = rows! {
        State:
        FOCUSABLE "focusable" (STATE_CHANGED, Either);
        EXPANDED "expanded" (EXPANDED, Gained);
        COLLAPSED "collapsed" (COLLAPSED, Gained);
        EDITABLE "editable" (STATE_CHANGED, Either);
        INVISIBLE "invisible" (STATE_CHANGED, Either);
        REQUIRED "required" (STATE_CHANGED, Either);
        VISITED "visited" (STATE_CHANGED, Either);
        IGNORED "ignored" (IGNORED_CHANGED, Either);
        MULTISELECTABLE "multiselectable" (STATE_CHANGED, Either);
        PROTECTED "protected" (STATE_CHANGED, Either);
        OFFSCREEN "offscreen" (SHOWN, Lost);
        PRESSED "pressed" (PRESSED_CHANGED, Either);
    };
    Table { rows: &ROWS }
}

pub(crate) fn state_list() -> &'static [Row]
    ensures rows { entries result.now ≡ state_rows }
    ensures len { length result.now ≡ 12 }
{
    let table = states();
    let rows = table.rows;
    rows
}

/// The attributes: each with the kind of its values, and with the event that a change of it makes, if it makes one.
pub fn keys() -> Table<38>
    ensures { entries result.rows.now ≡ key_rows }
{
    const ROWS: [Row; 38] = rows! {
        Key:
        NAME "name" [Text] (NAME_CHANGED, Either);
        DESCRIPTION "description" [Text] (DESCRIPTION_CHANGED, Either);
        VALUE "value" [Text] (VALUE_CHANGED, Either);
        PLACEHOLDER "placeholder" [Text] (PLACEHOLDER_CHANGED, Either);
        LANGUAGE "language" [Text] (ATTRIBUTE_CHANGED, Either);
        CHILD_TREE "child_tree" [Tree] (CHILD_TREE_CHANGED, Either);
        LIVE "live" [Text] (LIVE_STATUS_CHANGED, Either);
        LEVEL "level" [Int] (LEVEL_CHANGED, Either);
        POS_IN_SET "pos_in_set" [Int] (ATTRIBUTE_CHANGED, Either);
        SET_SIZE "set_size" [Int] (ATTRIBUTE_CHANGED, Either);
        CHECKED "checked" [Text] (CHECKED_CHANGED, Either);
        ACTIVE_DESCENDANT "active_descendant" [Node] (ACTIVE_DESCENDANT_CHANGED, Either);
        CONTROLS "controls" [Node] (ATTRIBUTE_CHANGED, Either);
        CLIPS "clips" [Flag];
        BUSY "busy" [Flag] (BUSY_CHANGED, Either);
        MODAL "modal" [Flag] (ATTRIBUTE_CHANGED, Either);
        SELECTED "selected" [Flag] (SELECTED_CHANGED, Either);
        VALUE_NOW "value_now" [Int] (VALUE_CHANGED, Either);
        VALUE_MIN "value_min" [Int] (ATTRIBUTE_CHANGED, Either);
        VALUE_MAX "value_max" [Int] (ATTRIBUTE_CHANGED, Either);
        URL "url" [Text] (ATTRIBUTE_CHANGED, Either);
        ACCESS_KEY "access_key" [Text] (ATTRIBUTE_CHANGED, Either);
        CLASS_NAME "class_name" [Text];
        ATOMIC "atomic" [Flag];
        ROLE_DESCRIPTION "role_description" [Text] (ROLE_DESCRIPTION_CHANGED, Either);
        KEY_SHORTCUTS "key_shortcuts" [Text] (ATTRIBUTE_CHANGED, Either);
        TOOLTIP "tooltip" [Text] (ATTRIBUTE_CHANGED, Either);
        INVALID "invalid" [Text] (ERROR_CHANGED, Either);
        ERROR_MESSAGE "error_message" [Node] (ERROR_CHANGED, Either);
        DETAILS "details" [Node] (ATTRIBUTE_CHANGED, Either);
        FLOW_TO "flow_to" [Node] (ATTRIBUTE_CHANGED, Either);
        LABELLED_BY "labelled_by" [Node] (ATTRIBUTE_CHANGED, Either);
        ROW_COUNT "row_count" [Int] (ATTRIBUTE_CHANGED, Either);
        COLUMN_COUNT "column_count" [Int] (ATTRIBUTE_CHANGED, Either);
        AUTO_COMPLETE "auto_complete" [Text] (ATTRIBUTE_CHANGED, Either);
        CONTAINER "container" [Node] (LOCATION_CHANGED, Either);
        SCROLL_X "scroll_x" [Int] (LOCATION_CHANGED, Either);
        SCROLL_Y "scroll_y" [Int] (LOCATION_CHANGED, Either);
    };
    Table { rows: &ROWS }
}

pub(crate) fn key_list() -> &'static [Row]
    ensures rows { entries result.now ≡ key_rows }
    ensures len { length result.now ≡ 38 }
{
    let table = keys();
    let rows = table.rows;
    rows
}

/// The kinds of events.
pub fn events() -> Table<30>
    ensures { entries result.rows.now ≡ event_rows }
{
    const ROWS: [Row; 30] = rows! {
        EventKind:
        DOCUMENT_TITLE_CHANGED "document_title_changed";
        URL_CHANGED "url_changed";
        LOAD_COMPLETE "load_complete";
        SELECTION_CHANGED "selection_changed";
        FOCUS_CHANGED "focus_changed";
        ROLE_CHANGED "role_changed";
        EXPANDED "expanded";
        COLLAPSED "collapsed";
        STATE_CHANGED "state_changed";
        IGNORED_CHANGED "ignored_changed";
        NAME_CHANGED "name_changed";
        DESCRIPTION_CHANGED "description_changed";
        VALUE_CHANGED "value_changed";
        PLACEHOLDER_CHANGED "placeholder_changed";
        CHILD_TREE_CHANGED "child_tree_changed";
        LIVE_STATUS_CHANGED "live_status_changed";
        LEVEL_CHANGED "level_changed";
        CHECKED_CHANGED "checked_changed";
        ACTIVE_DESCENDANT_CHANGED "active_descendant_changed";
        BUSY_CHANGED "busy_changed";
        SELECTED_CHANGED "selected_changed";
        ATTRIBUTE_CHANGED "attribute_changed";
        LOCATION_CHANGED "location_changed";
        CHILDREN_CHANGED "children_changed";
        SUBTREE_CREATED "subtree_created";
        LIVE_REGION_CHANGED "live_region_changed";
        SHOWN "shown";
        PRESSED_CHANGED "pressed_changed";
        ROLE_DESCRIPTION_CHANGED "role_description_changed";
        ERROR_CHANGED "error_changed";
    };
    Table { rows: &ROWS }
}

pub(crate) fn event_list() -> &'static [Row]
    ensures rows { entries result.now ≡ event_rows }
    ensures len { length result.now ≡ 30 }
{
    let table = events();
    let rows = table.rows;
    rows
}

/// Whether in each table the numbers are 1, 2, 3 and so on and no name stands twice: it is so.
pub fn tables_hold() -> bool
    ensures answer { IsTrue result }
    ensures roles { IsTable role_rows }
    ensures states { IsTable state_rows }
    ensures keys { IsTable key_rows }
    ensures events { IsTable event_rows }
{
    let roles = is_table(role_list());
    let states = is_table(state_list());
    let keys = is_table(key_list());
    let events = is_table(event_list());
    roles & states & keys & events
}
