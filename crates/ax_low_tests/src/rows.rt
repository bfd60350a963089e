//! The rows, written by hand in the order of their numbers, version 1's first.

use ax_attrs::{EventKind, Key, Kind, Role, State, When};

const ROLES: &str = "\
    generic root_web_area heading paragraph static_text link button checkbox text_field image list list_item \
    table row cell iframe dialog alert menu menu_item tab tab_list main navigation form slider status article \
    banner complementary search region tree tree_item switch progress_bar";

// A state, its event, and when.
const STATES: &str = "\
    focusable state_changed either; \
    expanded expanded gained; \
    collapsed collapsed gained; \
    editable state_changed either; \
    invisible state_changed either; \
    required state_changed either; \
    visited state_changed either; \
    ignored ignored_changed either; \
    multiselectable state_changed either; \
    protected state_changed either; \
    offscreen shown lost; \
    pressed pressed_changed either";

// An attribute, its kind, and its event.
const KEYS: &str = "\
    name text name_changed; \
    description text description_changed; \
    value text value_changed; \
    placeholder text placeholder_changed; \
    language text attribute_changed; \
    child_tree tree child_tree_changed; \
    live text live_status_changed; \
    level int level_changed; \
    pos_in_set int attribute_changed; \
    set_size int attribute_changed; \
    checked text checked_changed; \
    active_descendant node active_descendant_changed; \
    controls node attribute_changed; \
    clips flag none; \
    busy flag busy_changed; \
    modal flag attribute_changed; \
    selected flag selected_changed; \
    value_now int value_changed; \
    value_min int attribute_changed; \
    value_max int attribute_changed; \
    url text attribute_changed; \
    access_key text attribute_changed; \
    class_name text none; \
    atomic flag none; \
    role_description text role_description_changed; \
    key_shortcuts text attribute_changed; \
    tooltip text attribute_changed; \
    invalid text error_changed; \
    error_message node error_changed; \
    details node attribute_changed; \
    flow_to node attribute_changed; \
    labelled_by node attribute_changed; \
    row_count int attribute_changed; \
    column_count int attribute_changed; \
    auto_complete text attribute_changed; \
    container node location_changed; \
    scroll_x int location_changed; \
    scroll_y int location_changed";

const EVENTS: &str = "\
    document_title_changed url_changed load_complete selection_changed focus_changed role_changed expanded \
    collapsed state_changed ignored_changed name_changed description_changed value_changed placeholder_changed \
    child_tree_changed live_status_changed level_changed checked_changed active_descendant_changed \
    busy_changed selected_changed attribute_changed location_changed children_changed subtree_created \
    live_region_changed shown pressed_changed role_description_changed error_changed";

fn when_name(when: When) -> &'static str {
    match when {
        When::Gained => "gained",
        When::Either => "either",
        When::Lost => "lost",
    }
}

fn kind_name(kind: Kind) -> &'static str {
    match kind {
        Kind::Text => "text",
        Kind::Int => "int",
        Kind::Flag => "flag",
        Kind::Node => "node",
        Kind::Tree => "tree",
    }
}

fn is_role(number: u16, name: &str) -> bool {
    let Some(role) = Role::of(number) else {
        return false;
    };
    role.name() == name && Role::named(name) == Some(role)
}

fn is_state(number: u16, name: &str, event: &str, when: &str) -> bool {
    let Some(state) = State::of(number) else {
        return false;
    };
    let (own, own_when) = state.event();
    state.name() == name
        && own.name() == event
        && when_name(own_when) == when
        && State::named(name) == Some(state)
}

fn is_key(number: u16, name: &str, kind: &str, event: &str) -> bool {
    let Some(key) = Key::of(number) else {
        return false;
    };
    let own = match key.event() {
        Some(own) => own.name(),
        None => "none",
    };
    key.name() == name
        && kind_name(key.kind()) == kind
        && own == event
        && Key::named(name) == Some(key)
}

fn is_event(number: u16, name: &str) -> bool {
    let Some(event) = EventKind::of(number) else {
        return false;
    };
    event.name() == name && EventKind::named(name) == Some(event)
}

#[test]
fn roles_are_as_written(rt: HostRuntime) {
    let mut number = 0u16;
    for name in ROLES.split(' ') {
        number = number.wrapping_add(1);
        assert!(rt; is_role(number, name), "{name}");
    }
    assert!(rt; number == Role::COUNT);
}

#[test]
fn states_are_as_written(rt: HostRuntime) {
    let mut number = 0u16;
    for row in STATES.split("; ") {
        number = number.wrapping_add(1);
        let mut words = row.split(' ');
        let name = words.next().unwrap_or("");
        let event = words.next().unwrap_or("");
        let when = words.next().unwrap_or("");
        assert!(rt; is_state(number, name, event, when), "{name}");
    }
    assert!(rt; number == State::COUNT);
}

#[test]
fn keys_are_as_written(rt: HostRuntime) {
    let mut number = 0u16;
    for row in KEYS.split("; ") {
        number = number.wrapping_add(1);
        let mut words = row.split(' ');
        let name = words.next().unwrap_or("");
        let kind = words.next().unwrap_or("");
        let event = words.next().unwrap_or("");
        assert!(rt; is_key(number, name, kind, event), "{name}");
    }
    assert!(rt; number == Key::COUNT);
}

#[test]
fn events_are_as_written(rt: HostRuntime) {
    let mut number = 0u16;
    for name in EVENTS.split(' ') {
        number = number.wrapping_add(1);
        assert!(rt; is_event(number, name), "{name}");
    }
    assert!(rt; number == EventKind::COUNT);
}
