//! Attributes of a node.
ghost use Rattle.std.specs.Prelude.{◌≡◌, ◌≢◌, ◌<◌, ◌≤◌, ◌⊎◌, ◌↔◌, [], Some, length, take, nat_lt, slice_get, IfOk, IfErr, IfSome, OnOk, OnErr, IsTrue, is_some};
ghost use Rattle.std.specs.List.{prefix_len};
ghost use Rattle.std.specs.Option.{option_copied};
ghost use Rattle.std.specs.Ordering.{nat_cmp};
ghost use Rattle.std.specs.FinMap.Entries.{find, put};
ghost use Rattle.ax_attrs.specs.Entry.{kind_of};
ghost use Rattle.ax_attrs.specs.Tables.{key_rows};
ghost use Rattle.ax_base.specs.Entries.{without, has_key, value_at};
ghost use Rattle.ax_node.specs.Kinds.{value_kind};
ghost use Rattle.ax_node.specs.Attrs.{AreAttrs, IsOfKind};

use crate::Value;
use ax_attrs::Key;
use ax_base::NoMemory;
use std::alloc::Global;
use std::marker::Model;

/// Why an attribute wasn't set: its value isn't of the key's kind, or there was no memory.
#[derive(Clone, Copy, Debug, PartialEq, Eq)]
pub enum AttrErr {
    BadAttr(Key),
    NoMemory,
}

impl From<NoMemory> for AttrErr {
    ghost use Rattle.std.specs.Prelude.{◌≡◌};
    ghost use Rattle.ax_node.specs.declared.attrs.AttrErr.TheVariants.{NoMemory as OutOfMemory};

    ghost from_gives = { λ _ e. e ≡ OutOfMemory };

    fn from(_error: NoMemory) -> AttrErr {
        AttrErr::NoMemory
    }
}

/// Attributes: a finite map from keys to values of their kinds, seen as the list of its entries in the order of the
/// table.
#[derive(Debug, Drop)]
pub struct AttrList {
    entries: Vec<(Key, Value)>,
}

impl Model for AttrList {
    ghost use Rattle.std.specs.Prelude.{List, ℕ};
    ghost use Rattle.std.specs.Coded.{coded_list, coded×, coded_ℕ};
    ghost use Rattle.ax_node.specs.declared.value.Value.{Value as AttrValue};
    ghost use Rattle.ax_node.specs.contracts.value.Value as value;
    ghost use Rattle.ax_node.specs.Attrs.{AreAttrs};

    ghost Value = { List (ℕ × AttrValue) };

    ghost coded = { coded_list (coded× coded_ℕ value.the_row.coded) };

    ghost view = { λ a. a.entries.items };

    ghost invariant = { λ a. AreAttrs a.entries.items };
}

impl AttrList {
    /// The empty map, which takes no memory.
    pub fn new(alloc: Global) -> AttrList
        ensures { result ≡ [] }
    {
        AttrList {
            entries: Vec::new(alloc),
        }
    }

    pub fn len(&self) -> usize
        ensures { result ≡ length self.now }
    {
        self.entries.len()
    }

    pub fn is_empty(&self) -> bool
        ensures { IsTrue result ↔ (self.now ≡ []) }
    {
        self.entries.is_empty()
    }

    /// The entries in the order of the table.
    pub fn as_slice(&self) -> &[(Key, Value)]
        ensures entries { result.now ≡ self.now }
        ensures attrs { AreAttrs self.now }
    {
        self.entries.as_slice()
    }

    /// The value of the key, or `None` where it has none.
    pub fn get(&self, key: Key) -> Option<&Value>
        ensures value { option_copied result ≡ find nat_cmp key self.now }
        ensures kind { IfSome (option_copied result) (IsOfKind key) }
    {
        let place = place_of(self.entries.as_slice(), key);
        value_at(self.entries.as_slice(), place, key)
    }

    /// Gives the key the value. `BadAttr` comes where it isn't of the key's kind; after a refusal nothing has changed.
    pub fn set(&mut self, key: Key, value: Value) -> Result<(), AttrErr>
        ensures ok { OnOk result (self.new ≡ put nat_cmp key value self.old) }
        ensures bad { (result ≡ Err (AttrErr.BadAttr key)) ↔ (kind_of key_rows key ≢ Some (value_kind value)) }
        ensures others { IfErr result (λ e. (e ≡ AttrErr.BadAttr key) ⊎ (e ≡ AttrErr.NoMemory)) }
        ensures err { OnErr result (self.new ≡ self.old) }
    {
        if value.kind() != key.kind() {
            return Err(AttrErr::BadAttr(key));
        }
        let place = place_of(self.entries.as_slice(), key);
        if has_key(self.entries.as_slice(), place, key) {
            self.entries[place] = (key, value);
            return Ok(());
        }
        match self.entries.insert(place, (key, value)) {
            Ok(()) => {}
            Err(_) => return Err(AttrErr::NoMemory),
        }
        Ok(())
    }

    /// Takes the key out, and tells whether it was there. It takes no memory.
    pub fn unset(&mut self, key: Key) -> bool
        ensures answer { result ≡ is_some (find nat_cmp key self.old) }
        ensures rest { self.new ≡ without key self.old }
    {
        let place = place_of(self.entries.as_slice(), key);
        if !has_key(self.entries.as_slice(), place, key) {
            return false;
        }
        let _ = self.entries.remove(place);
        true
    }

    /// Whether both are the same map. Linear in them and their texts.
    pub fn same(&self, other: &AttrList) -> bool
        ensures { IsTrue result ↔ (self.now ≡ other.now) }
    {
        same_entries(self.entries.as_slice(), other.entries.as_slice())
    }

    /// One block for the entries, whatever their texts: copies of a text share its bytes.
    pub fn copy(&self) -> Result<AttrList, NoMemory>
        ensures { IfOk result (λ a. a ≡ self.now) }
    {
        let entries = copy_entries(*self.entries.allocator(), self.entries.as_slice())?;
        Ok(AttrList { entries })
    }
}

/// How many entries stand before where the key stands or would stand.
fn place_of(entries: &[(Key, Value)], key: Key) -> usize
    ensures same { result ≡ prefix_len (λ e. nat_lt e.0 key) entries.now }
    ensures within { result ≤ length entries.now }
{
    entries.iter().take_while(|entry| entry.0 < key).count()
}

/// Whether the entry at the place has the key.
fn has_key(entries: &[(Key, Value)], place: usize, key: Key) -> bool
    ensures { result ≡ has_key key (slice_get entries.now place) }
{
    match entries.get(place) {
        Some(entry) => entry.0 == key,
        None => false,
    }
}

/// The value of the entry at the place, if it has the key.
fn value_at(entries: &[(Key, Value)], place: usize, key: Key) -> Option<&Value>
    ensures { option_copied result ≡ value_at key (slice_get entries.now place) }
{
    match entries.get(place) {
        Some(entry) if entry.0 == key => Some(&entry.1),
        _ => None,
    }
}

fn same_entry(a: &(Key, Value), b: &(Key, Value)) -> bool
    ensures { IsTrue result ↔ (a.now ≡ b.now) }
{
    a.0 == b.0 && a.1.same(&b.1)
}

fn same_entries(a: &[(Key, Value)], b: &[(Key, Value)]) -> bool
    ensures { IsTrue result ↔ (a.now ≡ b.now) }
{
    if a.len() != b.len() {
        return false;
    }
    for (i, entry) in a.iter().enumerate() {
        if !same_entry(entry, &b[i]) {
            return false;
        }
    }
    true
}

fn copy_entries(alloc: Global, entries: &[(Key, Value)]) -> Result<Vec<(Key, Value)>, NoMemory>
    ensures { IfOk result (λ copy. copy.items ≡ entries.now) }
{
    let mut copy = Vec::with_capacity(alloc, entries.len())?;
    for entry in entries {
        let value = entry.1.copy()?;
        copy.push((entry.0, value))?;
    }
    Ok(copy)
}
