//! The back of a list.
ghost use Rattle.std.specs.Prelude.{◌≡◌, ◌++◌, ◌∷◌, []};

/// Takes the last item of a list that has one.
pub(crate) fn take_last<T>(items: &mut Vec<T>) -> T
    requires { items.old.items ≡ [] → ⊥ }
    ensures { items.old.items ≡ items.new.items ++ result ∷ [] }
{
    items.pop().unwrap()
}
