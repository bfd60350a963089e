//! The trees that are gone.
ghost use Rattle.std.specs.Prelude.{◌≡◌, ℕ, true, false, nat_eq, if◌then◌else◌};
ghost use Rattle.ax_managers.specs.Shown.{is_gone};

use ax_base::TreeId;

/// Of each tree id whether that tree is gone. It takes no memory beyond itself, so a tree can always go.
#[derive(Clone, Copy, Debug)]
pub struct Gone {
    flags: [bool; 1001],
}

impl Gone {
    /// No tree is gone.
    pub fn none() -> Gone
        ensures { (t : ℕ) → is_gone result t ≡ false }
    {
        Gone {
            flags: [false; 1001],
        }
    }

    pub fn has(&self, t: TreeId) -> bool
        ensures { result ≡ is_gone self.now t }
    {
        self.flags[t.get() as usize]
    }

    pub fn add(&mut self, t: TreeId)
        ensures { (u : ℕ) → is_gone self.new u ≡ (if nat_eq t u then true else is_gone self.old u) }
    {
        self.flags[t.get() as usize] = true;
    }
}
