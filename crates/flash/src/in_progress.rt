// The mark of a change under way.
ghost use Rattle.std.specs.Prelude.{◌≡◌, true, false};

/// The mark of a change under way, handed out by an accepted program or erase. It cannot be copied, and it may be let
/// go only after `wait` has spent it.
pub struct InProgress {
    spent: bool,
}

impl Drop for InProgress {
    fn drop(self)
        requires { self.spent ≡ true }
    {
        let InProgress { spent: _ } = self;
    }
}

impl InProgress {
    /// The mark of a change that has just started. For implementations of a flash.
    pub fn started() -> InProgress
        ensures { result ≡ record { spent = false } }
    {
        InProgress { spent: false }
    }

    // The change has landed.
    pub(crate) fn spend(&mut self)
        requires { self.old.spent ≡ false }
        ensures { self.new.spent ≡ true }
    {
        self.spent = true;
    }
}
