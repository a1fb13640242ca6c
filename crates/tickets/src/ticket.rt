// The ticket itself.
ghost use Rattle.std.specs.Prelude.{◌≡◌, true};

// Stands for an open instance of a task. It ends in close, drop or surrender.
#[must_use]
#[derive(Debug)]
pub struct Ticket {
    pub(crate) task: u8,
    // The drop contract reads it. A type without a drop needs no mark, but a lost ticket is then refused before any proof, so no must-fail edit shows it.
    pub(crate) spent: bool,
}

impl Drop for Ticket {
    // Only a spent ticket may be let go.
    fn drop(self)
        requires { self.spent ≡ true }
    {
        let Ticket { task: _, spent: _ } = self;
    }
}
