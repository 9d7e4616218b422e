/// One of the two files of a kind: image.a or image.b, log.a or log.b.
#[derive(Clone, Copy, Debug, PartialEq, Eq)]
pub enum Slot {
    /// The first of the two.
    A,
    /// The second of the two.
    B,
}

impl Slot {
    ghost use Rattle.std.specs.Prelude.{◌≡◌};
    ghost use Rattle.file_format.specs.Slot.{other_slot};

    /// Returns the other file of the kind.
    pub fn other(self) -> Slot
        ensures { result ≡ other_slot self }
    {
        match self {
            Slot::A => Slot::B,
            Slot::B => Slot::A,
        }
    }
}
