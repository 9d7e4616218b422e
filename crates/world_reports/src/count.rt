ghost use Rattle.std.specs.Prelude.{Some};
ghost use Rattle.world_reports.specs.Texts.{counted_text};

use std::fmt;

/// A count of things, which prints with their noun.
#[derive(Clone, Copy)]
pub struct Counted(pub usize, pub &'static str);

impl fmt::Display for Counted {
    ghost output = { λ counted. Some (counted_text counted.0 counted.1.now) };

    fn fmt<W: fmt::Write>(&self, f: &mut fmt::Formatter<W>) -> fmt::Result {
        let Counted(count, noun) = *self;
        let plural = if count == 1 { "" } else { "s" };
        write!(f, "{count} {noun}{plural}")
    }
}
