//! Text for a terminal: control characters are escaped.
ghost use Rattle.std.specs.Prelude.{◌≡◌, ◌<◌, Some};
ghost use Rattle.std.specs.Char.{digit_char};
ghost use Rattle.world_folder.specs.Texts.{shown_text};

use std::char;
use std::fmt::{self, Display};

/// A text whose control characters print as `\\x1b`. A path may have any, and a terminal
/// would obey them.
#[derive(Clone, Copy, Drop)]
pub struct Escaped<D: Display + Drop>(pub D);

impl<D: Display + Drop> fmt::Display for Escaped<D> {
    fn fmt<W: fmt::Write>(&self, f: &mut fmt::Formatter<W>) -> fmt::Result {
        let mut escaping = Escaping { to: f };
        fmt::Write::write(&mut escaping, &self.0)
    }
}

// Passes text on, with its control characters escaped.
#[derive(Drop)]
struct Escaping<'a, W: fmt::Write> {
    to: &'a mut fmt::Formatter<W>,
}

impl<W: fmt::Write> fmt::Write for Escaping<'_, W> {
    fn write_str(&mut self, s: &str) -> fmt::Result {
        for c in s.chars() {
            write!(self.to, "{}", Shown(c))?;
        }
        Ok(())
    }
}

// A character as it is shown.
#[derive(Clone, Copy)]
struct Shown(char);

impl fmt::Display for Shown {
    ghost output = { λ shown. Some (shown_text shown.0) };

    fn fmt<W: fmt::Write>(&self, f: &mut fmt::Formatter<W>) -> fmt::Result {
        if self.0.is_control() {
            let code = self.0 as u32;
            write!(f, "\\x{}{}", hex_digit(code / 16), hex_digit(code % 16))
        } else {
            f.write_char(self.0)
        }
    }
}

// The digit of a value, to the base 16.
fn hex_digit(value: u32) -> char
    requires { value < 16 }
    ensures { result ≡ digit_char value }
{
    match char::from_digit(value, 16) {
        Some(digit) => digit,
        None => '0',
    }
}
