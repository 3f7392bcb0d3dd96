// How many characters are printed of a value.
use std::fmt;
use std::fmt::{Display, Write};

// Counts the characters that are written to it.
#[derive(Drop)]
struct Count(usize);

impl Write for Count {
    ghost write_str_gives = { λ _ _ _. Unit {0} };

    fn write_str(&mut self, text: &str) -> fmt::Result {
        self.0 = self.0.saturating_add(text.chars().count());
        Ok(())
    }
}

/// How many characters are printed of a value.
pub fn width(value: &impl Display) -> usize {
    let mut count = Count(0);
    // Counting never fails, and a value that could not be written is as wide as what was.
    let _ = write!(count, "{value}");
    count.0
}
