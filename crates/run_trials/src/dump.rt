// A run of bytes as it is printed.
use std::fmt;

// How many bytes stand in a line.
const LINE: usize = 32;

// The bytes, each as two digits, from a line of its own on.
#[derive(Drop)]
pub struct Dump<'a>(pub &'a [u8]);

impl fmt::Display for Dump<'_> {
    fn fmt<W: fmt::Write>(&self, f: &mut fmt::Formatter<W>) -> fmt::Result {
        for line in self.0.chunks(LINE) {
            write!(f, "\n    ")?;
            for byte in line {
                write!(f, "{byte:02x}")?;
            }
        }
        Ok(())
    }
}
