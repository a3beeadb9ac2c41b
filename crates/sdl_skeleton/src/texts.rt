//! Texts, written one behind the other.
use std::io::{Result, Write};

/// Writes the texts, one behind the other.
pub fn write_texts<W: Write>(output: &mut W, texts: &[&str]) -> Result<()> {
    for text in texts {
        output.write_all(text.as_bytes())?;
    }
    Ok(())
}

/// Writes each line with a newline.
pub fn write_lines<W: Write>(output: &mut W, lines: &[&str]) -> Result<()> {
    for line in lines {
        output.write_all(line.as_bytes())?;
        output.write_all(b"\n")?;
    }
    Ok(())
}
