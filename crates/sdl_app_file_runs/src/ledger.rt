//! The text of a ledger.
use sdl_run::Ledger;
use std::io::{Result, Write};

/// Writes the ledger as two lines, one for each of its equations: where the outputs went, and where the signals went that
/// entered.
pub fn write_ledger<W: Write>(output: &mut W, ledger: &Ledger) -> Result<()> {
    write_counts(
        output,
        &[
            ("output", ledger.output),
            ("noroute", ledger.no_route),
            ("entered", ledger.entered),
            ("noinstance", ledger.no_instance),
            ("gone", ledger.gone),
            ("left", ledger.left),
        ],
    )?;
    write_counts(
        output,
        &[
            ("entered", ledger.entered),
            ("fired", ledger.fired),
            ("implicit", ledger.implicit),
            ("stopped", ledger.stopped),
            ("waiting", ledger.waiting),
            ("environment", ledger.environment),
        ],
    )
}

/// Writes a line of the ledger: each count, after its name.
fn write_counts<W: Write>(output: &mut W, counts: &[(&str, u64)]) -> Result<()> {
    write!(output, "ledger")?;
    for (name, count) in counts {
        write!(output, " {name} {count}")?;
    }
    writeln!(output)
}
