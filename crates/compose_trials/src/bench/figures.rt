//! Output of figures.
use crate::failure::Failure;

/// Prints each name with its number. `Err(System)` if the output fails.
pub fn print(rt: &HostRuntime, figures: &[(&str, u64)]) -> Result<(), Failure> {
    for (name, number) in figures {
        if println!(rt; "{name}\t{number}").is_err() {
            return Err(Failure::System);
        }
    }
    Ok(())
}
