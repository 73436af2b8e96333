//! Why a trial or a measurement could not be made.

/// Why a trial or a measurement could not be made, in the order of the exit statuses.
#[derive(Clone, Copy, Drop)]
pub enum Failure {
    /// The arguments name no trial and no measurement.
    Arguments,
    /// A file can't be read.
    File,
    /// A file does not hold what it should, or a call on it failed.
    Input,
    /// The output, a socket or the clock failed.
    System,
    /// Memory ran out outside of the tried call.
    NoMemory,
}

impl Failure {
    /// Returns the exit status, from 1 to 5.
    pub fn status(self) -> u8 {
        match self {
            Failure::Arguments => 1,
            Failure::File => 2,
            Failure::Input => 3,
            Failure::System => 4,
            Failure::NoMemory => 5,
        }
    }
}
