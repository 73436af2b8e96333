//! How connections end, and the reporting of it.
ghost use Rattle.std.specs.Prelude.{◌≡◌, ℕ, [], ◌∷◌, List, Option, MatchResult};
ghost use Rattle.compose_hub.specs.Ends.{ReportedEnd, reported_more, ReportsEnd};

use compose_serve::{ServeFault, StreamEnd};
use std::io;

/// How a connection ended.
#[derive(Clone, Copy, Debug, PartialEq, Eq, Drop)]
pub enum ConnectionEnd {
    /// As a stream does that `serve` serves.
    Served(Result<StreamEnd, ServeFault>),
    /// It held much of a load, and nothing more of that came for ten seconds while others waited
    /// for room.
    Stalled,
    /// It neither sent nor took anything for as long as a connection may be idle.
    Idle,
}

/// What the ends of connections are reported to.
pub trait EndReport {
    /// The ends that were reported so far, if they are known.
    ghost reported: { Self → Option (List ReportedEnd) };

    /// Reports that the connection with this number has ended in this way. Connections are numbered
    /// from 1 in the order in which they were accepted.
    ///
    /// Errors: an I/O error of the report. It ends the service; then nothing was reported.
    fn ended(&mut self, number: u32, how: ConnectionEnd) -> io::Result<()>
        ensures { MatchResult result
            (λ _. reported self.new ≡ reported_more (reported self.old)
            (record { number = number; how = how } ∷ []))
            (λ _. reported self.new ≡ reported self.old) };

    /// Catches up on ends that `ended` accepted but could not print or send at once, if that is
    /// possible now. They count as reported already. Returns `false` if some are left and it is
    /// worth trying again.
    ///
    /// It is called in each round, and again within a second after it returned `false`.
    fn catch_up(&mut self) -> bool
        ensures { reported self.new ≡ reported self.old };
}

/// Reports the end of a connection, if there is one: its number, and how it ended.
pub(crate) fn tell<E: EndReport>(
    report: &mut E,
    ended: Option<(u32, ConnectionEnd)>,
) -> io::Result<()>
    ensures { ReportsEnd (E.reported report.old) (E.reported report.new) ended result }
{
    match ended {
        Some((number, how)) => report.ended(number, how),
        None => Ok(()),
    }
}
