//! The laws of connections.
ghost use Rattle.compose_many.specs.Ends.{EndsAsStream, EndsAtWrite, EndsAtWriteAsStream};
ghost use Rattle.compose_many.specs.Owners.{EndedOwnNone, NoSessionStays};
ghost use Rattle.compose_many.specs.Service.{EachHasItsOwn, TurnsAreServed, ServedOneAfterAnother};

/// Each connection gets the replies to its own requests alone, and all connections together are one
/// run of the service.
///
/// What happens on many connections is a list of events, each with the number of its connection. A
/// turn is a list of such events (`turn`), and one list followed by another is one list (`append`).
/// The exchanges of all connections, in order, are one history of the service. On each connection,
/// the answered requests are the first frames that came on it, in order, and the sent and the
/// unsent bytes together are the replies to exactly these requests (`own`).
pub fn law_connections()
    ensures own { EachHasItsOwn }
    ensures turn { TurnsAreServed }
    ensures append { ServedOneAfterAnother }
{}

/// A connection ends as a stream does that `serve` serves (`stream`).
///
/// Only if a write failed may more be missing: the last bytes of the replies, fewer than the limit
/// plus the maximum length of a reply (`write`). With the limit 1 it is a part of the last reply,
/// as on a stream (`one`).
pub fn law_ends()
    ensures stream { EndsAsStream }
    ensures write { EndsAtWrite }
    ensures one { EndsAtWriteAsStream }
{}

/// Sessions that end with their connection leave none behind.
///
/// A connection that ended with its sessions owns none, whatever happened on others since
/// (`owns_none`). So where each connection did, or nothing happened on it, no session is open but
/// those that were open before the first one (`none_stays`).
pub fn law_own_sessions()
    ensures owns_none { EndedOwnNone }
    ensures none_stays { NoSessionStays }
{}
