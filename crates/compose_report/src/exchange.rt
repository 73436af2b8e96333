//! The outcome of an exchange with a service.
ghost use Rattle.std.specs.Prelude.{◌≡◌, IfOk};
ghost use Rattle.compose_report.specs.Ends.{exchange_end};
ghost use Rattle.compose_report.specs.Exchange as exchange;
ghost use Rattle.compose_report.specs.Exchange.{IsExchangeOutcome};

use crate::outcome::Outcome;
use compose_answer::Ended;
use compose_session::{End, ExchangeReport};
use std::alloc::{AllocError, Global};

/// Returns the outcome of an exchange: what is printed for the replies, and on standard error, if
/// the exchange is incomplete, why. O(1).
/// Errors: `AllocError` if memory runs out.
pub fn exchange_outcome(alloc: Global, report: ExchangeReport) -> Result<Outcome, AllocError>
    ensures { IfOk result (λ outcome. IsExchangeOutcome report outcome) }
{
    let errors = String::from_str(alloc, refusal_of(report.end))?;
    Ok(Outcome {
        notes: String::new(alloc),
        output: report.text,
        errors,
        file: None,
        ended: end_of_exchange(report.end),
    })
}

/// Returns why an exchange is incomplete; an empty text if it is complete.
fn refusal_of(end: End) -> &'static str
    ensures { result.now ≡ exchange.refusal_of end }
{
    match end {
        End::Answered | End::Refused => "",
        End::Closed => "refused: connection: closed before the reply\n",
        End::Unexpected => "refused: connection: not the reply that was asked for\n",
    }
}

/// Returns how a run ends after an exchange.
fn end_of_exchange(end: End) -> Ended
    ensures { result ≡ exchange_end end }
{
    match end {
        End::Answered => Ended::Yes,
        End::Refused => Ended::No,
        End::Closed | End::Unexpected => Ended::Refused,
    }
}
