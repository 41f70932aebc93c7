// A log that makes no block.
ghost use Rattle.std.specs.Prelude.{◌≡◌};
ghost use Rattle.ksi_top.specs.Log.{log_refused};

use crate::report::Report;
use crate::status::Status;
use ksi_lines::log_refused_line;
use ksi_logblock::LogRefusal;

/// Why a log makes no block.
pub(crate) fn log_refused(refusal: LogRefusal) -> Report
    ensures { result ≡ log_refused refusal }
{
    Report::new(Status::Refused, log_refused_line(refusal))
}
