// A log that makes no block.
ghost use Rattle.std.specs.Prelude.{◌≡◌};
ghost use Rattle.ksi_blocks.specs.Reports.{log_refused};

use crate::report::Report;
use ksi_lines::log_refused_line;
use ksi_logblock::LogRefusal;

/// Why a log makes no block.
pub(crate) fn log_refused(refusal: LogRefusal) -> Report
    ensures { result ≡ log_refused refusal }
{
    Report::new(1, log_refused_line(refusal))
}
