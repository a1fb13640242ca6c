// The text of a report, on the heap.
#![tactic(auto)]

ghost use Rattle.std.specs.Prelude.{◌≡◌, IfOk, string_bytes};
ghost use Rattle.report_pages.specs.Reports.{report_text};
ghost use Rattle.reports.specs.Lines.{Told};

use report_pages::Report;
use std::alloc::{AllocError, Global};

// The report on a rule byte and a plan, or one line that says why there is none.
pub fn report_on(heap: Global, input: &[u8]) -> Result<String, AllocError>
    ensures text { IfOk result (λ s. string_bytes s ≡ report_text input.now) }
    ensures refused { IfOk result (λ s. Told input.now (string_bytes s)) }
{
    let report = Report { input };
    format!(in heap; "{report}")
}
