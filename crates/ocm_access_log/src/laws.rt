//! Laws of the definitions, each the contract of a function that computes nothing.
ghost use Rattle.std.specs.Prelude.{◌≡◌, ◌≤◌, ◌<◌, ◌^◌, ℕ, List, [], All, Ok, Some, IsTrue};
ghost use Rattle.std.specs.Fmt.{decimal};
ghost use Rattle.ocm_path.specs.Paths.{Segments};
ghost use Rattle.ocm_entry.specs.Proper.{is_short};
ghost use Rattle.ocm_entry.specs.declared.asks.Ask.TheVariants.{Dav};
ghost use Rattle.ocm_entry.specs.declared.asks.Method.{Method};
ghost use Rattle.ocm_access_log.specs.declared.lines.LogLine.{LogLine};
ghost use Rattle.ocm_access_log.specs.Lines.{is_reading, line_of, line_text, log_of};
ghost use Rattle.ocm_access_log.specs.Reads.{AreLogged};
ghost use Rattle.ocm_access_log.specs.Written.{IsLoggable, written_log};

use ocm_entry::Method;
use ocm_path::Path;
use ocm_types::Secret;

/// What is written of a read, its line feed aside, is read back as that read.
pub fn a_line_is_read_back()
    ensures { (place moment : ℕ) (method : Method) (secret : List ℕ) (path : Segments) (status : ℕ)
        → IsLoggable (record { place = place; moment = moment; ask = Dav secret method path []; status = status })
        → line_of (line_text place moment method secret path (decimal status))
        ≡ Some (record { place = place; moment = moment; ask = Dav secret method path []; status = status }) }
{}

/// What is written of lines whose places and moments don't fall is read back as these lines.
pub fn a_log_is_read_back()
    ensures { (lines : List LogLine) → All IsLoggable lines → AreLogged lines → log_of (written_log lines) ≡ Ok lines }
{}

/// A read can be written and is read back, where its method reads, its path is short and its status has three digits.
pub fn a_read_is_loggable(
    place: u64,
    moment: u64,
    method: Method,
    secret: &Secret,
    path: &Path,
    status: u16,
)
    requires reads { IsTrue (is_reading method) }
    requires short { IsTrue (is_short path.now) }
    requires digits { (100 ≤ status) × (status ≤ 999) }
    ensures { IsLoggable (record { place = place; moment = moment; ask = Dav secret.now method path.now []; status = status }) }
{
    let _secret = secret.as_str();
    let _path = path.segments();
}
