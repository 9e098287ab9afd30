//! Laws of the definitions, each the contract of a function that computes nothing.

ghost use Rattle.std.specs.Prelude.{◌≡◌, ◌≤◌, length, Ok};
ghost use Rattle.ocm_limits.specs.Limits.{most_asked_path_bytes};
ghost use Rattle.ocm_path.specs.Paths.{path_text, path_escaped, path_of};

use crate::paths::Path;

/// The escaped text of a path is read as that path, where its text has at most 1,024 bytes.
pub fn escaped_reads_back(path: &Path)
    requires { length (path_text path.now) ≤ most_asked_path_bytes }
    ensures { path_of (path_escaped path.now) ≡ Ok path.now }
{
    let _segments = path.segments();
}
