ghost use Rattle.std.specs.Prelude.{◌≡◌, ◌≤◌, length};
ghost use Rattle.ocm_limits.specs.Limits.{most_path_bytes};
ghost use Rattle.ocm_path.specs.Paths.{joined};

use ocm_path::Path;

/// How many bytes the segments of a path have, each after a `/`: none for the root, at most 2,048.
pub fn joined_len(path: &Path) -> usize
    ensures len { result ≡ length (joined path.now) }
    ensures within { result ≤ most_path_bytes }
{
    let segments = path.segments();
    if segments.is_empty() {
        0
    } else {
        path.text_len()
    }
}
