//! What is told of a path that can't be read.

ghost use Rattle.std.specs.Prelude.{◌≡◌, ◌≤◌, length};
ghost use Rattle.ocm_dav.specs.Paths as paths;

use ocm_path::PathFault;

/// The words that tell a client what is wrong with a path.
pub(crate) fn path_message(fault: PathFault) -> &'static str
    ensures text { result.now ≡ paths.path_message fault }
    ensures short { length result.now ≤ 1024 }
{
    match fault {
        PathFault::BadEscape => "bad escape",
        PathFault::NotText => "not text",
        PathFault::EmptySegment => "empty segment",
        PathFault::Dots => "dots",
        PathFault::BadChar => "bad character",
        PathFault::TooLong => "path too long",
        PathFault::NoMemory => "no memory",
    }
}
