//! What holds of every span, every file and every destination: which values write which spans,
//! which places of a file they name, and which paths links and addresses name.

ghost use Rattle.std.specs.Prelude.{◌≡◌, ◌≤◌, ◌<◌, ◌↔◌, ◌++◌, List, ℕ, length, codes, false, Some, Ok, Err, IsTrue, IfSome};
ghost use Rattle.std.specs.Str.{is_utf8};
ghost use Rattle.url.specs.Ipv4.{ends_in_a_number};
ghost use Rattle.url.specs.Parts.{Parts, IsValid, serialize};
ghost use Rattle.ocm_limits.specs.Limits.{most_asked_path_bytes};
ghost use Rattle.ocm_types.specs.Hosts.{colon, cut_at_first, is_host};
ghost use Rattle.ocm_path.specs.Paths.{Segments, is_path, path_text, path_escaped};
ghost use Rattle.ocm_davmore.specs.declared.faults.DestinationFault.TheVariants.{OtherServer};
ghost use Rattle.ocm_davmore.specs.declared.ranges.Span.{Span};
ghost use Rattle.ocm_davmore.specs.Destinations.{is_web, is_ours, destination_of};
ghost use Rattle.ocm_davmore.specs.Ranges.{IsWritten, is_span, is_suffix, places_of, span_of, span_text};

/// The form in which a span is written is read back as that span; what is read is a span, and its
/// value one of the written forms.
pub fn spans_read_back()
    ensures read { (span : Span) → IsTrue (is_span span) → span_of (span_text span) ≡ Some span }
    ensures sound { (value : List ℕ) (span : Span) → span_of value ≡ Some span
        → IsTrue (is_span span) }
    ensures written { (value : List ℕ) (span : Span)
        → (span_of value ≡ Some span) ↔ IsWritten span value }
{}

/// The places of a span lie inside the file, the first of them not behind the last.
pub fn places_lie_inside()
    ensures { (span : Span) (size : ℕ) → IsTrue (is_span span)
        → (IsTrue (is_suffix span) → 0 < size)
        → IfSome (places_of span size) (λ places. (places.0 ≤ places.1) × (places.1 < size)) }
{}

/// A link, `/dav` and the escaped text of a path, is read back as that path, also with a query
/// behind it. What begins with `//` names another server.
pub fn links_read_back()
    ensures link { (ours : List ℕ) (path : Segments) → IsTrue (is_path path)
        → length (path_text path) ≤ most_asked_path_bytes
        → destination_of ours (codes "/dav" ++ path_escaped path) ≡ Ok path }
    ensures query { (ours : List ℕ) (path : Segments) (query : List ℕ) → IsTrue (is_path path)
        → length (path_text path) ≤ most_asked_path_bytes → IsTrue (is_utf8 query)
        → destination_of ours (codes "/dav" ++ path_escaped path ++ (codes "?" ++ query))
        ≡ Ok path }
    ensures two_slashes { (ours rest : List ℕ)
        → destination_of ours (codes "//" ++ rest) ≡ Err OtherServer }
{}

/// The text of an address of `http` or `https` at our host whose path is a link is read back as the
/// link's path, whatever user name, password, query and fragment it has. With another host it names
/// another server. `http://`, a host and a link are such an address of that host, unless the URL
/// Standard reads the host's name as an IPv4 address.
pub fn addresses_read_back()
    ensures ours { (ours : List ℕ) (url : Parts) (path : Segments) → IsValid url
        → IsTrue (is_ours ours url) → url.path ≡ codes "/dav" ++ path_escaped path
        → IsTrue (is_path path) → length (path_text path) ≤ most_asked_path_bytes
        → destination_of ours (serialize url) ≡ Ok path }
    ensures other { (ours : List ℕ) (url : Parts) → IsValid url → IsTrue (is_web url.scheme)
        → is_ours ours url ≡ false → destination_of ours (serialize url) ≡ Err OtherServer }
    ensures plain { (ours : List ℕ) (path : Segments) → IsTrue (is_host ours)
        → ends_in_a_number (cut_at_first colon ours).0 ≡ false → IsTrue (is_path path)
        → length (path_text path) ≤ most_asked_path_bytes
        → destination_of ours (codes "http://" ++ (ours ++ (codes "/dav" ++ path_escaped path)))
        ≡ Ok path }
{}
