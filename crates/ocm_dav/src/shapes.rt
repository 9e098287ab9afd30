ghost use Rattle.std.specs.Prelude.{◌≡◌};
ghost use Rattle.ocm_dav.specs.Shapes as shapes;

use crate::fields::first_value;
use ocm_dav_pages::{Allow, Shape};
use ocm_davmore::{Span, read_range};
use ocm_http::Field;

/// The shape of the page that answers a request, without a range.
pub(crate) fn shape_of(method: &str, closing: bool, allow: Allow) -> Shape
    ensures { result ≡ shapes.shape_of method.now closing allow }
{
    Shape {
        bodyless: method == "HEAD",
        closing,
        allow,
        range: None,
    }
}

/// The shape with the range that the first `range` field names, if it names one.
pub(crate) fn with_range(fields: &[Field], shape: Shape) -> Shape
    ensures { result ≡ shapes.with_range fields.now shape }
{
    Shape {
        range: range_of(fields),
        ..shape
    }
}

fn range_of(fields: &[Field]) -> Option<Span>
    ensures { result ≡ shapes.range_of fields.now }
{
    match first_value(fields, "range") {
        Some(value) => read_range(value),
        None => None,
    }
}
