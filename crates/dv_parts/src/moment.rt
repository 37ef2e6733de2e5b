//! The moment for which a service validates.

ghost use Rattle.std.specs.Prelude.{option_map};
ghost use Rattle.dv_request.specs.Information.{view_request_time};
ghost use Rattle.dv_parts.specs.Moments.{IsWhen};

use dv_request::{RequestInfo, RequestTime};
use dv_time::Moment;

/// The moment of validation: the one that the request names (RFC 3029 7.3), and else that of service.
pub fn validation_moment(info: &RequestInfo<'_>, moment: Moment) -> Moment
    ensures { IsWhen (option_map view_request_time info.now.time) moment result }
{
    match &info.time {
        Some(RequestTime::At(when)) => {
            // Read for its contract: it is a second that a moment may be.
            let _seconds = when.seconds();
            *when
        }
        Some(RequestTime::Token(_)) | None => moment,
    }
}
