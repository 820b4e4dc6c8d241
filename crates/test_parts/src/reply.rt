use crate::cases::Row;

/// Statuses that are answered here, with their reason phrases (RFC 3261 21).
pub(crate) const REASONS: &[Row] = &[
    Row::Reason(100, b"Trying"),
    Row::Reason(200, b"OK"),
    Row::Reason(400, b"Bad Request"),
    Row::Reason(401, b"Unauthorized"),
    Row::Reason(403, b"Forbidden"),
    Row::Reason(404, b"Not Found"),
    Row::Reason(407, b"Proxy Authentication Required"),
    Row::Reason(408, b"Request Timeout"),
    Row::Reason(416, b"Unsupported URI Scheme"),
    Row::Reason(420, b"Bad Extension"),
    Row::Reason(423, b"Interval Too Brief"),
    Row::Reason(480, b"Temporarily Unavailable"),
    Row::Reason(481, b"Call/Transaction Does Not Exist"),
    Row::Reason(482, b"Loop Detected"),
    Row::Reason(483, b"Too Many Hops"),
    Row::Reason(487, b"Request Terminated"),
    Row::Reason(500, b"Server Internal Error"),
    Row::Reason(503, b"Service Unavailable"),
    Row::Reason(505, b"Version Not Supported"),
];
