//! Causes of a refused request.
ghost use Rattle.std.specs.Prelude.{◌≡◌};
ghost use Rattle.relay_admin.specs.AdminFaults.{status_of, line_of, why_of};

use http::StatusCode;

/// The causes for which a request is refused, in the order in which they are checked.
///
/// ```
/// // A page that reaches the port under a name of its own sends that name.
/// let head = "GET /metrics HTTP/1.1\r\nHost: relay.example\r\n\r\n";
/// assert!(rt; matches!(ask(alloc, head.as_bytes()), Ok(Ask::Refused(AdminFault::OtherHost))));
/// ```
#[derive(Clone, Copy, Debug, PartialEq, Eq)]
pub enum AdminFault {
    /// 400: the bytes can never become a request's head.
    NoHead,
    /// 431: the head is longer than 4,096 bytes, or has more than 32 fields.
    TooLong,
    /// 400: there is no `Host`, or more than one (RFC 9112, section 3.2).
    NoHost,
    /// 403: `Host` names no loopback. A page that reaches the port under a name of its own sends
    /// that name.
    OtherHost,
    /// 403: there is an `Origin`, so a page asked.
    Origin,
    /// 404: the path is none of the six, and begins with neither `/rooms/` nor `/open/`. Or, once
    /// all before [`AdminFault::BadQuery`] was checked, an edit has a query.
    NoPath,
    /// 405: the path takes `GET` alone.
    OnlyGet,
    /// 405: the path takes `POST` alone.
    OnlyPost,
    /// 405: the path of a room takes `GET`, `PATCH` and `DELETE` alone.
    OnlyRoomMethods,
    /// 405: the path of a door takes `PUT` and `DELETE` alone.
    OnlyDoorMethods,
    /// 400: the query of a `GET` is not exactly one `at=`, or its value is not the escaped text of
    /// UTF-8.
    BadQuery,
    /// 417: an edit has a field `Expect` (RFC 9110, section 10.1.1). No 100 is sent; a client that
    /// waits for one sends its request again without.
    Expectation,
    /// 415: an edit is no JSON Patch by its `Content-Type` (RFC 5789, section 2.2).
    MediaType,
    /// 411: an edit has no `Content-Length`, or a `Transfer-Encoding` (RFC 9110, section 15.5.12).
    NoLength,
    /// 400: an edit has more than one `Content-Length`, or one that is no decimal number.
    BadLength,
    /// 413: the body of an edit has more than 1,048,576 bytes.
    BodyTooLong,
}

impl AdminFault {
    /// The status of the response.
    ///
    /// ```
    /// assert!(rt; AdminFault::OtherHost.status() == StatusCode::FORBIDDEN);
    /// assert!(rt; AdminFault::OnlyPost.status() == StatusCode::METHOD_NOT_ALLOWED);
    /// ```
    pub fn status(self) -> StatusCode
        ensures { result ≡ status_of self }
    {
        match self {
            AdminFault::NoHead
            | AdminFault::NoHost
            | AdminFault::BadQuery
            | AdminFault::BadLength => StatusCode::BAD_REQUEST,
            AdminFault::TooLong => StatusCode::REQUEST_HEADER_FIELDS_TOO_LARGE,
            AdminFault::OtherHost | AdminFault::Origin => StatusCode::FORBIDDEN,
            AdminFault::NoPath => StatusCode::NOT_FOUND,
            AdminFault::OnlyGet
            | AdminFault::OnlyPost
            | AdminFault::OnlyRoomMethods
            | AdminFault::OnlyDoorMethods => StatusCode::METHOD_NOT_ALLOWED,
            AdminFault::Expectation => StatusCode::EXPECTATION_FAILED,
            AdminFault::MediaType => StatusCode::UNSUPPORTED_MEDIA_TYPE,
            AdminFault::NoLength => StatusCode::LENGTH_REQUIRED,
            AdminFault::BodyTooLong => StatusCode::PAYLOAD_TOO_LARGE,
        }
    }

    /// The field `Allow` that a 405 has (RFC 9110, section 15.5.6), or the `Accept-Patch` that a
    /// 415 has (RFC 5789, section 3.1), as a line; nothing for the others.
    pub(crate) fn line(self) -> &'static str
        ensures { result.now ≡ line_of self }
    {
        match self {
            AdminFault::OnlyGet => "Allow: GET\r\n",
            AdminFault::OnlyPost => "Allow: POST\r\n",
            AdminFault::OnlyRoomMethods => "Allow: GET, PATCH, DELETE\r\n",
            AdminFault::OnlyDoorMethods => "Allow: PUT, DELETE\r\n",
            AdminFault::MediaType => "Accept-Patch: application/json-patch+json\r\n",
            AdminFault::NoHead
            | AdminFault::TooLong
            | AdminFault::NoHost
            | AdminFault::OtherHost
            | AdminFault::Origin
            | AdminFault::NoPath
            | AdminFault::BadQuery
            | AdminFault::Expectation
            | AdminFault::NoLength
            | AdminFault::BadLength
            | AdminFault::BodyTooLong => "",
        }
    }

    /// The body of the response.
    pub(crate) fn why(self) -> &'static str
        ensures { result.now ≡ why_of self }
    {
        match self {
            AdminFault::NoHead => "this is no request\n",
            AdminFault::TooLong => "the head is too long\n",
            AdminFault::NoHost => "there is not one Host\n",
            AdminFault::OtherHost => "the Host is not the loopback\n",
            AdminFault::Origin => "pages may not ask\n",
            AdminFault::NoPath => "there is no such path\n",
            AdminFault::OnlyGet => "only GET\n",
            AdminFault::OnlyPost => "only POST\n",
            AdminFault::OnlyRoomMethods => "only GET, PATCH and DELETE\n",
            AdminFault::OnlyDoorMethods => "only PUT and DELETE\n",
            AdminFault::BadQuery => "the query is not one at=\n",
            AdminFault::Expectation => "no Expect is met\n",
            AdminFault::MediaType => "the Content-Type is not application/json-patch+json\n",
            AdminFault::NoLength => "there is no Content-Length\n",
            AdminFault::BadLength => "the Content-Length is not one number\n",
            AdminFault::BodyTooLong => "the body is too long\n",
        }
    }
}
