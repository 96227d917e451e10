//! Tests of which requests are accepted, and why the others are refused.
use crate::shared::shown;
use relay_admin::{Ask, EditRequest, MAX_BODY, MAX_HEAD, RevisionTag, ask};
use relay_test_stream::{Subject, cut, play};
use std::alloc::{AllocGlobal, Global};

const ROWS: &str = r#"
# Accepts six requests, of HTTP/1.0 too, and whatever comes behind the head.
ask GET /health HTTP/1.1\r\nHost: localhost\r\n\r\n => Request(Health)
ask GET /metrics HTTP/1.1\r\nHost: localhost\r\n\r\n => Request(Metrics)
ask GET /rooms HTTP/1.1\r\nHost: localhost\r\n\r\n => Request(Rooms)
ask GET /wanted HTTP/1.1\r\nHost: localhost\r\n\r\n => Request(Wanted)
ask POST /open HTTP/1.1\r\nHost: localhost\r\n\r\n => Request(Open)
ask POST /stop HTTP/1.1\r\nHost: localhost\r\n\r\n => Request(Stop)
ask GET /health HTTP/1.0\r\nHost: localhost\r\n\r\n => Request(Health)
ask GET /health HTTP/1.1\r\nHost: localhost\r\nContent-Length: 3\r\n\r\nabc => Request(Health)

# Accepts hosts of the loopback alone, and one of them.
ask POST /stop HTTP/1.1\r\nHost: LocalHost\r\n\r\n => Request(Stop)
ask POST /stop HTTP/1.1\r\nHost: localhost:8080\r\n\r\n => Request(Stop)
ask POST /stop HTTP/1.1\r\nHost: 127.0.0.1\r\n\r\n => Request(Stop)
ask POST /stop HTTP/1.1\r\nHost: 127.0.0.1:1\r\n\r\n => Request(Stop)
ask POST /stop HTTP/1.1\r\nHost: [::1]\r\n\r\n => Request(Stop)
ask POST /stop HTTP/1.1\r\nHost: [::1]:65535\r\n\r\n => Request(Stop)
ask POST /stop HTTP/1.1\r\nHost: localhost:\r\n\r\n => Refused(OtherHost)
ask POST /stop HTTP/1.1\r\nHost: localhost.\r\n\r\n => Refused(OtherHost)
ask POST /stop HTTP/1.1\r\nHost: localhost:8x\r\n\r\n => Refused(OtherHost)
ask POST /stop HTTP/1.1\r\nHost: localhost.evil.example\r\n\r\n => Refused(OtherHost)
ask POST /stop HTTP/1.1\r\nHost: evil.localhost\r\n\r\n => Refused(OtherHost)
ask POST /stop HTTP/1.1\r\nHost: 127.0.0.2\r\n\r\n => Refused(OtherHost)
ask POST /stop HTTP/1.1\r\nHost: [::1\r\n\r\n => Refused(OtherHost)
ask POST /stop HTTP/1.1\r\nHost: ::1\r\n\r\n => Refused(OtherHost)
ask POST /stop HTTP/1.1\r\nHost: l\r\n\r\n => Refused(OtherHost)
ask POST /stop HTTP/1.1\r\nHost: \r\n\r\n => Refused(OtherHost)
ask POST /stop HTTP/1.1\r\n\r\n => Refused(NoHost)
ask POST /stop HTTP/1.1\r\nHost: localhost\r\nhost: localhost\r\n\r\n => Refused(NoHost)

# Refuses pages.
ask GET /health HTTP/1.1\r\nHost: localhost\r\nOrigin: null\r\n\r\n => Refused(Origin)
ask GET /health HTTP/1.1\r\nHost: localhost\r\noRIGIN: http://localhost\r\n\r\n => Refused(Origin)
ask GET /health HTTP/1.1\r\nHost: localhost\r\nOrigin:\r\n\r\n => Refused(Origin)
ask GET /health HTTP/1.1\r\nHost: evil\r\nOrigin: null\r\n\r\n => Refused(OtherHost)
ask POST /stop HTTP/1.1\r\nHost: localhost\r\nOrigin: null\r\n\r\n => Refused(Origin)
ask POST /stop HTTP/1.1\r\nHost: localhost\r\noRIGIN: http://localhost\r\n\r\n => Refused(Origin)
ask POST /stop HTTP/1.1\r\nHost: localhost\r\nOrigin:\r\n\r\n => Refused(Origin)
ask POST /stop HTTP/1.1\r\nHost: evil\r\nOrigin: null\r\n\r\n => Refused(OtherHost)

# Refuses other paths and methods.
ask GET / HTTP/1.1\r\nHost: localhost\r\n\r\n => Refused(NoPath)
ask GET /health/ HTTP/1.1\r\nHost: localhost\r\n\r\n => Refused(NoPath)
ask GET /health?x=1 HTTP/1.1\r\nHost: localhost\r\n\r\n => Refused(NoPath)
ask GET /Health HTTP/1.1\r\nHost: localhost\r\n\r\n => Refused(NoPath)
ask GET /healt HTTP/1.1\r\nHost: localhost\r\n\r\n => Refused(NoPath)
ask GET http://localhost/health HTTP/1.1\r\nHost: localhost\r\n\r\n => Refused(NoPath)
ask POST /health HTTP/1.1\r\nHost: localhost\r\n\r\n => Refused(OnlyGet)
ask HEAD /health HTTP/1.1\r\nHost: localhost\r\n\r\n => Refused(OnlyGet)
ask get /health HTTP/1.1\r\nHost: localhost\r\n\r\n => Refused(OnlyGet)
ask GET /stop HTTP/1.1\r\nHost: localhost\r\n\r\n => Refused(OnlyPost)
ask GET /open HTTP/1.1\r\nHost: localhost\r\n\r\n => Refused(OnlyPost)
ask GET /wanted/ HTTP/1.1\r\nHost: localhost\r\n\r\n => Refused(NoPath)
ask GET /wanted?x=1 HTTP/1.1\r\nHost: localhost\r\n\r\n => Refused(NoPath)
ask POST /wanted HTTP/1.1\r\nHost: localhost\r\n\r\n => Refused(OnlyGet)
ask POST /open HTTP/1.1\r\nHost: localhost\r\nOrigin: null\r\n\r\n => Refused(Origin)
ask GET /health HTTP/2.0\r\nHost: localhost\r\n\r\n => Refused(NoHead)

# Accepts a request to forget a room, whatever its name is.
ask DELETE /rooms/r HTTP/1.1\r\nHost: localhost\r\n\r\n => Forget("r")
ask DELETE /rooms/ HTTP/1.1\r\nHost: localhost\r\n\r\n => Forget("")
ask DELETE /rooms/a/b?c HTTP/1.1\r\nHost: localhost\r\n\r\n => Forget("a/b?c")
ask DELETE /rooms/r HTTP/1.1\r\nHost: localhost\r\nContent-Length: 3\r\n\r\nabc => Forget("r")
ask DELETE /rooms HTTP/1.1\r\nHost: localhost\r\n\r\n => Refused(OnlyGet)
ask DELETE /room/r HTTP/1.1\r\nHost: localhost\r\n\r\n => Refused(NoPath)
ask DELETE rooms/r HTTP/1.1\r\nHost: localhost\r\n\r\n => Refused(NoPath)
ask DELETE /rooms/r HTTP/1.1\r\n\r\n => Refused(NoHost)
ask DELETE /rooms/r HTTP/1.1\r\nHost: evil\r\n\r\n => Refused(OtherHost)
ask DELETE /rooms/r HTTP/1.1\r\nHost: localhost\r\nOrigin: null\r\n\r\n => Refused(Origin)

# Takes three methods for a room, and no other.
ask POST /rooms/r HTTP/1.1\r\nHost: localhost\r\n\r\n => Refused(OnlyRoomMethods)
ask PUT /rooms/r?x HTTP/1.1\r\nHost: localhost\r\n\r\n => Refused(OnlyRoomMethods)
ask HEAD /rooms/r HTTP/1.1\r\nHost: localhost\r\n\r\n => Refused(OnlyRoomMethods)
ask get /rooms/r HTTP/1.1\r\nHost: localhost\r\n\r\n => Refused(OnlyRoomMethods)
ask patch /rooms/r HTTP/1.1\r\nHost: localhost\r\n\r\n => Refused(OnlyRoomMethods)
ask delete /rooms/r HTTP/1.1\r\nHost: localhost\r\n\r\n => Refused(OnlyRoomMethods)

# Accepts a request to admit clients to a room or to exclude them, whatever its name is.
ask PUT /open/r HTTP/1.1\r\nHost: localhost\r\n\r\n => Admit("r")
ask PUT /open/ HTTP/1.1\r\nHost: localhost\r\n\r\n => Admit("")
ask PUT /open/a/b?c HTTP/1.1\r\nHost: localhost\r\n\r\n => Admit("a/b?c")
ask PUT /open/%72 HTTP/1.1\r\nHost: localhost\r\n\r\n => Admit("%72")
ask PUT /open/r HTTP/1.1\r\nHost: localhost\r\nContent-Length: 3\r\n\r\nabc => Admit("r")
ask DELETE /open/r HTTP/1.1\r\nHost: localhost\r\n\r\n => Exclude("r")
ask DELETE /open/ HTTP/1.1\r\nHost: localhost\r\n\r\n => Exclude("")
ask DELETE /open/a/b?c HTTP/1.1\r\nHost: localhost\r\n\r\n => Exclude("a/b?c")
ask DELETE /open/r HTTP/1.1\r\nHost: localhost\r\nContent-Length: 3\r\n\r\nabc => Exclude("r")
ask PUT /open HTTP/1.1\r\nHost: localhost\r\n\r\n => Refused(OnlyPost)
ask DELETE /open HTTP/1.1\r\nHost: localhost\r\n\r\n => Refused(OnlyPost)
ask PUT /opened/r HTTP/1.1\r\nHost: localhost\r\n\r\n => Refused(NoPath)
ask PUT open/r HTTP/1.1\r\nHost: localhost\r\n\r\n => Refused(NoPath)
ask PUT /open/r HTTP/1.1\r\n\r\n => Refused(NoHost)
ask PUT /open/r HTTP/1.1\r\nHost: evil\r\n\r\n => Refused(OtherHost)
ask PUT /open/r HTTP/1.1\r\nHost: localhost\r\nOrigin: null\r\n\r\n => Refused(Origin)
ask DELETE /open/r HTTP/1.1\r\nHost: localhost\r\nOrigin: null\r\n\r\n => Refused(Origin)

# Takes two methods for a door, and no other.
ask GET /open/r HTTP/1.1\r\nHost: localhost\r\n\r\n => Refused(OnlyDoorMethods)
ask POST /open/ HTTP/1.1\r\nHost: localhost\r\n\r\n => Refused(OnlyDoorMethods)
ask PATCH /open/r?x HTTP/1.1\r\nHost: localhost\r\n\r\n => Refused(OnlyDoorMethods)
ask HEAD /open/r HTTP/1.1\r\nHost: localhost\r\n\r\n => Refused(OnlyDoorMethods)
ask put /open/r HTTP/1.1\r\nHost: localhost\r\n\r\n => Refused(OnlyDoorMethods)
ask delete /open/r HTTP/1.1\r\nHost: localhost\r\n\r\n => Refused(OnlyDoorMethods)

# Accepts a request for a part of a room, by a pointer in its query.
ask GET /rooms/r HTTP/1.1\r\nHost: localhost\r\n\r\n => Read(PartRequest { room: "r", at: "", if_none_match: EntityTags { list: [] } })
ask GET /rooms/r?at= HTTP/1.1\r\nHost: localhost\r\n\r\n => Read(PartRequest { room: "r", at: "", if_none_match: EntityTags { list: [] } })
ask GET /rooms/r?at=/a/0 HTTP/1.1\r\nHost: localhost\r\n\r\n => Read(PartRequest { room: "r", at: "/a/0", if_none_match: EntityTags { list: [] } })
ask GET /rooms/r?at=%2Fa%7e1%2520+b=c HTTP/1.1\r\nHost: localhost\r\n\r\n => Read(PartRequest { room: "r", at: "/a~1%20+b=c", if_none_match: EntityTags { list: [] } })
ask GET /rooms/r?at=/%C3%A4 HTTP/1.1\r\nHost: localhost\r\n\r\n => Read(PartRequest { room: "r", at: "/ä", if_none_match: EntityTags { list: [] } })
ask GET /rooms/r?at=/ä HTTP/1.1\r\nHost: localhost\r\n\r\n => Read(PartRequest { room: "r", at: "/ä", if_none_match: EntityTags { list: [] } })
ask GET /rooms/a/b?at=/x?y HTTP/1.1\r\nHost: localhost\r\n\r\n => Read(PartRequest { room: "a/b", at: "/x?y", if_none_match: EntityTags { list: [] } })
ask GET /rooms/ HTTP/1.1\r\nHost: localhost\r\n\r\n => Read(PartRequest { room: "", at: "", if_none_match: EntityTags { list: [] } })
ask GET /rooms/?at=a HTTP/1.1\r\nHost: localhost\r\n\r\n => Read(PartRequest { room: "", at: "a", if_none_match: EntityTags { list: [] } })
ask GET /rooms/%72 HTTP/1.1\r\nHost: localhost\r\n\r\n => Read(PartRequest { room: "%72", at: "", if_none_match: EntityTags { list: [] } })
ask GET /rooms/r?at=/a%26b HTTP/1.1\r\nHost: localhost\r\n\r\n => Read(PartRequest { room: "r", at: "/a&b", if_none_match: EntityTags { list: [] } })

# Refuses another query, once all else of the head is right.
ask GET /rooms/r? HTTP/1.1\r\nHost: localhost\r\n\r\n => Refused(BadQuery)
ask GET /rooms/r?at HTTP/1.1\r\nHost: localhost\r\n\r\n => Refused(BadQuery)
ask GET /rooms/r?AT=/a HTTP/1.1\r\nHost: localhost\r\n\r\n => Refused(BadQuery)
ask GET /rooms/r?to=/a HTTP/1.1\r\nHost: localhost\r\n\r\n => Refused(BadQuery)
ask GET /rooms/r?at=/a&at=/b HTTP/1.1\r\nHost: localhost\r\n\r\n => Refused(BadQuery)
ask GET /rooms/r?at=/a&x=1 HTTP/1.1\r\nHost: localhost\r\n\r\n => Refused(BadQuery)
ask GET /rooms/r?x=1&at=/a HTTP/1.1\r\nHost: localhost\r\n\r\n => Refused(BadQuery)
ask GET /rooms/r?at=% HTTP/1.1\r\nHost: localhost\r\n\r\n => Refused(BadQuery)
ask GET /rooms/r?at=%2 HTTP/1.1\r\nHost: localhost\r\n\r\n => Refused(BadQuery)
ask GET /rooms/r?at=%2g HTTP/1.1\r\nHost: localhost\r\n\r\n => Refused(BadQuery)
ask GET /rooms/r?at=%zz HTTP/1.1\r\nHost: localhost\r\n\r\n => Refused(BadQuery)
ask GET /rooms/r?at=%ff HTTP/1.1\r\nHost: localhost\r\n\r\n => Refused(BadQuery)
ask GET /rooms/r?at=/a?at=% HTTP/1.1\r\nHost: localhost\r\n\r\n => Refused(BadQuery)
ask GET /rooms/r? HTTP/1.1\r\n\r\n => Refused(NoHost)
ask GET /rooms/r? HTTP/1.1\r\nHost: localhost\r\nOrigin: null\r\n\r\n => Refused(Origin)

# Accepts an edit of a room, whatever has come of its body.
ask PATCH /rooms/r HTTP/1.1\r\nHost: localhost\r\nContent-Type: application/json-patch+json\r\nContent-Length: 2\r\n\r\n[] => Edit(EditRequest { room: "r", if_match: EntityTags { list: [] }, head: 106, length: 2 })
ask PATCH /rooms/r HTTP/1.1\r\nHost: localhost\r\nContent-Type: application/json-patch+json\r\nContent-Length: 2\r\n\r\n => Edit(EditRequest { room: "r", if_match: EntityTags { list: [] }, head: 106, length: 2 })
ask PATCH /rooms/r HTTP/1.1\r\nHost: localhost\r\nContent-Type: application/json-patch+json\r\nContent-Length: 2\r\n\r\n[] more => Edit(EditRequest { room: "r", if_match: EntityTags { list: [] }, head: 106, length: 2 })
ask PATCH /rooms/a/%20 HTTP/1.1\r\nHost: localhost\r\nContent-Type: application/json-patch+json\r\nContent-Length: 2\r\n\r\n[] => Edit(EditRequest { room: "a/%20", if_match: EntityTags { list: [] }, head: 110, length: 2 })
ask PATCH /rooms/r HTTP/1.1\r\nHost: localhost\r\ncontent-TYPE: Application/JSON-Patch+JSON\r\nContent-Length: 2\r\n\r\n[] => Edit(EditRequest { room: "r", if_match: EntityTags { list: [] }, head: 106, length: 2 })
ask PATCH /rooms/r HTTP/1.1\r\nHost: localhost\r\nContent-Type: application/json-patch+json; charset=utf-8\r\nContent-Length: 2\r\n\r\n[] => Edit(EditRequest { room: "r", if_match: EntityTags { list: [] }, head: 121, length: 2 })
ask PATCH /rooms/r HTTP/1.1\r\nHost: localhost\r\nContent-Type: application/json-patch+json ;v=1\r\nContent-Length: 2\r\n\r\n[] => Edit(EditRequest { room: "r", if_match: EntityTags { list: [] }, head: 111, length: 2 })
ask PATCH /rooms/r HTTP/1.1\r\nHost: localhost\r\nContent-Type: application/json-patch+json\r\nContent-Length: 002\r\n\r\n[] => Edit(EditRequest { room: "r", if_match: EntityTags { list: [] }, head: 108, length: 2 })
ask PATCH /rooms/r HTTP/1.1\r\nHost: localhost\r\nContent-Type: application/json-patch+json\r\nContent-Length: 0\r\n\r\n => Edit(EditRequest { room: "r", if_match: EntityTags { list: [] }, head: 106, length: 0 })
ask PATCH /rooms/r HTTP/1.1\r\nHost: localhost\r\nContent-Type: application/json-patch+json\r\nContent-Length: 1048576\r\n\r\n => Edit(EditRequest { room: "r", if_match: EntityTags { list: [] }, head: 112, length: 1048576 })

# Refuses an edit for the first reason, in this order.
ask PATCH /rooms/r?at=/a HTTP/1.1\r\nHost: localhost\r\nExpect: 100-continue\r\n\r\n => Refused(NoPath)
ask PATCH /rooms/r? HTTP/1.1\r\nHost: localhost\r\nContent-Type: application/json-patch+json\r\nContent-Length: 2\r\n\r\n => Refused(NoPath)
ask PATCH /rooms/r HTTP/1.1\r\nHost: localhost\r\nExpect: 100-continue\r\n\r\n => Refused(Expectation)
ask PATCH /rooms/r HTTP/1.1\r\nHost: localhost\r\nContent-Type: application/json-patch+json\r\nContent-Length: 2\r\nexpect:\r\n\r\n => Refused(Expectation)
ask PATCH /rooms/r HTTP/1.1\r\nHost: localhost\r\nTransfer-Encoding: chunked\r\n\r\n => Refused(MediaType)
ask PATCH /rooms/r HTTP/1.1\r\nHost: localhost\r\nContent-Type: application/json\r\nContent-Length: 2\r\n\r\n => Refused(MediaType)
ask PATCH /rooms/r HTTP/1.1\r\nHost: localhost\r\nContent-Type: application/json-patch+jsonx\r\nContent-Length: 2\r\n\r\n => Refused(MediaType)
ask PATCH /rooms/r HTTP/1.1\r\nHost: localhost\r\nContent-Type: application/json-patch+json, text/plain\r\nContent-Length: 2\r\n\r\n => Refused(MediaType)
ask PATCH /rooms/r HTTP/1.1\r\nHost: localhost\r\nContent-Type: application/json-patch\r\nContent-Length: 2\r\n\r\n => Refused(MediaType)
ask PATCH /rooms/r HTTP/1.1\r\nHost: localhost\r\nContent-Type: application/json-patch+json\r\nContent-Type: application/json-patch+json\r\nContent-Length: 2\r\n\r\n => Refused(MediaType)
ask PATCH /rooms/r HTTP/1.1\r\nHost: localhost\r\nContent-Length: 2\r\n\r\n => Refused(MediaType)
ask PATCH /rooms/r HTTP/1.1\r\nHost: localhost\r\nContent-Type: application/json-patch+json\r\n\r\n => Refused(NoLength)
ask PATCH /rooms/r HTTP/1.1\r\nHost: localhost\r\nContent-Type: application/json-patch+json\r\nTransfer-Encoding: chunked\r\n\r\n => Refused(NoLength)
ask PATCH /rooms/r HTTP/1.1\r\nHost: localhost\r\nContent-Type: application/json-patch+json\r\nTransfer-Encoding: chunked\r\nContent-Length: 2\r\n\r\n => Refused(NoLength)
ask PATCH /rooms/r HTTP/1.1\r\nHost: localhost\r\nContent-Type: application/json-patch+json\r\nTransfer-Encoding:\r\nContent-Length: 2\r\n\r\n => Refused(NoLength)
ask PATCH /rooms/r HTTP/1.1\r\nHost: localhost\r\nContent-Type: application/json-patch+json\r\nContent-Length: 2\r\nContent-Length: 2\r\n\r\n => Refused(BadLength)
ask PATCH /rooms/r HTTP/1.1\r\nHost: localhost\r\nContent-Type: application/json-patch+json\r\nContent-Length: 2, 2\r\n\r\n => Refused(BadLength)
ask PATCH /rooms/r HTTP/1.1\r\nHost: localhost\r\nContent-Type: application/json-patch+json\r\nContent-Length: -2\r\n\r\n => Refused(BadLength)
ask PATCH /rooms/r HTTP/1.1\r\nHost: localhost\r\nContent-Type: application/json-patch+json\r\nContent-Length: +2\r\n\r\n => Refused(BadLength)
ask PATCH /rooms/r HTTP/1.1\r\nHost: localhost\r\nContent-Type: application/json-patch+json\r\nContent-Length: 0x2\r\n\r\n => Refused(BadLength)
ask PATCH /rooms/r HTTP/1.1\r\nHost: localhost\r\nContent-Type: application/json-patch+json\r\nContent-Length: 2.0\r\n\r\n => Refused(BadLength)
ask PATCH /rooms/r HTTP/1.1\r\nHost: localhost\r\nContent-Type: application/json-patch+json\r\nContent-Length:\r\n\r\n => Refused(BadLength)
ask PATCH /rooms/r HTTP/1.1\r\nHost: localhost\r\nContent-Type: application/json-patch+json\r\nContent-Length: 1048577\r\n\r\n => Refused(BodyTooLong)
ask PATCH /rooms/r HTTP/1.1\r\nHost: localhost\r\nContent-Type: application/json-patch+json\r\nContent-Length: 18446744073709551616\r\n\r\n => Refused(BodyTooLong)
ask PATCH /rooms/r HTTP/1.1\r\nHost: localhost\r\nContent-Type: application/json-patch+json\r\nContent-Length: 18446744073709551618000000000000\r\n\r\n => Refused(BodyTooLong)
ask PATCH /rooms/r HTTP/1.1\r\nContent-Type: application/json-patch+json\r\nContent-Length: 2\r\n\r\n => Refused(NoHost)
ask PATCH /rooms/r HTTP/1.1\r\nHost: localhost\r\nOrigin: null\r\nContent-Type: application/json-patch+json\r\nContent-Length: 2\r\n\r\n => Refused(Origin)
ask PATCH /rooms HTTP/1.1\r\nHost: localhost\r\nContent-Type: application/json-patch+json\r\nContent-Length: 2\r\n\r\n => Refused(OnlyGet)

# Holds at the tag "5-7" exactly if If-Match is not there, or is `*`, or lists this tag alone.
if_match  => true
if_match If-Match: *\r\n => true
if_match If-Match: "5-7"\r\n => true
if_match if-match:   "5-7"  \r\n => true
if_match If-Match: "5-8"\r\n => false
if_match If-Match: "5-07"\r\n => false
if_match If-Match: 5-7\r\n => false
if_match If-Match: W/"5-7"\r\n => false
if_match If-Match: "5-6", "5-7"\r\n => false
if_match If-Match: "5-7"\r\nIf-Match: "5-7"\r\n => false
if_match If-Match:\r\n => false
if_match If-None-Match: "5-8"\r\n => true

# Holds only of a room that is there exactly if If-Match is `*`.
is_star If-Match: *\r\n => true
is_star if-match:  *  \r\n => true
is_star  => false
is_star If-Match: "5-7"\r\n => false
is_star If-Match: *, "5-7"\r\n => false
is_star If-Match: "*"\r\n => false
is_star If-None-Match: *\r\n => false

# Names that tag exactly if If-None-Match lists `*` or the tag, strong or weak.
if_none_match  => false
if_none_match If-None-Match: *\r\n => true
if_none_match If-None-Match: "5-7"\r\n => true
if_none_match If-None-Match: W/"5-7"\r\n => true
if_none_match If-None-Match: "5-6" ,W/"5-7", "x"\r\n => true
if_none_match If-None-Match: "5-6"\r\nif-none-match: "5-7"\r\n => true
if_none_match If-None-Match: "5-70"\r\n => false
if_none_match If-None-Match: 5-7\r\n => false
if_none_match If-None-Match: "a,5-7"\r\n => false
if_none_match If-None-Match:\r\n => false
if_none_match If-Match: "5-7"\r\n => false

# Bounds the head: it may have 4,096 bytes, here with 4,050 of them in a field. A caret stands for 64 bytes.
ask GET /health HTTP/1.1\r\nHost: localhost\r\nX: ^^^^^^^^^^^^^^^^^^^^^^^^^^^^^^^^^^^^^^^^^^^^^^^^^^^^^^^^^^^^^^^xxxxxxxxxxxxxxxxxx\r\n\r\n => Request(Health)
ask GET /health HTTP/1.1\r\nHost: localhost\r\nX: ^^^^^^^^^^^^^^^^^^^^^^^^^^^^^^^^^^^^^^^^^^^^^^^^^^^^^^^^^^^^^^^xxxxxxxxxxxxxxxxxxx\r\n\r\n => Refused(TooLong)

# Each part of a head but the whole leaves more to wait for.
ask  => More
ask G => More
ask GE => More
ask GET => More
ask GET  => More
ask GET / => More
ask GET /h => More
ask GET /he => More
ask GET /hea => More
ask GET /heal => More
ask GET /healt => More
ask GET /health => More
ask GET /health  => More
ask GET /health H => More
ask GET /health HT => More
ask GET /health HTT => More
ask GET /health HTTP => More
ask GET /health HTTP/ => More
ask GET /health HTTP/1 => More
ask GET /health HTTP/1. => More
ask GET /health HTTP/1.1 => More
ask GET /health HTTP/1.1\r => More
ask GET /health HTTP/1.1\r\n => More
ask GET /health HTTP/1.1\r\nH => More
ask GET /health HTTP/1.1\r\nHo => More
ask GET /health HTTP/1.1\r\nHos => More
ask GET /health HTTP/1.1\r\nHost => More
ask GET /health HTTP/1.1\r\nHost: => More
ask GET /health HTTP/1.1\r\nHost:  => More
ask GET /health HTTP/1.1\r\nHost: l => More
ask GET /health HTTP/1.1\r\nHost: lo => More
ask GET /health HTTP/1.1\r\nHost: loc => More
ask GET /health HTTP/1.1\r\nHost: loca => More
ask GET /health HTTP/1.1\r\nHost: local => More
ask GET /health HTTP/1.1\r\nHost: localh => More
ask GET /health HTTP/1.1\r\nHost: localho => More
ask GET /health HTTP/1.1\r\nHost: localhos => More
ask GET /health HTTP/1.1\r\nHost: localhost => More
ask GET /health HTTP/1.1\r\nHost: localhost\r => More
ask GET /health HTTP/1.1\r\nHost: localhost\r\n => More
ask GET /health HTTP/1.1\r\nHost: localhost\r\n\r => More

# Bounds the fields: there may be 32.
ask GET /health HTTP/1.1\r\nX: y\r\nX: y\r\nX: y\r\nX: y\r\nX: y\r\nX: y\r\nX: y\r\nX: y\r\nX: y\r\nX: y\r\nX: y\r\nX: y\r\nX: y\r\nX: y\r\nX: y\r\nX: y\r\nX: y\r\nX: y\r\nX: y\r\nX: y\r\nX: y\r\nX: y\r\nX: y\r\nX: y\r\nX: y\r\nX: y\r\nX: y\r\nX: y\r\nX: y\r\nX: y\r\nX: y\r\nHost: localhost\r\n\r\n => Request(Health)
ask GET /health HTTP/1.1\r\nX: y\r\nX: y\r\nX: y\r\nX: y\r\nX: y\r\nX: y\r\nX: y\r\nX: y\r\nX: y\r\nX: y\r\nX: y\r\nX: y\r\nX: y\r\nX: y\r\nX: y\r\nX: y\r\nX: y\r\nX: y\r\nX: y\r\nX: y\r\nX: y\r\nX: y\r\nX: y\r\nX: y\r\nX: y\r\nX: y\r\nX: y\r\nX: y\r\nX: y\r\nX: y\r\nX: y\r\nX: y\r\nHost: localhost\r\n\r\n => Refused(TooLong)
"#;

const _: () = prove!(MAX_HEAD == 4096);

const _: () = prove!(MAX_BODY == 1048576);

#[test]
fn requests_are_accepted_or_refused(rt: HostRuntime) {
    play(&rt, &mut Requests, ROWS).expect(&rt, "each row holds");
}

/// Requests, by their texts.
#[derive(Clone, Copy)]
struct Requests;

impl<R: AllocGlobal> Subject<R> for Requests {
    fn act(&mut self, rt: &R, act: &str) -> Option<String> {
        match cut(act) {
            ("ask", text) => answer_to(rt.alloc(), text),
            ("if_match", fields) => holds(rt.alloc(), fields),
            ("is_star", fields) => is_star(rt.alloc(), fields),
            ("if_none_match", fields) => is_named(rt.alloc(), fields),
            _ => None,
        }
    }
}

// The text that a caret stands for: 64 bytes.
const CARET: &str = "xxxxxxxxxxxxxxxxxxxxxxxxxxxxxxxxxxxxxxxxxxxxxxxxxxxxxxxxxxxxxxxx";

// The tag of the revision to which conditions are compared.
const TAG: RevisionTag = RevisionTag { epoch: 5, rev: 7 };

/// The answer to a text, whose ends of lines are written `\r` and `\n`.
fn answer_to(alloc: Global, text: &str) -> Option<String> {
    shown(alloc, asked(alloc, text)?)
}

fn asked(alloc: Global, text: &str) -> Option<Ask> {
    let text = text.replace(alloc, "^", CARET).ok()?;
    let text = text.as_str().replace(alloc, r"\r", "\r").ok()?;
    let text = text.as_str().replace(alloc, r"\n", "\n").ok()?;
    ask(alloc, text.as_str().as_bytes()).ok()
}

/// Says whether `If-Match` of an edit with these fields holds.
fn holds(alloc: Global, fields: &str) -> Option<String> {
    shown(
        alloc,
        edit(alloc, fields)?.if_match.matches(alloc, TAG).ok()?,
    )
}

/// Says whether `If-Match` of an edit with these fields holds only of a room that is there.
fn is_star(alloc: Global, fields: &str) -> Option<String> {
    shown(alloc, edit(alloc, fields)?.if_match.is_star())
}

/// The edit with these fields.
fn edit(alloc: Global, fields: &str) -> Option<EditRequest> {
    let text = format!(in alloc; "{EDIT}{fields}\r\n").ok()?;
    match asked(alloc, text.as_str()) {
        Some(Ask::Edit(edit)) => Some(edit),
        _ => None,
    }
}

/// Says whether `If-None-Match` of a request with these fields names the revision.
fn is_named(alloc: Global, fields: &str) -> Option<String> {
    let text = format!(in alloc; "{READ}{fields}\r\n").ok()?;
    let Some(Ask::Read(part)) = asked(alloc, text.as_str()) else {
        return None;
    };
    shown(alloc, part.if_none_match.names(alloc, TAG).ok()?)
}

const EDIT: &str = "PATCH /rooms/r HTTP/1.1\r\n\
     Host: localhost\r\n\
     Content-Type: application/json-patch+json\r\n\
     Content-Length: 2\r\n";

const READ: &str = "GET /rooms/r HTTP/1.1\r\nHost: localhost\r\n";
