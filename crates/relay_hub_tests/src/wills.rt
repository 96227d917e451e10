//! Tests of wills, and of rooms that are forgotten.
use crate::calls::play_on_hubs;

const ROWS: &str = r#"
# A will is done once its session is closed: an edit of which nobody gets a reply.
new
begin a => Ok(Opening { session: 1, rev: 0 })
begin a => Ok(Opening { session: 2, rev: 0 })
say 2 {"do":"watch","id":1,"view":[""]} => Ok(Answered { short: 0 })
say 1 {"do":"will","id":1,"patch":[{"op":"replace","path":"","value":7}]} => Ok(Answered { short: 0 })
draw 1 => {"epoch":1,"kind":"welcome","rev":0,"session":1}
draw 1 => {"id":1,"kind":"willing"}
do-will => Ok(None)
has-wills => false
truth 2 => 0 [[null]]
close 1 => Ok(())
has-wills => true
truth 2 => 0 [[null]]
do-will => Ok(Some(0))
told => [2]
has-wills => false
do-will => Ok(None)
truth 2 => 1 [[7]]
draw 2 => {"epoch":1,"kind":"welcome","rev":0,"session":2}
draw 2 => {"id":1,"kind":"watching"}
draw 2 => {"kind":"snapshot","rev":1,"view":[[7]]}

# A later one replaces it, and an empty one withdraws it. The oldest that is left is done first.
begin a => Ok(Opening { session: 3, rev: 1 })
begin a => Ok(Opening { session: 4, rev: 1 })
begin a => Ok(Opening { session: 5, rev: 1 })
say 3 {"do":"will","id":1,"patch":[{"op":"replace","path":"","value":8}]} => Ok(Answered { short: 0 })
say 3 {"do":"will","id":2,"patch":[{"op":"replace","path":"","value":9}]} => Ok(Answered { short: 0 })
say 4 {"do":"will","id":1,"patch":[{"op":"replace","path":"","value":10}]} => Ok(Answered { short: 0 })
say 5 {"do":"will","id":1,"patch":[{"op":"replace","path":"","value":11}]} => Ok(Answered { short: 0 })
say 4 {"do":"will","id":2,"patch":[]} => Ok(Answered { short: 0 })
close 5 => Ok(())
close 4 => Ok(())
close 3 => Ok(())
do-will => Ok(Some(0))
truth 2 => 2 [[11]]
do-will => Ok(Some(0))
truth 2 => 3 [[9]]
do-will => Ok(None)

# One that its room refuses changes nothing, and is done.
begin a => Ok(Opening { session: 6, rev: 3 })
say 6 {"do":"will","id":1,"patch":[{"op":"replace","path":"","value":1},{"op":"test","path":"","value":2}]} => Ok(Answered { short: 0 })
close 6 => Ok(())
do-will => Ok(Some(0))
has-wills => false
truth 2 => 3 [[9]]
edits => 3

# One that is refused when it is read leaves the one before.
begin a => Ok(Opening { session: 7, rev: 3 })
say 7 {"do":"will","id":1,"patch":[{"op":"replace","path":"","value":12}]} => Ok(Answered { short: 0 })
say 7 {"do":"will","id":2,"patch":[{"op":"nothing","path":""}]} => Ok(Answered { short: 0 })
close 7 => Ok(())
do-will => Ok(Some(0))
truth 2 => 4 [[12]]

# Who only watches leaves none.
open-to-watch a => Ok(8)
draw 8 => {"epoch":1,"kind":"welcome","rev":4,"session":8}
say 8 {"do":"will","id":1,"patch":[]} => Ok(Answered { short: 0 })
draw 8 => {"at":null,"fault":"read-only","id":1,"kind":"refused"}

# A will that is left counts as a session, and while it is left no room is evicted.
new sessions=2 rooms=1
begin a => Ok(Opening { session: 1, rev: 0 })
say 1 {"do":"will","id":1,"patch":[{"op":"replace","path":"","value":null}]} => Ok(Answered { short: 0 })
close 1 => Ok(())
begin b => Err(RoomsFull)
begin a => Ok(Opening { session: 2, rev: 0 })
begin a => Err(SessionsFull)
close 2 => Ok(())
do-will => Ok(Some(0))
begin b => Ok(Opening { session: 3, rev: 2 })

# That a room begins above revision 0 is no edit, nor is that one is forgotten.
edits => 1
close 3 => Ok(())
forget b => Ok(3)
edits => 1

# A room in which nobody is can be forgotten: it is null at the next revision, and remembers nothing.
new rooms=1
forget a => Err(NoRoom)
begin a => Ok(Opening { session: 1, rev: 0 })
say 1 {"do":"edit","id":1,"patch":[{"op":"replace","path":"","value":7}]} => Ok(Answered { short: 0 })
forget a => Err(Occupied)
close 1 => Ok(())
begin b => Err(RoomsFull)
forget a => Ok(2)
begin a => Ok(Opening { session: 2, rev: 2 })
say 2 {"do":"resume","id":1,"epoch":1,"rev":1,"view":[""]} => Ok(Answered { short: 0 })
truth 2 => 2 [[null]]
draw 2 => {"epoch":1,"kind":"welcome","rev":2,"session":2}
draw 2 => {"how":"snapshot","id":1,"kind":"resumed"}
draw 2 => {"kind":"snapshot","rev":2,"view":[[null]]}
close 2 => Ok(())
forget a => Ok(3)
begin b => Ok(Opening { session: 3, rev: 4 })
forget a => Err(NoRoom)
"#;

const NUMBERED: &str = r#"
# A session has left no will, and then one after the other.
new
begin a => Ok(Opening { session: 1, rev: 0 })
begin b => Ok(Opening { session: 2, rev: 0 })
begin b => Ok(Opening { session: 3, rev: 0 })
will-in 1 0 => 2 0 0
say 2 {"do":"will","id":1,"patch":[{"op":"replace","path":"","value":7}]} => Ok(Answered { short: 0 })
will-in 1 0 => 2 1 1
say 2 {"do":"will","id":2,"patch":[{"op":"test","path":"","value":7},{"op":"remove","path":"/a"}]} => Ok(Answered { short: 0 })
will-in 1 0 => 2 2 2

# One that is refused does not count; one that withdraws it does.
say 2 {"do":"will","id":3,"patch":[{"op":"nothing","path":""}]} => Ok(Answered { short: 0 })
will-in 1 0 => 2 2 2
say 2 {"do":"will","id":4,"patch":[]} => Ok(Answered { short: 0 })
will-in 1 0 => 2 3 0

# The sessions of a room have theirs by rising number, and those that are behind the last have none.
say 3 {"do":"will","id":1,"patch":[{"op":"replace","path":"","value":8}]} => Ok(Answered { short: 0 })
will-in 0 0 => 1 0 0
will-in 0 1 => nothing
will-in 1 1 => 3 1 1
will-in 1 2 => nothing
will-in 2 0 => nothing

# One that was withdrawn is not left. One that is left waits until it is done.
close 2 => Ok(())
waiting-will 0 => nothing
will-in 1 0 => 3 1 1
say 1 {"do":"will","id":1,"patch":[{"op":"replace","path":"","value":9}]} => Ok(Answered { short: 0 })
close 3 => Ok(())
close 1 => Ok(())
will-in 1 0 => nothing
waiting-will 0 => 1 3 1 1
waiting-will 1 => 0 1 1 1
waiting-will 2 => nothing
do-will => Ok(Some(0))
waiting-will 0 => 0 1 1 1
waiting-will 1 => nothing
do-will => Ok(Some(0))
waiting-will 0 => nothing
"#;

#[test]
fn wills_are_numbered_and_shown(rt: HostRuntime) {
    play_on_hubs(&rt, NUMBERED);
}

#[test]
fn wills_are_done_and_rooms_forgotten(rt: HostRuntime) {
    play_on_hubs(&rt, ROWS);
}
