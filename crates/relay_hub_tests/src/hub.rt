//! Tests of a hub's calls with their answers, and of its limits. What sessions send and receive is
//! data in `tests/scripts`.
use crate::calls::play_on_hubs;

const ROWS: &str = r#"
# Answers the first script, call by call.
new
open a/b => Err(RoomName)
open r => Ok(1)
truth 1 => nothing
say 1 {"do":"watch","id":1,"view":["/x"]} => Ok(Answered { short: 0 })
truth 1 => 0 [[]]
say 1 {"do":"edit","id":2,"patch":[{"op":"add","path":"","value":{"x":1}}]} => Ok(Answered { short: 0 })
say 1 {"do":"edit","id":3,"patch":[{"op":"replace","path":"/x","value":2},{"op":"remove","path":"/y"}]} => Ok(Answered { short: 0 })
truth 1 => 1 [[1]]
waiting 1 => Some(5)
may-hear 1 => true
draw 1 => {"epoch":1,"kind":"welcome","rev":0,"session":1}
draw 1 => {"id":1,"kind":"watching"}
draw 1 => {"id":2,"kind":"done","rev":1}
draw 1 => {"at":1,"fault":"missing","id":3,"kind":"refused"}
draw 1 => {"kind":"snapshot","rev":1,"view":[[1]]}
draw 1 => nothing
waiting 1 => Some(0)
close 1 => Ok(())
close 1 => Err(NoSession)
waiting 1 => None
may-hear 1 => false
draw 1 => NoSession
say 1 x => Err(NoSession)
truth 1 => NoSession

# Shows each room, in the order of opening.
new
room-at 0 => None
open r => Ok(1)
open q => Ok(2)
open r => Ok(3)
say 3 {"do":"edit","id":2,"patch":[{"op":"add","path":"","value":{"x":1}}]} => Ok(Answered { short: 0 })
close 1 => Ok(())
room-at 0 => Some(RoomSummary { name: "r", revision: 1, sessions: 1, weight: 17, history: 81 })
room-at 1 => Some(RoomSummary { name: "q", revision: 0, sessions: 1, weight: 8, history: 0 })
room-at 2 => None

# Names those whom a text told something.
new
told => []
open r => Ok(1)
open r => Ok(2)
open q => Ok(3)
open r => Ok(4)
say 2 {"do":"watch","id":1,"view":["/x"]} => Ok(Answered { short: 0 })
say 3 {"do":"watch","id":1,"view":["/x"]} => Ok(Answered { short: 0 })
say 4 {"do":"watch","id":1,"view":["/x"]} => Ok(Answered { short: 0 })
told => []
say 1 {"do":"edit","id":2,"patch":[{"op":"add","path":"","value":{"x":1}}]} => Ok(Answered { short: 0 })
told => [2, 4]
say 1 {"do":"edit","id":4,"patch":[{"op":"add","path":"/y","value":2}]} => Ok(Answered { short: 0 })
told => []
close 2 => Ok(())
say 4 {"do":"edit","id":2,"patch":[{"op":"add","path":"","value":{"x":1}}]} => Ok(Answered { short: 0 })
told => [4]
say 1 x => Ok(Answered { short: 0 })
told => []

# Is busy at 32 replies.
new
open r => Ok(1)
31 say 1 x => Ok(Answered { short: 0 })
say 1 x => Ok(Busy)
may-hear 1 => false
waiting 1 => Some(32)

# Numbers sessions up to the last count.
new first=9007199254740991
open r => Ok(9007199254740991)
open r => Err(Exhausted)

# Refuses limits out of range: a history of 1 to 1,024 revisions, 256 patches that wait, and the last count.
new history=0 => BadLimit
new history=1025 => BadLimit
new waiting=257 => BadLimit
new epoch=9007199254740992 => BadLimit
"#;

#[test]
fn answers_each_call(rt: HostRuntime) {
    play_on_hubs(&rt, ROWS);
}
