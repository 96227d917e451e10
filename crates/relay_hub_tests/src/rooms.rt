//! Tests of rooms that end, of sessions that only watch, and of views that are too heavy.
use crate::calls::play_on_hubs;

const ROWS: &str = r#"
# A room with a document stays, and one in which somebody is.
new rooms=2
begin a => Ok(Opening { session: 1, rev: 0 })
begin b => Ok(Opening { session: 2, rev: 0 })
say 1 {"do":"edit","id":1,"patch":[{"op":"replace","path":"","value":7}]} => Ok(Answered { short: 0 })
close 1 => Ok(())
begin c => Err(RoomsFull)
begin a => Ok(Opening { session: 3, rev: 1 })
say 3 {"do":"edit","id":2,"patch":[{"op":"replace","path":"","value":null}]} => Ok(Answered { short: 0 })
begin c => Err(RoomsFull)
close 3 => Ok(())

# One that is null is evictable once nobody is in it. What begins then is above its revisions.
begin c => Ok(Opening { session: 4, rev: 3 })
begin b => Ok(Opening { session: 5, rev: 0 })
close 2 => Ok(())
close 5 => Ok(())
begin a => Ok(Opening { session: 6, rev: 3 })
begin b => Err(RoomsFull)
close 6 => Ok(())
begin b => Ok(Opening { session: 7, rev: 4 })

# A client that comes back from an earlier room of the name gets a snapshot, and holds the view of this one.
say 7 {"do":"resume","id":1,"epoch":1,"rev":0,"view":[""]} => Ok(Answered { short: 0 })
draw 7 => {"epoch":1,"kind":"welcome","rev":4,"session":7}
draw 7 => {"how":"snapshot","id":1,"kind":"resumed"}
draw 7 => {"kind":"snapshot","rev":4,"view":[[null]]}
say 7 {"do":"resume","id":2,"epoch":1,"rev":4,"view":[""]} => Ok(Answered { short: 0 })
draw 7 => {"how":"nothing","id":2,"kind":"resumed"}
say 7 {"do":"resume","id":3,"epoch":1,"rev":5,"view":[""]} => Ok(Answered { short: 0 })
draw 7 => {"at":null,"fault":"future","id":3,"kind":"refused"}
say 7 {"do":"edit","id":4,"patch":[{"op":"replace","path":"","value":1}]} => Ok(Answered { short: 0 })
draw 7 => {"id":4,"kind":"done","rev":5}
draw 7 => {"kind":"patch","patch":[{"op":"replace","path":"/0","value":[1]}],"rev":5}

# A session that only watches may not edit.
new
begin a => Ok(Opening { session: 1, rev: 0 })
open-to-watch a => Ok(2)
say 2 {"do":"edit","id":1,"patch":[]} => Ok(Answered { short: 0 })
say 2 {"do":"watch","id":2,"view":[""]} => Ok(Answered { short: 0 })
say 1 {"do":"edit","id":1,"patch":[{"op":"replace","path":"","value":7}]} => Ok(Answered { short: 0 })
truth 2 => 1 [[7]]
draw 2 => {"epoch":1,"kind":"welcome","rev":0,"session":2}
draw 2 => {"at":null,"fault":"read-only","id":1,"kind":"refused"}
draw 2 => {"id":2,"kind":"watching"}
draw 2 => {"kind":"snapshot","rev":1,"view":[[7]]}
say 2 {"do":"unwatch","id":3} => Ok(Answered { short: 0 })
draw 2 => {"id":3,"kind":"unwatched"}

# Sessions that watch an equal view share it, and each goes on alone.
new
begin a => Ok(Opening { session: 1, rev: 0 })
begin a => Ok(Opening { session: 2, rev: 0 })
begin a => Ok(Opening { session: 3, rev: 0 })
say 1 {"do":"watch","id":1,"view":["","/x"]} => Ok(Answered { short: 0 })
say 2 {"do":"watch","id":1,"view":["","/x"]} => Ok(Answered { short: 0 })
say 3 {"do":"watch","id":1,"view":["","/y"]} => Ok(Answered { short: 0 })
say 1 {"do":"watch","id":2,"view":["/y"]} => Ok(Answered { short: 0 })
say 2 {"do":"edit","id":2,"patch":[{"op":"replace","path":"","value":{"x":1}}]} => Ok(Answered { short: 0 })
truth 1 => 1 [[]]
truth 2 => 1 [[{"x":1}],[1]]
truth 3 => 1 [[{"x":1}],[]]
close 1 => Ok(())
say 3 {"do":"watch","id":2,"view":["","/x"]} => Ok(Answered { short: 0 })
close 2 => Ok(())
truth 3 => 1 [[{"x":1}],[1]]

# A view is refused at the first slot for which nothing is left: a token weighs 8 and its bytes.
new view-weight=20
begin a => Ok(Opening { session: 1, rev: 0 })
draw 1 => {"epoch":1,"kind":"welcome","rev":0,"session":1}
say 1 {"do":"watch","id":1,"view":["/ab","/ab"]} => Ok(Answered { short: 0 })
draw 1 => {"id":1,"kind":"watching"}
say 1 {"do":"watch","id":2,"view":["","/abc","/ab",""]} => Ok(Answered { short: 0 })
draw 1 => {"at":2,"fault":"too-heavy","id":2,"kind":"refused"}
truth 1 => 0 [[],[]]
say 1 {"do":"resume","id":3,"epoch":1,"rev":0,"view":["/a/b/c"]} => Ok(Answered { short: 0 })
draw 1 => {"at":0,"fault":"too-heavy","id":3,"kind":"refused"}
truth 1 => 0 [[],[]]
"#;

#[test]
fn rooms_end_and_watchers_only_watch(rt: HostRuntime) {
    play_on_hubs(&rt, ROWS);
}
