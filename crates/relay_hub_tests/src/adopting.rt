//! Tests of what a server does that begins from a store: rooms adopt documents, and the floor is
//! raised.
use crate::calls::play_on_hubs;

const ROWS: &str = r#"
# A room in which nobody is adopts a document at a revision above its own. What is refused changes
# nothing.
adopt a 1 7 => Err(NoRoom)
begin a => Ok(Opening { session: 1, rev: 0 })
adopt a 0 lists 65 => Err(Occupied)
close 1 => Ok(())
adopt a 0 lists 65 => Err(NotAbove)
adopt a 9007199254740992 7 => Err(NotAbove)
adopt a 7 lists 65 => Err(TooDeep)
adopt a 7 letters 262137 => Err(TooHeavy)
begin a => Ok(Opening { session: 2, rev: 0 })
close 2 => Ok(())
adopt a 7 {"x":1} => Ok(())
adopt a 7 {"x":2} => Err(NotAbove)
adopt a 6 {"x":2} => Err(NotAbove)
edits => 0

# A session that opens sees the document and the revision.
begin a => Ok(Opening { session: 3, rev: 7 })
draw 3 => {"epoch":1,"kind":"welcome","rev":7,"session":3}
say 3 {"do":"watch","id":1,"view":["/x"]} => Ok(Answered { short: 0 })
truth 3 => 7 [[1]]
draw 3 => {"id":1,"kind":"watching"}
draw 3 => {"kind":"snapshot","rev":7,"view":[[1]]}

# A resume from an older revision gets a snapshot, also from one that was passed over; one from the
# present revision gets nothing.
say 3 {"do":"resume","id":2,"epoch":1,"rev":0,"view":["/x"]} => Ok(Answered { short: 0 })
draw 3 => {"how":"snapshot","id":2,"kind":"resumed"}
draw 3 => {"kind":"snapshot","rev":7,"view":[[1]]}
say 3 {"do":"resume","id":3,"epoch":1,"rev":6,"view":["/x"]} => Ok(Answered { short: 0 })
draw 3 => {"how":"snapshot","id":3,"kind":"resumed"}
draw 3 => {"kind":"snapshot","rev":7,"view":[[1]]}
say 3 {"do":"resume","id":4,"epoch":1,"rev":7,"view":["/x"]} => Ok(Answered { short: 0 })
draw 3 => {"how":"nothing","id":4,"kind":"resumed"}
draw 3 => nothing
say 3 {"do":"resume","id":5,"epoch":1,"rev":8,"view":["/x"]} => Ok(Answered { short: 0 })
draw 3 => {"at":null,"fault":"future","id":5,"kind":"refused"}

# Edits go on from there, and a room may adopt again.
say 3 {"do":"edit","id":6,"base":7,"patch":[{"op":"replace","path":"/x","value":2}]} => Ok(Answered { short: 0 })
draw 3 => {"id":6,"kind":"done","rev":8}
truth 3 => 8 [[2]]
close 3 => Ok(())
adopt a 8 9 => Err(NotAbove)
adopt a 20 9 => Ok(())
forget a => Ok(21)
begin a => Ok(Opening { session: 4, rev: 21 })

# The largest documents, and the last revision, after which there is no edit.
new
begin a => Ok(Opening { session: 1, rev: 0 })
close 1 => Ok(())
adopt a 1 lists 64 => Ok(())
adopt a 2 letters 262136 => Ok(())
adopt a 9007199254740991 null => Ok(())
forget a => Err(Exhausted)
begin a => Ok(Opening { session: 2, rev: 9007199254740991 })
say 2 {"do":"edit","id":1,"patch":[]} => Ok(Answered { short: 0 })
draw 2 => {"epoch":1,"kind":"welcome","rev":9007199254740991,"session":2}
draw 2 => {"at":null,"fault":"exhausted","id":1,"kind":"refused"}

# A will that is left is done on what its room adopted.
new
begin a => Ok(Opening { session: 1, rev: 0 })
say 1 {"do":"will","id":1,"patch":[{"op":"remove","path":"/x"}]} => Ok(Answered { short: 0 })
close 1 => Ok(())
adopt a 5 {"x":1,"y":2} => Ok(())
do-will => Ok(Some(0))
begin a => Ok(Opening { session: 2, rev: 6 })
say 2 {"do":"watch","id":1,"view":[""]} => Ok(Answered { short: 0 })
truth 2 => 6 [[{"y":2}]]

# The floor never falls. Rooms that are there go on; others begin at it, or above one that they
# replace.
new rooms=2
floor => 0
raise-floor 9 => 9
raise-floor 4 => 9
begin a => Ok(Opening { session: 1, rev: 9 })
raise-floor 12 => 12
begin a => Ok(Opening { session: 2, rev: 9 })
begin b => Ok(Opening { session: 3, rev: 12 })
close 1 => Ok(())
close 2 => Ok(())
close 3 => Ok(())
begin c => Ok(Opening { session: 4, rev: 12 })
begin d => Ok(Opening { session: 5, rev: 13 })
floor => 13
raise-floor 9007199254740992 => 9007199254740991
"#;

#[test]
fn rooms_adopt_documents_and_the_floor_rises(rt: HostRuntime) {
    play_on_hubs(&rt, ROWS);
}
