//! Tests of snapshots that several sessions are due. Their text is kept from the second one on that
//! is written for a view, so what is drawn third tells.
use crate::calls::play_on_hubs;

/// The acts that `four-watch` stands for: session 1 has edited, sessions 2 to 4 watch the whole
/// document, and session 5 watches a member. Their replies are drawn, and each of them is due a
/// snapshot.
const FOUR_WATCH: &str = r#"
open r => Ok(1)
open r => Ok(2)
open r => Ok(3)
open r => Ok(4)
open r => Ok(5)
say 1 {"do":"edit","id":1,"patch":[{"op":"replace","path":"","value":{"x":1}}]} => Ok(Answered { short: 0 })
say 2 {"do":"watch","id":1,"view":[""]} => Ok(Answered { short: 0 })
say 3 {"do":"watch","id":1,"view":[""]} => Ok(Answered { short: 0 })
say 4 {"do":"watch","id":1,"view":[""]} => Ok(Answered { short: 0 })
say 5 {"do":"watch","id":1,"view":["/x"]} => Ok(Answered { short: 0 })
draw 2 => {"epoch":1,"kind":"welcome","rev":0,"session":2}
draw 2 => {"id":1,"kind":"watching"}
draw 3 => {"epoch":1,"kind":"welcome","rev":0,"session":3}
draw 3 => {"id":1,"kind":"watching"}
draw 4 => {"epoch":1,"kind":"welcome","rev":0,"session":4}
draw 4 => {"id":1,"kind":"watching"}
draw 5 => {"epoch":1,"kind":"welcome","rev":0,"session":5}
draw 5 => {"id":1,"kind":"watching"}
"#;

const ROWS: &str = r#"
# Sessions that watch the same view draw the same text, and one that watches another view draws its own.
new telling-weight=0
four-watch
draw 2 => {"kind":"snapshot","rev":1,"view":[[{"x":1}]]}
draw 3 => {"kind":"snapshot","rev":1,"view":[[{"x":1}]]}
draw 5 => {"kind":"snapshot","rev":1,"view":[[1]]}
draw 4 => {"kind":"snapshot","rev":1,"view":[[{"x":1}]]}
say 5 {"do":"watch","id":2,"view":[""]} => Ok(Answered { short: 0 })
draw 5 => {"id":2,"kind":"watching"}
draw 5 => {"kind":"snapshot","rev":1,"view":[[{"x":1}]]}
draw 5 => nothing

# What is drawn after an edit shows it, and one that is refused changes nothing.
new telling-weight=0
four-watch
draw 2 => {"kind":"snapshot","rev":1,"view":[[{"x":1}]]}
draw 3 => {"kind":"snapshot","rev":1,"view":[[{"x":1}]]}
say 1 {"do":"edit","id":2,"patch":[{"op":"replace","path":"/x","value":2}]} => Ok(Answered { short: 0 })
draw 4 => {"kind":"snapshot","rev":2,"view":[[{"x":2}]]}
draw 2 => {"kind":"snapshot","rev":2,"view":[[{"x":2}]]}
say 1 {"do":"edit","id":3,"patch":[{"op":"remove","path":"/x"},{"op":"remove","path":"/y"}]} => Ok(Answered { short: 0 })
draw 3 => {"kind":"snapshot","rev":2,"view":[[{"x":2}]]}
draw 5 => {"kind":"snapshot","rev":2,"view":[[2]]}

# So does what is drawn after a will.
new telling-weight=0
four-watch
say 1 {"do":"will","id":2,"patch":[{"op":"replace","path":"/x","value":2}]} => Ok(Answered { short: 0 })
draw 2 => {"kind":"snapshot","rev":1,"view":[[{"x":1}]]}
draw 3 => {"kind":"snapshot","rev":1,"view":[[{"x":1}]]}
close 1 => Ok(())
draw 4 => {"kind":"snapshot","rev":1,"view":[[{"x":1}]]}
do-will => Ok(Some(0))
draw 2 => {"kind":"snapshot","rev":2,"view":[[{"x":2}]]}
draw 5 => {"kind":"snapshot","rev":2,"view":[[2]]}

# An edit of another room changes nothing here, and neither does memory that is given back.
new telling-weight=0
four-watch
open q => Ok(6)
say 6 {"do":"watch","id":1,"view":[""]} => Ok(Answered { short: 0 })
draw 6 => {"epoch":1,"kind":"welcome","rev":0,"session":6}
draw 6 => {"id":1,"kind":"watching"}
draw 6 => {"kind":"snapshot","rev":0,"view":[[null]]}
draw 2 => {"kind":"snapshot","rev":1,"view":[[{"x":1}]]}
draw 3 => {"kind":"snapshot","rev":1,"view":[[{"x":1}]]}
say 6 {"do":"edit","id":2,"patch":[{"op":"replace","path":"","value":7}]} => Ok(Answered { short: 0 })
draw 4 => {"kind":"snapshot","rev":1,"view":[[{"x":1}]]}
draw 6 => {"id":2,"kind":"done","rev":1}
draw 6 => {"kind":"snapshot","rev":1,"view":[[7]]}
shed => done
2 say 2 {"do":"watch","id":2,"view":[""]} => Ok(Answered { short: 0 })
2 draw 2 => {"id":2,"kind":"watching"}
draw 2 => {"kind":"snapshot","rev":1,"view":[[{"x":1}]]}

# A room that is forgotten, and one that begins at the index of another, begins without a text.
new rooms=1
open a => Ok(1)
open a => Ok(2)
2 say 1 {"do":"edit","id":1,"patch":[{"op":"replace","path":"","value":null}]} => Ok(Answered { short: 0 })
draw 1 => {"epoch":1,"kind":"welcome","rev":0,"session":1}
draw 1 => {"id":1,"kind":"done","rev":1}
draw 1 => {"id":1,"kind":"done","rev":2}
say 1 {"do":"watch","id":2,"view":[""]} => Ok(Answered { short: 0 })
draw 1 => {"id":2,"kind":"watching"}
draw 1 => {"kind":"snapshot","rev":2,"view":[[null]]}
say 2 {"do":"watch","id":2,"view":[""]} => Ok(Answered { short: 0 })
draw 2 => {"epoch":1,"kind":"welcome","rev":0,"session":2}
draw 2 => {"id":2,"kind":"watching"}
draw 2 => {"kind":"snapshot","rev":2,"view":[[null]]}
close 1 => Ok(())
close 2 => Ok(())
forget a => Ok(3)
open a => Ok(3)
draw 3 => {"epoch":1,"kind":"welcome","rev":3,"session":3}
say 3 {"do":"watch","id":1,"view":[""]} => Ok(Answered { short: 0 })
draw 3 => {"id":1,"kind":"watching"}
draw 3 => {"kind":"snapshot","rev":3,"view":[[null]]}
say 3 {"do":"watch","id":2,"view":[""]} => Ok(Answered { short: 0 })
draw 3 => {"id":2,"kind":"watching"}
draw 3 => {"kind":"snapshot","rev":3,"view":[[null]]}
close 3 => Ok(())
open b => Ok(4)
draw 4 => {"epoch":1,"kind":"welcome","rev":4,"session":4}
say 4 {"do":"watch","id":1,"view":[""]} => Ok(Answered { short: 0 })
draw 4 => {"id":1,"kind":"watching"}
draw 4 => {"kind":"snapshot","rev":4,"view":[[null]]}

# Texts of 3.2 MB are kept for one room at a time.
new
open a => Ok(1)
open a => Ok(2)
open a => Ok(3)
open b => Ok(4)
open b => Ok(5)
open b => Ok(6)
say-long 1 200000 => Ok(Answered { short: 0 })
say-long 4 200000 => Ok(Answered { short: 0 })
say 1 {"do":"watch","id":1,"view":["","","","","","","","","","","","","","","",""]} => Ok(Answered { short: 0 })
say 2 {"do":"watch","id":1,"view":["","","","","","","","","","","","","","","",""]} => Ok(Answered { short: 0 })
say 3 {"do":"watch","id":1,"view":["","","","","","","","","","","","","","","",""]} => Ok(Answered { short: 0 })
say 4 {"do":"watch","id":1,"view":["","","","","","","","","","","","","","","",""]} => Ok(Answered { short: 0 })
say 5 {"do":"watch","id":1,"view":["","","","","","","","","","","","","","","",""]} => Ok(Answered { short: 0 })
say 6 {"do":"watch","id":1,"view":["","","","","","","","","","","","","","","",""]} => Ok(Answered { short: 0 })
draw 1 => {"epoch":1,"kind":"welcome","rev":0,"session":1}
draw 1 => {"id":1,"kind":"done","rev":1}
draw 1 => {"id":1,"kind":"watching"}
draw 2 => {"epoch":1,"kind":"welcome","rev":0,"session":2}
draw 2 => {"id":1,"kind":"watching"}
draw 3 => {"epoch":1,"kind":"welcome","rev":0,"session":3}
draw 3 => {"id":1,"kind":"watching"}
draw 4 => {"epoch":1,"kind":"welcome","rev":0,"session":4}
draw 4 => {"id":1,"kind":"done","rev":1}
draw 4 => {"id":1,"kind":"watching"}
draw 5 => {"epoch":1,"kind":"welcome","rev":0,"session":5}
draw 5 => {"id":1,"kind":"watching"}
draw 6 => {"epoch":1,"kind":"welcome","rev":0,"session":6}
draw 6 => {"id":1,"kind":"watching"}
draw-bytes 1 => 3200116
draw-bytes 2 => 3200116
draw-bytes 4 => 3200116
draw-bytes 5 => 3200116
draw-bytes 3 => 3200116
draw-bytes 6 => 3200116
"#;

#[test]
fn snapshots_show_what_is_there(rt: HostRuntime) {
    let rows = ROWS.replace(rt.alloc(), "\nfour-watch\n", FOUR_WATCH);
    play_on_hubs(&rt, rows.expect(&rt, "memory").as_str());
}
