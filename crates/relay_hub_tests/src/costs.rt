//! Tests of what the work of a hub costs, in microseconds: `costs LEAST MOST` says whether all of
//! it so far lies within these, which are a tenth below and above what the prices of
//! `relay_hub/src/cost.rt` come to.
use crate::calls::play_on_hubs;

const ROWS: &str = r#"
# Each byte of an edit costs two nanoseconds to read, and one to keep.
new
costs 0 0 => true
open a => Ok(1)
costs 0 0 => true
say-long 1 60000 => Ok(Answered { short: 0 })
costs 168 205 => true
say-long 1 60000 => Ok(Answered { short: 0 })
costs 336 411 => true

# A text costs nothing that is not read, since 32 replies wait: the welcome, and 31 of these.
new
open a => Ok(1)
31 say 1 { => Ok(Answered { short: 0 })
costs 7 9 => true
say-long 1 60000 => Ok(Busy)
costs 7 9 => true

# Each byte of a snapshot costs a nanosecond for the first two watchers of a view, who have it
# written, and half of one for the third, who has it copied.
new
open a => Ok(1)
open a => Ok(2)
open a => Ok(3)
say-long 1 60000 => Ok(Answered { short: 0 })
draw-bytes 1 => 48
draw-bytes 1 => 30
say 1 {"do":"watch","id":1,"view":[""]} => Ok(Answered { short: 0 })
say 2 {"do":"watch","id":1,"view":[""]} => Ok(Answered { short: 0 })
say 3 {"do":"watch","id":1,"view":[""]} => Ok(Answered { short: 0 })
draw-bytes 1 => 26
draw-bytes 2 => 48
draw-bytes 2 => 26
draw-bytes 3 => 48
draw-bytes 3 => 26
costs 175 213 => true
draw-bytes 1 => 60041
costs 230 280 => true
draw-bytes 2 => 60041
costs 284 346 => true
draw-bytes 3 => 60041
costs 311 380 => true
"#;

#[test]
fn counts_what_work_costs(rt: HostRuntime) {
    play_on_hubs(&rt, ROWS);
}
