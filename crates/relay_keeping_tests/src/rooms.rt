//! Rooms that are kept through restarts.
use crate::kept::begun;
use relay_test_stream::play;
use std::test::Fail;

/// Acts on rooms ([`Kept`](crate::kept::Kept)). Each takes one session's number as it is taken up.
const ROWS: &str = r#"
# Nothing happened yet.
keep => 0
# A room begins with its record.
open board => 1
keep => 1
texts => begin board 0;
keep => 1
# A patch that weighs more than the document gives way to a record. Another one is kept as it is,
# and so are several that were not kept one by one.
says 1 {"do":"edit","id":1,"patch":[{"op":"add","path":"","value":{"n":1,"text":"long enough that a patch weighs less than the document"}}]}
keep => 2
says 1 {"do":"edit","id":2,"patch":[{"op":"replace","path":"/n","value":2}]}
says 1 {"do":"edit","id":3,"patch":[{"op":"replace","path":"/n","value":3}]}
keep => 3
# An edit that changes nothing makes a revision all the same.
says 1 {"do":"edit","id":4,"patch":[]}
keep => 4
holds board => {"kind":"snapshot","rev":4,"view":[[{"n":3,"text":"long enough that a patch weighs less than the document"}]]}
# What was not kept is not there behind a restart.
says 1 {"do":"edit","id":5,"patch":[{"op":"replace","path":"/n","value":4}]}
restart
holds board => {"kind":"snapshot","rev":4,"view":[[{"n":3,"text":"long enough that a patch weighs less than the document"}]]}
keep => 4
# The revisions go on, and the patches behind the record as well.
open board => 2
says 2 {"do":"edit","id":1,"patch":[{"op":"add","path":"/m","value":true}]}
keep => 5
restart
holds board => {"kind":"snapshot","rev":5,"view":[[{"m":true,"n":3,"text":"long enough that a patch weighs less than the document"}]]}
# A room at its first revision is there again too.
open lobby => 2
keep => 6
restart
holds lobby => {"kind":"snapshot","rev":0,"view":[[null]]}
holds board => {"kind":"snapshot","rev":5,"view":[[{"m":true,"n":3,"text":"long enough that a patch weighs less than the document"}]]}
# A room that is forgotten begins anew.
forget board => 6
keep => 7
restart
holds board => {"kind":"snapshot","rev":6,"view":[[null]]}
# All places are taken, so another room replaces the first in which nobody is, and ends it. No
# room begins below its revision any more.
open third => 3
keep => 10
texts => begin board 0;begin board 1;edit board 3;edit board 4;edit board 5;begin lobby 0;begin board 6;end board;begin third 7;floor 7;
restart
holds third => {"kind":"snapshot","rev":7,"view":[[null]]}
holds board => nothing
# A record shows a whole document, at its revision. Any other text is refused.
takes 4 {"kind":"snapshot","rev":4,"view":[[7]]} => 4
takes 5 {"kind":"snapshot","rev":4,"view":[[7]]} => the store is damaged
takes 4 {"kind":"snapshot","rev":4,"view":[[7,8]]} => the store is damaged
takes 4 {"kind":"snapshot","rev":4,"view":[[7],[8]]} => the store is damaged
takes 4 {"kind":"snapshot","rev":4,"view":[[]]} => the store is damaged
takes 4 {"kind":"patch","patch":[],"rev":4} => the store is damaged
takes 0 {"kind":"snapshot","rev":0,"view":[[7]]} => the store is damaged
"#;

#[test]
fn rooms_are_kept_through_restarts(rt: HostRuntime) -> Result<(), Fail> {
    let Some(mut kept) = begun(rt.alloc(), &Vec::new(rt.alloc())) else {
        return Err(Fail::new("no hub is made"));
    };
    play(&rt, &mut kept, ROWS)?;
    Ok(())
}
