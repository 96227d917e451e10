//! Wills that are kept through restarts, and done then.
use crate::kept::begun;
use relay_test_stream::play;
use std::test::Fail;

/// Acts on wills ([`Kept`](crate::kept::Kept)). A restart takes one session's number for each room,
/// and then one for each will.
const ROWS: &str = r#"
open board => 1
says 1 {"do":"edit","id":1,"patch":[{"op":"add","path":"","value":{"ann":"long enough that a patch weighs less than the document","bob":2,"cy":3}}]}
commits => begin board 1;
# A will that is left is kept once, as a request that leaves it.
says 1 {"do":"will","id":2,"patch":[{"op":"remove","path":"/bob"}]}
commits => will 1 board {"do":"will","id":1,"patch":[{"op":"remove","path":"/bob"}]};
commits => nothing
# Another one takes its place, also if it is the same. One that nobody has seen is not kept.
says 1 {"do":"will","id":3,"patch":[{"op":"remove","path":"/bob"}]}
commits => will 1 board {"do":"will","id":1,"patch":[{"op":"remove","path":"/bob"}]};
says 1 {"do":"will","id":4,"patch":[{"op":"remove","path":"/ann"}]}
says 1 {"do":"will","id":5,"patch":[{"op":"remove","path":"/cy"}]}
commits => will 1 board {"do":"will","id":1,"patch":[{"op":"remove","path":"/cy"}]};
# It is withdrawn.
says 1 {"do":"will","id":6,"patch":[]}
commits => drop 1;
commits => nothing
# One that was left and withdrawn meanwhile is not kept at all.
says 1 {"do":"will","id":7,"patch":[{"op":"remove","path":"/cy"}]}
says 1 {"do":"will","id":8,"patch":[]}
commits => nothing
# It is kept until it is done, in one commit with what it did, and behind it.
says 1 {"do":"will","id":9,"patch":[{"op":"remove","path":"/cy"}]}
commits => will 1 board {"do":"will","id":1,"patch":[{"op":"remove","path":"/cy"}]};
close 1
commits => nothing
do
commits => edit board 2;drop 1;
# A will that the room refuses is done too.
open board => 2
says 2 {"do":"will","id":1,"patch":[{"op":"remove","path":"/cy"}]}
commits => will 2 board {"do":"will","id":1,"patch":[{"op":"remove","path":"/cy"}]};
close 2
do
commits => drop 2;
# Two sessions are open as the process ends, and one is closed whose will waits. All three wills are
# done, in the order in which they were kept.
open board => 3
open board => 4
open lobby => 5
says 3 {"do":"will","id":1,"patch":[{"op":"add","path":"/who","value":[3]}]}
keep => 12
says 4 {"do":"will","id":1,"patch":[{"op":"add","path":"/who/-","value":4}]}
says 5 {"do":"edit","id":1,"patch":[{"op":"add","path":"","value":[5]}]}
says 5 {"do":"will","id":2,"patch":[{"op":"remove","path":"/0"}]}
close 5
keep => 15
restart
holds board => {"kind":"snapshot","rev":4,"view":[[{"ann":"long enough that a patch weighs less than the document","bob":2,"who":[3,4]}]]}
holds lobby => {"kind":"snapshot","rev":2,"view":[[[]]]}
# A crash before this is kept does each again.
restart
holds board => {"kind":"snapshot","rev":4,"view":[[{"ann":"long enough that a patch weighs less than the document","bob":2,"who":[3,4]}]]}
commits => edit board 4;begin lobby 2;drop 3;drop 5;drop 4;
# A crash behind that does none of them.
restart
holds board => {"kind":"snapshot","rev":4,"view":[[{"ann":"long enough that a patch weighs less than the document","bob":2,"who":[3,4]}]]}
holds lobby => {"kind":"snapshot","rev":2,"view":[[[]]]}
commits => nothing
# The numbers of sessions begin anew with each run. One that has the number of an earlier session
# whose will is noted, and has left as many, is not taken for that one.
open board => 3
open board => 4
says 4 {"do":"will","id":1,"patch":[{"op":"remove","path":"/who/1"}]}
commits => will 4 board {"do":"will","id":1,"patch":[{"op":"remove","path":"/who/1"}]};
restart
open board => 4
says 4 {"do":"will","id":1,"patch":[{"op":"remove","path":"/who/0"}]}
commits => edit board 5;will 4 board {"do":"will","id":1,"patch":[{"op":"remove","path":"/who/0"}]};
restart
holds board => {"kind":"snapshot","rev":6,"view":[[{"ann":"long enough that a patch weighs less than the document","bob":2,"who":[]}]]}
commits => edit board 6;drop 4;
# A text that leaves no will is refused, and one that has no room.
does board {"do":"will","id":1,"patch":[{"op":"remove","path":"/0"}]} => 5
does board {"do":"will","id":1,"patch":[{"op":"remove","path":"/1"}]} => 4
does board {"do":"will","id":1,"patch":[]} => the store is damaged
does board {"do":"edit","id":1,"patch":[{"op":"remove","path":"/0"}]} => the store is damaged
does board {"do":"will"} => the store is damaged
does lobby {"do":"will","id":1,"patch":[{"op":"remove","path":"/0"}]} => the store is damaged
"#;

#[test]
fn wills_are_done_once(rt: HostRuntime) -> Result<(), Fail> {
    let Some(mut kept) = begun(rt.alloc(), &Vec::new(rt.alloc())) else {
        return Err(Fail::new("no hub is made"));
    };
    play(&rt, &mut kept, ROWS)?;
    Ok(())
}
