//! Tests of what is counted of the messages that sessions draw. First in a text come the replies,
//! the refusals among them, and the patches. By the rows of `watching`, session 1 has drawn two
//! replies and a snapshot. A patch of the edit of `/x` weighs 35.
use crate::calls::play_on_hubs;

const ROWS: &str = r#"
# A message is counted by its kind, once it is drawn.
new
watching
counts => 2 0 0, watch 1, resume 0, edit 0, patches 0, weight 0, memory 0
say 1 { => Ok(Answered { short: 0 })
say 2 {"do":"edit","id":2,"patch":[{"op":"add","path":"/x","value":1}]} => Ok(Answered { short: 0 })
counts => 2 0 0, watch 1, resume 0, edit 0, patches 0, weight 0, memory 0
draw 1 => {"at":null,"fault":"not-json","id":null,"kind":"refused"}
draw 1 => {"kind":"patch","patch":[{"op":"add","path":"/0/0/x","value":1}],"rev":2}
draw 1 => nothing
counts => 3 1 1, watch 1, resume 0, edit 0, patches 0, weight 0, memory 0

# Patches that are too many make a snapshot.
new waiting=1
watching
2 say 2 {"do":"edit","id":2,"patch":[{"op":"add","path":"/x","value":1}]} => Ok(Answered { short: 0 })
draw 1 => {"kind":"snapshot","rev":3,"view":[[{"x":1}]]}
counts => 2 0 0, watch 1, resume 0, edit 0, patches 1, weight 0, memory 0

# Patches that are too heavy make a snapshot.
new waiting-weight=69
watching
2 say 2 {"do":"edit","id":2,"patch":[{"op":"add","path":"/x","value":1}]} => Ok(Answered { short: 0 })
draw 1 => {"kind":"snapshot","rev":3,"view":[[{"x":1}]]}
counts => 2 0 0, watch 1, resume 0, edit 0, patches 0, weight 1, memory 0

# An edit that is too heavy makes a snapshot.
new waiting-weight=34
watching
say 2 {"do":"edit","id":2,"patch":[{"op":"add","path":"/x","value":1}]} => Ok(Answered { short: 0 })
draw 1 => {"kind":"snapshot","rev":2,"view":[[{"x":1}]]}
counts => 2 0 0, watch 1, resume 0, edit 1, patches 0, weight 0, memory 0

# Memory given back makes a snapshot.
new
watching
say 2 {"do":"edit","id":2,"patch":[{"op":"add","path":"/x","value":1}]} => Ok(Answered { short: 0 })
shed => done
draw 1 => {"kind":"snapshot","rev":2,"view":[[{"x":1}]]}
counts => 2 0 0, watch 1, resume 0, edit 0, patches 0, weight 0, memory 1

# A resume from another epoch makes a snapshot.
new
watching
say 1 {"do":"resume","epoch":2,"id":1,"rev":1,"view":[""]} => Ok(Answered { short: 0 })
draw 1 => {"how":"snapshot","id":1,"kind":"resumed"}
draw 1 => {"kind":"snapshot","rev":1,"view":[[{}]]}
counts => 3 0 0, watch 1, resume 1, edit 0, patches 0, weight 0, memory 0
"#;

#[test]
fn counts_what_is_drawn(rt: HostRuntime) {
    play_on_hubs(&rt, ROWS);
}
