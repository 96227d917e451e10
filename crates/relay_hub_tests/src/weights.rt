//! Tests of what waits, of what a room keeps, and of what is made for one edit, within a weight.
//!
//! The change that the edit of `/x` makes weighs 17: 1 for the byte of the path's token, 8 for the
//! token, and 8 for the number. In a view of the whole document two tokens of one byte come in
//! front, so the patch weighs 35. In a view of the member alone it weighs 25: a token of one byte,
//! and a list with the number.
use crate::calls::play_on_hubs;

/// The acts that `watching` stands for: session 1 watches the whole document, an object, and has
/// drawn all that waits; session 2 watches nothing.
pub(crate) const WATCHING: &str = r#"
open r => Ok(1)
open r => Ok(2)
say 2 {"do":"edit","id":2,"patch":[{"op":"add","path":"","value":{}}]} => Ok(Answered { short: 0 })
say 1 {"do":"watch","id":1,"view":[""]} => Ok(Answered { short: 0 })
draw 1 => {"epoch":1,"kind":"welcome","rev":0,"session":1}
draw 1 => {"id":1,"kind":"watching"}
draw 1 => {"kind":"snapshot","rev":1,"view":[[{}]]}
"#;

/// The acts that `two-more` stands for, after `watching`: sessions 3 and 4 watch one member of the
/// document, and have drawn all that waits. Then session 2 edits. The patch of sessions 3 and 4,
/// which weighs 25, and that of session 1, which weighs 35, make 60.
const TWO_MORE: &str = r#"
open r => Ok(3)
open r => Ok(4)
say 3 {"do":"watch","id":1,"view":["/x"]} => Ok(Answered { short: 0 })
say 4 {"do":"watch","id":1,"view":["/x"]} => Ok(Answered { short: 0 })
draw 3 => {"epoch":1,"kind":"welcome","rev":1,"session":3}
draw 3 => {"id":1,"kind":"watching"}
draw 3 => {"kind":"snapshot","rev":1,"view":[[]]}
draw 4 => {"epoch":1,"kind":"welcome","rev":1,"session":4}
draw 4 => {"id":1,"kind":"watching"}
draw 4 => {"kind":"snapshot","rev":1,"view":[[]]}
say 2 {"do":"edit","id":2,"patch":[{"op":"add","path":"/x","value":1}]} => Ok(Answered { short: 0 })
"#;

const ROWS: &str = r#"
# Patches wait within a weight. Two wait if the bound allows both. A third folds them into a snapshot, which weighs nothing.
new waiting-weight=70
watching
2 say 2 {"do":"edit","id":2,"patch":[{"op":"add","path":"/x","value":1}]} => Ok(Answered { short: 0 })
waiting 1 => Some(2)
say 2 {"do":"edit","id":2,"patch":[{"op":"add","path":"/x","value":1}]} => Ok(Answered { short: 0 })
waiting 1 => Some(1)
draw 1 => {"kind":"snapshot","rev":4,"view":[[{"x":1}]]}
2 say 2 {"do":"edit","id":2,"patch":[{"op":"add","path":"/x","value":1}]} => Ok(Answered { short: 0 })
waiting 1 => Some(2)

# What is drawn weighs nothing, so the next patch fits.
new waiting-weight=69
watching
say 2 {"do":"edit","id":2,"patch":[{"op":"add","path":"/x","value":1}]} => Ok(Answered { short: 0 })
draw 1 => {"kind":"patch","patch":[{"op":"add","path":"/0/0/x","value":1}],"rev":2}
say 2 {"do":"edit","id":2,"patch":[{"op":"add","path":"/x","value":1}]} => Ok(Answered { short: 0 })
waiting 1 => Some(1)
say 2 {"do":"edit","id":2,"patch":[{"op":"add","path":"/x","value":1}]} => Ok(Answered { short: 0 })
draw 1 => {"kind":"snapshot","rev":4,"view":[[{"x":1}]]}

# A heavy patch is a snapshot: one that alone is heavier than the bound is not made.
new waiting-weight=34
watching
say 2 {"do":"edit","id":2,"patch":[{"op":"add","path":"/x","value":1}]} => Ok(Answered { short: 0 })
draw 1 => {"kind":"snapshot","rev":2,"view":[[{"x":1}]]}

# A room remembers within a weight: with a bound of 162 it keeps two revisions of 81, 64 for each of their changes. A client that
# resumes from an earlier one receives a snapshot.
new history-weight=162
watching
3 say 2 {"do":"edit","id":2,"patch":[{"op":"add","path":"/x","value":1}]} => Ok(Answered { short: 0 })
open r => Ok(3)
draw 3 => {"epoch":1,"kind":"welcome","rev":4,"session":3}
say 3 {"do":"resume","epoch":1,"id":1,"rev":2,"view":[""]} => Ok(Answered { short: 0 })
draw 3 => {"how":"patch","id":1,"kind":"resumed"}
say 3 {"do":"resume","epoch":1,"id":1,"rev":1,"view":[""]} => Ok(Answered { short: 0 })
draw 3 => {"how":"snapshot","id":1,"kind":"resumed"}

# A hub that gives memory back keeps documents and replies. Waiting patches fold, and a resume is answered by a snapshot.
new history-weight=1000 waiting-weight=1000
watching
2 say 2 {"do":"edit","id":2,"patch":[{"op":"add","path":"/x","value":1}]} => Ok(Answered { short: 0 })
waiting 1 => Some(2)
waiting 2 => Some(4)
shed => done
waiting 1 => Some(1)
waiting 2 => Some(4)
draw 1 => {"kind":"snapshot","rev":3,"view":[[{"x":1}]]}
say 1 {"do":"resume","epoch":1,"id":1,"rev":2,"view":[""]} => Ok(Answered { short: 0 })
draw 1 => {"how":"snapshot","id":1,"kind":"resumed"}

# An edit is told within a weight: patches that weigh 60 together are made if they may weigh 60. The one that two sessions share counts
# once, and each edit may weigh as much again.
new telling-weight=60
watching
two-more
draw 1 => {"kind":"patch","patch":[{"op":"add","path":"/0/0/x","value":1}],"rev":2}
draw 3 => {"kind":"patch","patch":[{"op":"replace","path":"/0","value":[1]}],"rev":2}
draw 4 => {"kind":"patch","patch":[{"op":"replace","path":"/0","value":[1]}],"rev":2}
say 2 {"do":"edit","id":2,"patch":[{"op":"add","path":"/x","value":1}]} => Ok(Answered { short: 0 })
draw 1 => {"kind":"patch","patch":[{"op":"replace","path":"/0/0/x","value":1}],"rev":3}
draw 4 => {"kind":"patch","patch":[{"op":"replace","path":"/0","value":[1]}],"rev":3}

# An edit is told by snapshots beyond a weight: if the patches may weigh 59, the sessions behind the first get a snapshot.
new telling-weight=59
watching
two-more
draw 1 => {"kind":"patch","patch":[{"op":"add","path":"/0/0/x","value":1}],"rev":2}
draw 3 => {"kind":"snapshot","rev":2,"view":[[1]]}
draw 4 => {"kind":"snapshot","rev":2,"view":[[1]]}

# A patch that is too heavy is not made and costs nothing, so a lighter one that follows is made.
new telling-weight=34
watching
two-more
draw 1 => {"kind":"snapshot","rev":2,"view":[[{"x":1}]]}
draw 3 => {"kind":"patch","patch":[{"op":"replace","path":"/0","value":[1]}],"rev":2}
draw 4 => {"kind":"patch","patch":[{"op":"replace","path":"/0","value":[1]}],"rev":2}

# Who is told first: views are told in the order in which they began to be watched, whatever the numbers of the sessions are. So the
# one that is watched anew comes last.
new telling-weight=59
watching
open r => Ok(3)
say 3 {"do":"watch","id":1,"view":["/x"]} => Ok(Answered { short: 0 })
draw 3 => {"epoch":1,"kind":"welcome","rev":1,"session":3}
draw 3 => {"id":1,"kind":"watching"}
draw 3 => {"kind":"snapshot","rev":1,"view":[[]]}
say 1 {"do":"unwatch","id":2} => Ok(Answered { short: 0 })
say 1 {"do":"watch","id":3,"view":[""]} => Ok(Answered { short: 0 })
draw 1 => {"id":2,"kind":"unwatched"}
draw 1 => {"id":3,"kind":"watching"}
draw 1 => {"kind":"snapshot","rev":1,"view":[[{}]]}
say 2 {"do":"edit","id":2,"patch":[{"op":"add","path":"/x","value":1}]} => Ok(Answered { short: 0 })
draw 1 => {"kind":"snapshot","rev":2,"view":[[{"x":1}]]}
draw 3 => {"kind":"patch","patch":[{"op":"replace","path":"/0","value":[1]}],"rev":2}

# An edit is told by snapshots alone: a bound of nothing makes no patch.
new telling-weight=0
watching
two-more
draw 1 => {"kind":"snapshot","rev":2,"view":[[{"x":1}]]}
draw 3 => {"kind":"snapshot","rev":2,"view":[[1]]}
draw 4 => {"kind":"snapshot","rev":2,"view":[[1]]}
"#;

#[test]
fn keeps_within_each_weight(rt: HostRuntime) {
    let rows = ROWS.replace(rt.alloc(), "\ntwo-more\n", TWO_MORE);
    play_on_hubs(&rt, rows.expect(&rt, "memory").as_str());
}
