//! The order of turns: who has credit first, then who owes, and no room beyond its share.
use crate::clients::play_anew;

/// The texts that clients send, and the clients whose edits were accepted, by round.
const ROWS: &str = r#"
# A client that costs little has its answer in each round, before the one turn of those who owe whose text costs more than a round: it is sent the patches of the two edits by two writes.
server waiting=256
each 4 enter
send 3 says {"do":"watch","id":1,"view":[""]}
rounds 2
clear 3
20 edit-beside 3 => 1 and 0 of the others, 1 writes
each 3 send stretches 30000 {"do":"edit","id":3,"patch":[{"op":"add","path":"","value":["*"]},{"op":"copy","from":"","path":"/-"},{"op":"copy","from":"","path":"/-"},{"op":"copy","from":"","path":"/-"}]}
3 edit-beside 3 => 1 and 1 of the others, 2 writes
edit-beside 3 => 1 and 0 of the others, 1 writes

# Likewise if the texts are short and much work: each copy doubles the document.
server waiting=256
each 4 enter
send 3 says {"do":"watch","id":1,"view":[""]}
rounds 2
clear 3
20 edit-beside 3 => 1 and 0 of the others, 1 writes
each 3 send says {"do":"edit","id":3,"patch":[{"op":"add","path":"","value":["aaaaaaaaaaaaaaaaaaaaaaaaaaaaaaaaaaaaaaaaaaaaaaaaaaaaaaaaaaaaaaaaaaaaaaaaaaaaaaaaaaaaaaaaaaaaaaaaaaaa"]},{"op":"copy","from":"","path":"/-"},{"op":"copy","from":"","path":"/-"},{"op":"copy","from":"","path":"/-"},{"op":"copy","from":"","path":"/-"},{"op":"copy","from":"","path":"/-"},{"op":"copy","from":"","path":"/-"},{"op":"copy","from":"","path":"/-"},{"op":"copy","from":"","path":"/-"},{"op":"copy","from":"","path":"/-"},{"op":"copy","from":"","path":"/-"},{"op":"copy","from":"","path":"/-"}]}
3 edit-beside 3 => 1 and 1 of the others, 2 writes
edit-beside 3 => 1 and 0 of the others, 1 writes

# A newcomer, whose turns were each cheap, has its answer in each round, beside one turn of those whose turns were not.
server waiting=256
each 4 enter
12 each 4 wire stretches 30000 {"do":"edit","id":3,"patch":[{"op":"add","path":"","value":["*"]},{"op":"copy","from":"","path":"/-"},{"op":"copy","from":"","path":"/-"},{"op":"copy","from":"","path":"/-"}]}
each 4 readable
rounds 6
enter 4
each 5 clear
3 edit-beside 4 => 1 and 1 of the others, 1 writes

# Texts of those who owe that cost little are all received in one round.
server waiting=256
each 19 enter
each 18 send says {"do":"edit","id":2,"patch":[{"op":"add","path":"","value":7}]}
rounds 1
done-before 18 => 18

# A turn costs the time that it takes, whatever the hub counts: of those who owe one has its turn in a round.
server waiting=256
each 19 enter
turns-take 6000
each 18 send says {"do":"edit","id":2,"patch":[{"op":"add","path":"","value":7}]}
2 rounds 1
done-before 18 => 2
rounds 1
done-before 18 => 1

# Who was skipped comes before who was served: eight texts of a room are read in a round, one from each of 18 connections before a second one from any.
server waiting=16
each 18 enter
4 each 18 wire says {"do":"edit","id":2,"patch":[{"op":"add","path":"","value":7}]}
each 18 readable
rounds 4
done 0 => 2
done 13 => 2
done 14 => 1
done 17 => 1

# A room is said half as many texts as patches may wait for a watcher, and no more before all its connections were written to.
server waiting=32
each 9 enter
each 7 send says {"do":"watch","id":1,"view":[""]}
rounds 2
each 7 clear
40 wire 8 stretches 1000 {"do":"edit","id":3,"patch":[{"op":"add","path":"","value":"*"}]}
readable 8
rounds 1
done 8 => 16
rounds 1
done 8 => 16
rounds 1
done 8 => 8
count 0 "kind":"patch" => 40
count 6 "kind":"patch" => 40

# If those are more than a round writes to, the room is said nothing in the next one. Another room is.
server waiting=16
each 16 enter
connect 16
wire 16 asks 13 /rooms/s
rounds 3
each 14 send says {"do":"watch","id":1,"view":[""]}
rounds 2
clear 15
20 edit-beside 15 => 1 and 0 of the others, 1 writes
clear 16
20 edit-beside 16 => 1 and 0 of the others, 1 writes
each 14 clear
20 wire 15 stretches 3000 {"do":"edit","id":3,"patch":[{"op":"add","path":"","value":"*"}]}
readable 15
rounds 1
done 15 => 8
count 0 "kind":"patch" => 8
count 13 "kind":"patch" => 0
send 16 says {"do":"watch","id":1,"view":[""]}
rounds 1
count 16 "kind":"watching" => 1
done 15 => 0
count 13 "kind":"patch" => 8
rounds 1
done 15 => 8
rounds 2
done 15 => 4
count 0 "kind":"patch" => 12
count 13 "kind":"patch" => 12

# The bytes of a room's texts are bounded too, by half of what patches may weigh.
server waiting=32 waiting-weight=4000
each 2 enter
send 0 says {"do":"watch","id":1,"view":[""]}
rounds 2
10 wire 1 stretches 900 {"do":"edit","id":3,"patch":[{"op":"add","path":"","value":"*"}]}
readable 1
rounds 1
done 1 => 3
rounds 1
done 1 => 3
"#;

#[test]
fn a_round_hears_those_with_credit_first(rt: HostRuntime) {
    play_anew(&rt, ROWS);
}
