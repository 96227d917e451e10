//! The output that links hold: the snapshots that wait once that is as much as may be, and who is
//! ended for it. A server of the tests holds a million bytes.
use crate::clients::play_anew;

const ROWS: &str = r#"
# A link takes nothing of 1.2 MB. Another one in a room of a large document has its replies, and its snapshot once the first is ended, after two seconds.
each 3 enter
send 2 stretches 200000 {"do":"edit","id":1,"patch":[{"op":"add","path":"","value":"*"}]}
rounds 3
each 3 clear
wire 0 writes not-ready
send 0 says {"do":"watch","id":1,"view":["","","","","",""]}
rounds 3
send 1 says {"do":"watch","id":1,"view":[""]}
rounds 3
count 1 "kind":"watching" => 1
count 1 "kind":"snapshot" => 0
second
rounds 2
connections => 3
send 1 says {"do":"edit","id":2,"patch":[{"op":"add","path":"","value":{}},{"op":"test","path":"","value":7}]}
rounds 2
count 1 "fault":"test-failed" => 1
sleep
second
rounds 1
connections => 2
count 1 "kind":"snapshot" => 1
logs cause=full => true
sleep

# A link that takes nothing of 400 KB for 30 seconds is ended, though there is room for more.
each 3 enter
send 2 stretches 200000 {"do":"edit","id":1,"patch":[{"op":"add","path":"","value":"*"}]}
rounds 3
wire 0 writes not-ready
send 0 says {"do":"watch","id":1,"view":["",""]}
rounds 3
29 second
rounds 2
connections => 3
logs cause=slow => false
second
rounds 1
connections => 2
logs cause=slow => true
sleep

# One that takes it within 30 seconds is not.
each 3 enter
send 2 stretches 200000 {"do":"edit","id":1,"patch":[{"op":"add","path":"","value":"*"}]}
rounds 3
wire 0 writes not-ready
send 0 says {"do":"watch","id":1,"view":["",""]}
rounds 3
29 second
wire 0 writes well
writable 0
rounds 2
wire 0 writes not-ready
29 second
rounds 2
connections => 3

# The last quarter of the limit is for links that keep up: one link leaves 800 KB, another one is shown its 200 KB, and for a third there is no room.
each 3 enter
send 2 stretches 200000 {"do":"edit","id":1,"patch":[{"op":"add","path":"","value":"*"}]}
rounds 3
each 3 clear
wire 0 writes not-ready
send 0 says {"do":"watch","id":1,"view":["","","",""]}
rounds 3
send 1 says {"do":"watch","id":1,"view":[""]}
rounds 3
count 1 "kind":"snapshot" => 1
send 2 says {"do":"watch","id":1,"view":[""]}
rounds 3
count 2 "kind":"snapshot" => 0

# Meanwhile whoever is in a room of a small document is shown it, and a patch waits for nothing, whatever its document.
each 3 enter
connect 3
wire 3 asks 13 /rooms/s
rounds 3
send 1 says {"do":"watch","id":1,"view":["/a"]}
send 2 stretches 200000 {"do":"edit","id":1,"patch":[{"op":"add","path":"","value":{"b":"*","a":1}}]}
rounds 3
wire 0 writes not-ready
send 0 says {"do":"watch","id":1,"view":["","","","","",""]}
rounds 3
send 3 says {"do":"watch","id":1,"view":[""]}
rounds 2
send 3 says {"do":"edit","id":1,"patch":[{"op":"add","path":"","value":7}]}
rounds 2
count 3 "kind":"snapshot" => 1
clear 1
send 2 says {"do":"edit","id":1,"patch":[{"op":"add","path":"/a","value":2}]}
rounds 3
count 1 "kind":"patch" => 1
send 2 says {"do":"edit","id":1,"patch":[{"op":"add","path":"/a","value":3}]}
rounds 3
count 1 "kind":"patch" => 1
sleep

# The link that took all of a long message is ended too, since its buffer stays as large.
each 3 enter
send 2 stretches 200000 {"do":"edit","id":1,"patch":[{"op":"add","path":"","value":"*"}]}
rounds 3
send 0 says {"do":"watch","id":1,"view":["","","","","",""]}
rounds 3
count 0 "kind":"snapshot" => 1
clear 1
send 1 says {"do":"watch","id":1,"view":[""]}
rounds 3
connections => 3
count 1 "kind":"snapshot" => 0
second
rounds 2
connections => 2
count 0 "kind" => 0
count 1 "kind":"snapshot" => 1
logs cause=full => true

# A reply is sent before a close behind its text is read, also if a message waits that may be long.
each 3 enter
send 2 stretches 200000 {"do":"edit","id":1,"patch":[{"op":"add","path":"","value":{"b":"*","a":1}}]}
send 0 says {"do":"watch","id":1,"view":[""]}
rounds 30
clear 0
send 2 says {"do":"edit","id":2,"patch":[{"op":"add","path":"/a","value":5}]}
2 wire 0 says {"do":"edit","id":2,"patch":[{"op":"add","path":"/a","value":7}]}
send 0 hex 88 82 00 00 00 00 03 e8
rounds 3
count 0 "kind":"done" => 2
# After a wait that failed, a long message is drawn as before, and rounds sleep.
each 2 enter
send 1 stretches 200000 {"do":"edit","id":1,"patch":[{"op":"add","path":"","value":"*"}]}
rounds 3
wait-fails
rounds 2
clear 0
send 0 says {"do":"watch","id":1,"view":[""]}
rounds 2
count 0 "kind":"snapshot" => 1
sleep
"#;

#[test]
fn a_link_holds_up_no_other_by_its_output(rt: HostRuntime) {
    play_anew(&rt, ROWS);
}
