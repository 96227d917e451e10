//! The handshake, from the first byte to the reply: the head may arrive in pieces, and the reply
//! may be written in pieces.
use crate::links::play_anew;

/// The answer of a new link to a head.
const ROWS: &str = r#"
# A link opens and ends.
look => Head
asks 13 /rooms/a => open a; Open as 1 > switched
look => Open as 1
end => close 1; Gone by Ended > close 1001
end => Gone
look => Gone
idle => Gone
waiting 1 => None

# A link that draws nothing opens likewise.
draws 0 => Head
asks 13 /rooms/a => open a; Open as 1 > switched

# A target may ask for a session that only watches: its edit is refused, and it may watch.
asks 13 /rooms/a/watch => open a read-only; Open as 1 > switched
idle => draw 1; draw 1; Open as 1 > {"epoch":1,"kind":"welcome","rev":0,"session":1}
says {"do":"edit","id":7,"patch":[]} => receive 1; draw 1; draw 1; Open as 1 > {"at":null,"fault":"read-only","id":7,"kind":"refused"}
says {"do":"watch","id":8,"view":[""]} => receive 1; draw 1; draw 1; draw 1; Open as 1 > {"id":8,"kind":"watching"} > {"kind":"snapshot","rev":0,"view":[[null]]}
says {"do":"unwatch","id":9} => receive 1; draw 1; draw 1; Open as 1 > {"id":9,"kind":"unwatched"}
end => close 1; Gone by Ended > close 1001

# A room may be named `watch`.
asks 13 /rooms/watch => open watch; Open as 1 > switched

# A hub that is full refuses.
full
look => Head
asks 13 /rooms/a => open a; Gone by Refused(503) > unavailable
3 idle => Gone

# An older version is refused.
asks 8 /rooms/a => Gone by Refused(426) > upgrade required

# While clients may not enter, a good head opens no session. The reply says when to try again.
bring closed
bring asks 13 /rooms/a
hear => Gone by Refused(503) > try again
hear => Gone
waiting 1 => None

# Rooms are opened and closed one by one.
bring closed
bring open a
bring asks 13 /rooms/a
hear => open a; Open as 1 > switched

bring closed
bring open b
bring asks 13 /rooms/a
hear => Gone by Refused(503) > try again

bring closed
bring open a
bring open b
bring close a
bring asks 13 /rooms/a
hear => Gone by Refused(503) > try again

bring closed
bring open a
bring open b
bring close a
bring asks 13 /rooms/b
hear => open b; Open as 1 > switched

# A room that is open in a hub that is full: the hub refuses.
full
bring closed
bring open a
bring asks 13 /rooms/a
hear => open a; Gone by Refused(503) > unavailable

# Where clients may not enter, a full hub is not asked.
full
bring closed
bring asks 13 /rooms/a
hear => Gone by Refused(503) > try again

# Pages of another origin than those that are named may not enter. A client that names none is no page.
bring only https://example.org
bring asks 13 /rooms/a https://example.com
hear => Gone by Refused(403) > forbidden

bring only https://example.org
bring only https://example.com
bring asks 13 /rooms/a https://example.com
hear => open a; Open as 1 > switched

bring only https://example.org
bring asks 13 /rooms/a HTTPS://example.org
hear => Gone by Refused(403) > forbidden

bring only https://example.org
bring asks 13 /rooms/a
hear => open a; Open as 1 > switched

bring asks 13 /rooms/a null
hear => open a; Open as 1 > switched

# An origin is judged before the room is.
bring only https://example.org
bring closed
bring asks 13 /rooms/a https://example.com
hear => Gone by Refused(403) > forbidden

# Who only watches begins a room, joins one that is there, or waits for a place.
bring asks 13 /rooms/a/watch
hear => open a read-only; Open as 1 > switched

bring watchers join
bring asks 13 /rooms/a/watch
hear => Gone by Refused(404) > not found

enter
other
bring watchers join
bring asks 13 /rooms/a/watch
hear => open a read-only; Open as 2 > switched

enter
other
bring watchers wait
bring asks 13 /rooms/a/watch
hear => Gone by Refused(503) > unavailable

enter
other
bring watchers wait
bring asks 13 /rooms/b/watch
hear => Gone by Refused(404) > not found

# Who edits is let in as ever.
bring watchers wait
bring asks 13 /rooms/a
hear => open a; Open as 1 > switched

# Where clients may not enter yet, nobody is told whether there is a room.
bring closed
bring watchers join
bring asks 13 /rooms/a/watch
hear => Gone by Refused(503) > try again

# A head that is refused is refused as ever.
bring closed
bring asks 8 /rooms/a
hear => Gone by Refused(426) > upgrade required

# What counts is whether clients may enter once the head is whole.
bring closed
bring reads one-byte
bring asks 13 /rooms/a
212 hear => Head
bring opened
hear => open a; Open as 1 > switched

bring reads one-byte
bring asks 13 /rooms/a
212 hear => Head
bring closed
hear => Gone by Refused(503) > try again

# A reply that was begun is written to its end.
bring closed
bring writes not-ready
bring asks 13 /rooms/a
hear => Head
bring opened
bring writes well
hear => Gone by Refused(503) > try again

bring writes not-ready
bring asks 13 /rooms/a
hear => open a; Head as 1
bring closed
bring writes well
hear => Open as 1 > switched

# Who is in is heard as ever.
enter
draws 2 => draw 1; draw 1; Open as 1 > {"epoch":1,"kind":"welcome","rev":0,"session":1}
bring closed
bring says {"do":"edit","id":7,"patch":[]}
hear => receive 1; draw 1; draw 1; Open as 1
tell => draw 1; Open as 1 > {"id":7,"kind":"done","rev":1}

# The head may arrive one byte at a time, even after a long wait for the first byte. It has 213 bytes.
2000 idle => Head
reads one-byte => Head
asks 13 /rooms/a => Head
211 idle => Head
idle => open a; Open as 1 > switched
"#;

#[test]
fn opens_or_refuses(rt: HostRuntime) {
    play_anew(&rt, ROWS);
}
