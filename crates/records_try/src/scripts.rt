// The scripts.
use crate::script;

// No byte, an unknown tag alone, and ON with half a length.
pub fn short() {
    let none = [0u8; 0];
    let tag = [99u8];
    let half = [6u8, 0];
    io::write_all(1, b"empty:\n");
    script(&none);
    io::write_all(1, b"one byte:\n");
    script(&tag);
    io::write_all(1, b"two bytes:\n");
    script(&half);
}

// An unknown tag: with no payload, with a whole payload of two bytes and ON after it, and with one byte of two. 10 to 15 are no tags either.
pub fn unknown() {
    let bare = [0u8, 0, 0];
    let whole = [10u8, 2, 0, 6, 0, 6, 0, 0];
    let cut = [23u8, 2, 0, 6];
    let long = [255u8, 255, 255, 6, 0, 0];
    io::write_all(1, b"unknown tag:\n");
    script(&bare);
    io::write_all(1, b"unknown tag, payload whole:\n");
    script(&whole);
    io::write_all(1, b"unknown tag, payload cut:\n");
    script(&cut);
    io::write_all(1, b"unknown tag, longest payload cut:\n");
    script(&long);
}

// A known tag with a wrong length: ON with a byte, then OFF; FREEZE with three bytes, two of them there; ON with 256 bytes, none of them there; SET with
// its places and no v.
pub fn wrong_length() {
    let whole = [6u8, 1, 0, 9, 7, 0, 0];
    let cut = [8u8, 3, 0, 1, 2];
    let high = [6u8, 0, 1];
    let set = [2u8, 8, 0, 1, 0, 0, 0, 2, 0, 0, 0];
    io::write_all(1, b"wrong length, payload whole:\n");
    script(&whole);
    io::write_all(1, b"wrong length, payload cut:\n");
    script(&cut);
    io::write_all(1, b"wrong in the high byte:\n");
    script(&high);
    io::write_all(1, b"SET without its byte:\n");
    script(&set);
}

// A right tag and length: FREEZE with no byte and with three of four; SIZE, and then one byte more.
pub fn cut_short() {
    let none = [8u8, 4, 0];
    let three = [8u8, 4, 0, 1, 2, 3];
    let more = [22u8, 0, 0, 22];
    io::write_all(1, b"right and cut:\n");
    script(&none);
    script(&three);
    io::write_all(1, b"a byte after a record:\n");
    script(&more);
}

// Tags 1 to 5: MAKE 3 4 1 2, SET 0 65535 255; SWAPR 1 2, SWAPC 0 1, ADD 0 2 4294967295.
pub fn changes() {
    io::write_all(1, b"tags 1 and 2:\n");
    script(b"\x01\x10\0\x03\0\0\0\x04\0\0\0\x01\0\0\0\x02\0\0\0\x02\x09\0\0\0\0\0\xff\xff\0\0\xff");
    io::write_all(1, b"tags 3 to 5:\n");
    script(
        b"\x03\x08\0\x01\0\0\0\x02\0\0\0\x04\x08\0\0\0\0\0\x01\0\0\0\x05\x0c\0\0\0\0\0\x02\0\0\0\xff\xff\xff\xff",
    );
}

// Tags 6 to 9: ON, OFF, FREEZE 67305985, RESIZE 2 3.
pub fn phases() {
    io::write_all(1, b"tags 6 to 9:\n");
    script(b"\x06\0\0\x07\0\0\x08\x04\0\x01\x02\x03\x04\x09\x08\0\x02\0\0\0\x03\0\0\0");
}

// Tags 16 to 22: GET 9 10, COUNT 1 0 256; WORDS 0 65536, TAILONES 2 16777216; ITER 0 2 1, COLONES 2 0 3, SIZE.
pub fn questions() {
    io::write_all(1, b"tags 16 and 17:\n");
    script(b"\x10\x08\0\x09\0\0\0\x0a\0\0\0\x11\x0c\0\x01\0\0\0\0\0\0\0\0\x01\0\0");
    io::write_all(1, b"tags 18 and 19:\n");
    script(b"\x12\x08\0\0\0\0\0\0\0\x01\0\x13\x08\0\x02\0\0\0\0\0\0\x01");
    io::write_all(1, b"tags 20 to 22:\n");
    script(b"\x14\x0c\0\0\0\0\0\x02\0\0\0\x01\0\0\0\x15\x0c\0\x02\0\0\0\0\0\0\0\x03\0\0\0\x16\0\0");
}
