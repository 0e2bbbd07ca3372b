// Bytes at whose front no entry stands.
use crate::entries::{refuses, refuses_book};

#[test]
fn nothing_is_no_entry(rt: HostRuntime) {
    assert!(rt; refuses(rt.alloc(), b""));
    assert!(rt;
        refuses(rt.alloc(), b"\x04\0\0\0\0\0\0\0"),
        "a writer of seven bytes"
    );
    assert!(rt; refuses_book(rt.alloc(), b""));
}

#[test]
fn each_log_has_its_own_kinds(rt: HostRuntime) {
    assert!(rt; refuses(rt.alloc(), b"\0\0\0\0\0\0\0\0\0"));
    assert!(rt; refuses(rt.alloc(), b"\x05\0\0\0\0\0\0\0\0"));
    assert!(rt; refuses_book(rt.alloc(), b"\x04\0\0\0\0\0\0\0\0"));
    assert!(rt; refuses_book(rt.alloc(), b"\x07\0\0\0\0\0\0\0\0"));
}

#[test]
fn a_text_is_utf_8_and_whole(rt: HostRuntime) {
    let other = b"\x02\0\0\0\0\0\0\0\x01\0\0\0\0\0\0\0\x01\xff";
    assert!(rt; refuses(rt.alloc(), other), "0xff is in no text");
    let short = b"\x02\0\0\0\0\0\0\0\x01\0\0\0\0\0\0\0\x03ab";
    assert!(rt; refuses(rt.alloc(), short), "two bytes of three");
    let huge = b"\x02\0\0\0\0\0\0\0\x01\xff\xff\xff\xff\xff\xff\xff\xffab";
    assert!(rt; refuses(rt.alloc(), huge), "the greatest length");
}

#[test]
fn names_of_fields_rise(rt: HostRuntime) {
    let falls = b"\x01\0\0\0\0\0\0\0\x01\0\0\0\0\0\0\0\x02\
\0\0\0\0\0\0\0\x01b\x02\0\0\0\0\0\0\0\0\0\0\0\0\0\0\0\x01a\x02\0\0\0\0\0\0\0\0";
    assert!(rt; refuses(rt.alloc(), falls), "b, a");
    let repeats = b"\x01\0\0\0\0\0\0\0\x01\0\0\0\0\0\0\0\x02\
\0\0\0\0\0\0\0\x01a\x02\0\0\0\0\0\0\0\0\0\0\0\0\0\0\0\x01a\x02\0\0\0\0\0\0\0\0";
    assert!(rt; refuses(rt.alloc(), repeats), "a, a");
}

#[test]
fn a_value_is_a_number_or_a_text(rt: HostRuntime) {
    let other = b"\x01\0\0\0\0\0\0\0\x01\0\0\0\0\0\0\0\x01\
\0\0\0\0\0\0\0\x01a\x03\0\0\0\0\0\0\0\0";
    assert!(rt; refuses(rt.alloc(), other));
}

#[test]
fn a_count_past_the_end_takes_no_memory(rt: HostRuntime) {
    let fields = b"\x01\0\0\0\0\0\0\0\x01\x10\0\0\0\0\0\0\0";
    assert!(rt; refuses(rt.alloc(), fields), "2^60 fields");
    let versions = b"\x06\0\0\0\0\0\0\0\x01\0\0\0\0\0\0\0\0\0\0\0\0\0\0\0\0\
\xff\xff\xff\xff\xff\xff\xff\xff\0\0\0\0\0\0\0\x01";
    assert!(rt;
        refuses_book(rt.alloc(), versions),
        "2^64-1 versions, of which one is there"
    );
}

#[test]
fn a_destination_is_there_or_not(rt: HostRuntime) {
    let other = b"\x05\0\0\0\0\0\0\0\x02\
\0\0\0\0\0\0\0\0\0\0\0\0\0\0\0\0\0\0\0\0\0\0\0\0\0\0\0\0\0\0\0\0\0\0\0\0\0\0\0\0\
\x02\0\0\0\0\0\0\0\x01d\0\0\0\0\0\0\0\0";
    assert!(rt; refuses_book(rt.alloc(), other), "the byte 2");
}
