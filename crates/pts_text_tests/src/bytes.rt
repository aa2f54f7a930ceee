use pts_bytes::{is_digits, is_text, number_up_to, split_at, text_of, whole_line, without_return};

#[test]
fn texts_are_cut_at_their_first_byte(rt: HostRuntime) {
    assert!(rt; split_at(b"a b c", b' ') == Some((&b"a"[..], &b"b c"[..])));
    assert!(rt; split_at(b"abc", b' ').is_none());
}

#[test]
fn lines_end_with_a_line_feed_and_lose_their_carriage_return(rt: HostRuntime) {
    assert!(rt; whole_line(b"a\r\nb\n") == Some((&b"a"[..], &b"b\n"[..])));
    assert!(rt; whole_line(b"a\r").is_none());
    assert!(rt; without_return(b"a\r") == b"a".as_slice());
}

#[test]
fn numbers_have_no_leading_zero_and_are_within_the_limit(rt: HostRuntime) {
    assert!(rt; number_up_to(4_294_967_295, b"4294967295") == Some(4_294_967_295));
    assert!(rt; number_up_to(4_294_967_295, b"4294967296").is_none());
    assert!(rt; number_up_to(9, b"07").is_none());
    assert!(rt; is_digits(b"07") && !is_digits(b"") && !is_digits(b"7a"));
}

#[test]
fn bytes_that_are_no_utf8_are_no_text(rt: HostRuntime) {
    assert!(rt; text_of(b"a") == Some("a"));
    assert!(rt; text_of(b"\xff").is_none());
    assert!(rt; is_text(b"end", "end") && !is_text(b"ends", "end"));
}
