use pts_tokens::{Token, TokenFault, read_tokens};

#[test]
fn tokens_have_their_byte_places(rt: HostRuntime) {
    let places = [0, 1, 3, 4, 5, 7, 9, 11, 12, 14, 17];
    match read_tokens(rt.alloc(), "\\é:*.\té->x:='s (", 0) {
        Ok(found) => {
            assert_eq!(rt; found.len(), places.len());
            for (spot, place) in found.iter().zip(places.iter()) {
                assert_eq!(rt; spot.0, *place);
            }
        }
        Err(fault) => assert_eq!(rt; fault, TokenFault::Memory),
    }
}

#[test]
fn a_token_keeps_its_text(rt: HostRuntime) {
    match read_tokens(rt.alloc(), "? a.é '_ 007", 2) {
        Ok(found) => {
            for spot in found.iter() {
                match &spot.1 {
                    Token::Name(name) => assert_eq!(rt; name.text(), "a.é"),
                    Token::Sort(sort) => assert_eq!(rt; sort.text(), "'_"),
                    Token::Number(digits) => assert_eq!(rt; digits.text(), "007"),
                    _ => assert_eq!(rt; spot.0, 99),
                }
            }
        }
        Err(fault) => assert_eq!(rt; fault, TokenFault::Memory),
    }
}

#[test]
fn a_dot_joins_identifiers_alone(rt: HostRuntime) {
    let counts = [
        ("a.b.c", 1),
        ("a .b", 3),
        ("a.let", 3),
        ("let.a", 3),
        ("a.1", 3),
        ("1.x", 3),
        ("'p.x", 3),
        ("a.b.in.c", 5),
        ("1a", 2),
        ("lets.inn", 1),
    ];
    for (text, count) in counts {
        match read_tokens(rt.alloc(), text, 0) {
            Ok(found) => assert_eq!(rt; found.len(), count),
            Err(fault) => assert_eq!(rt; fault, TokenFault::Memory),
        }
    }
}

#[test]
fn the_first_fault_is_answered_at_its_place(rt: HostRuntime) {
    let refusals = [
        ("é - >", TokenFault::BadChar(3)),
        ("'let", TokenFault::BadChar(0)),
        ("a '1", TokenFault::BadChar(2)),
        ("\n%", TokenFault::BadChar(0)),
        ("$ '", TokenFault::BadChar(0)),
    ];
    for (text, fault) in refusals {
        match read_tokens(rt.alloc(), text, 0) {
            Ok(found) => assert_eq!(rt; found.len(), 99),
            Err(refused) => assert_eq!(rt; refused, fault),
        }
    }
}

/// 64 letters, a dot, and 64 letters.
const LONG: &str =
    "aaaaaaaaaaaaaaaaaaaaaaaaaaaaaaaaaaaaaaaaaaaaaaaaaaaaaaaaaaaaaaaa.aaaaaaaaaaaaaaaaaaaaaaaaaaaaaaaaaaaaaaaaaaaaaaaaaaaaaaaaaaaaaaaa";

#[test]
fn a_name_of_129_bytes_is_too_long(rt: HostRuntime) {
    assert!(rt;
        matches!(
            read_tokens(rt.alloc(), LONG, 0),
            Err(TokenFault::LongName(0))
        )
    );
}
