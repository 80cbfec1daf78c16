use crate::error::ParseError;
use crate::lexer::{Lexeme, Token, Wrong, get_token};

// The tokens and the errors that the lexer of the crate sise 0.8.0 gives on these texts.
#[test]
fn get_token_passes_blanks_and_comments(rt: HostRuntime) {
    for (text, from, token, start, end) in [
        (&b" \t\r\n("[..], 0, Token::LeftParen, 4, 5),
        (&b"a ) b"[..], 1, Token::RightParen, 2, 3),
        (&b"; note )\n\ta\"b c\"d;e"[..], 0, Token::Atom(7), 10, 17),
        (&b"; note"[..], 0, Token::Eof, 6, 6),
        (&b"x  "[..], 1, Token::Eof, 3, 3),
    ] {
        assert_eq!(rt;
            get_token(text, from),
            Ok(Lexeme { token, start, end }),
            "from {from}"
        );
    }
}

#[test]
fn get_token_refuses_as_the_crate_does(rt: HostRuntime) {
    for (text, error, position) in [
        (
            &b" \x7f"[..],
            ParseError::IllegalChr { pos: 1, chr: 127 },
            2,
        ),
        (
            &b" ;\x01"[..],
            ParseError::IllegalChrInComment { pos: 2, chr: 1 },
            3,
        ),
        (&b" \"a"[..], ParseError::UnfinishedString { pos: 3 }, 3),
    ] {
        assert_eq!(rt;
            get_token(text, 0),
            Err(Wrong { error, position }),
            "at {position}"
        );
    }
}
