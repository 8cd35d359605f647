//! What an input is cut into.
use std::test::Fail;
use uses::tokens::{Kind, Token, tokenize_text};

/// Whether the tokens are these.
fn are(tokens: &[Token], wanted: &[(Kind, &[u8])]) -> bool {
    if tokens.len() != wanted.len() {
        return false;
    }
    for (token, &(kind, text)) in tokens.iter().zip(wanted) {
        if token.kind != kind || token.text.as_slice() != text {
            return false;
        }
    }
    true
}

#[test]
fn a_text_is_cut_where_the_kind_changes(rt: HostRuntime) -> Result<(), Fail> {
    let tokens = tokenize_text(rt.alloc(), b"x1 = 20*rate;")?;
    let wanted: [(Kind, &[u8]); 9] = [
        (Kind::Letters, b"x"),
        (Kind::Digits, b"1"),
        (Kind::Sign, b" "),
        (Kind::Sign, b"="),
        (Kind::Sign, b" "),
        (Kind::Digits, b"20"),
        (Kind::Sign, b"*"),
        (Kind::Letters, b"rate"),
        (Kind::Sign, b";"),
    ];
    assert!(rt; are(&tokens, &wanted));
    Ok(())
}
