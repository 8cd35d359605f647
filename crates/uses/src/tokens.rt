//! A tokenizer with one byte of look-ahead.
//!
//! It uses `arraydeque::lookahead::Scanner`, and is proved over the scanner's public contract
//! alone: the tokens of an input, joined, are the input, and no two side by side could be one.
ghost use Rattle.std.specs.Prelude.{◌≡◌, ◌<◌, ℕ, List, [], IfOk, IfErr, IfSome, IfNone, All, ⊤};
ghost use Rattle.std.specs.Iterator.{IsFinite, MakesProgress};
ghost use Rattle.std.specs.Option.{option_to_list};
ghost use Rattle.arraydeque.specs.Lookahead.{HasRest, TakesOff};
ghost use Rattle.uses.specs.Tokens.{kind_of, joined, IsOfOneKind, IsOneByteIfSign, IsOver, AreLongest};

use arraydeque::MakeError;
use arraydeque::lookahead::Scanner;
use std::alloc::{AllocError, Global};

/// What a token consists of.
#[derive(Clone, Copy, Debug, PartialEq, Eq)]
pub enum Kind {
    /// ASCII letters.
    Letters,
    /// ASCII digits.
    Digits,
    /// One byte of another kind.
    Sign,
}

/// A run of bytes of one kind.
#[derive(Debug, Drop)]
pub struct Token {
    /// What it consists of.
    pub kind: Kind,
    /// Its bytes.
    pub text: Vec<u8>,
}

/// Cuts all that a scanner has left into tokens: runs of letters, runs of digits, and single signs.
/// If memory is refused, the bytes taken so far come back in the error, as tokens, of which the
/// last may be cut short, and the scanner has the others.
///
/// It requires a scanner that can look at least one byte ahead.
pub fn tokenize<I: Iterator<Item = u8>, const AHEAD: usize>(
    alloc: Global,
    scanner: &mut Scanner<I, AHEAD>,
) -> Result<Vec<Token>, MakeError<Vec<Token>>>
    requires ahead { 0 < AHEAD }
    requires ends { IsFinite scanner.old.left }

    // If memory is granted, all is cut into tokens.
    ensures joined { IfOk result (λ tokens.
        HasRest I.next_gives scanner.old (joined tokens.items)) }
    ensures one_kind { IfOk result (λ tokens. All IsOfOneKind tokens.items) }
    ensures signs { IfOk result (λ tokens. All IsOneByteIfSign tokens.items) }
    ensures longest { IfOk result (λ tokens. AreLongest tokens.items) }

    // If memory is refused, the bytes taken come back.
    ensures source { IfErr result (λ refusal.
        TakesOff I.next_gives scanner.old (joined refusal.source.items) scanner.new) }
    ensures source_kind { IfErr result (λ refusal. All IsOfOneKind refusal.source.items) }

    // The input still ends.
    ensures ends { IsFinite scanner.new.left }
{
    let mut tokens = Vec::new(alloc);
    while tokens.reserve(1).is_ok() {
        match next_token(alloc, scanner) {
            Ok(Some(token)) => tokens.push_reserved(token),
            Ok(None) => return Ok(tokens),
            Err(refusal) => {
                if let Some(token) = refusal.source {
                    tokens.push_reserved(token);
                }
                return Err(MakeError { source: tokens });
            }
        }
    }
    Err(MakeError { source: tokens })
}

/// Cuts a text into tokens, with a scanner that looks one byte ahead.
pub fn tokenize_text(alloc: Global, text: &[u8]) -> Result<Vec<Token>, AllocError>
    ensures joined { IfOk result (λ tokens. joined tokens.items ≡ text.now) }
    ensures one_kind { IfOk result (λ tokens. All IsOfOneKind tokens.items) }
    ensures signs { IfOk result (λ tokens. All IsOneByteIfSign tokens.items) }
    ensures longest { IfOk result (λ tokens. AreLongest tokens.items) }
{
    let mut scanner = Scanner::<_, 1>::new(alloc, text.iter().copied())?;
    Ok(tokenize(alloc, &mut scanner)?)
}

/// Takes the next token, or returns `None` at the end. If memory is refused, the bytes taken come
/// back in the error, as a token that is cut short.
fn next_token<I: Iterator<Item = u8>, const AHEAD: usize>(
    alloc: Global,
    scanner: &mut Scanner<I, AHEAD>,
) -> Result<Option<Token>, MakeError<Option<Token>>>
    requires ahead { 0 < AHEAD }
    requires ends { IsFinite scanner.old.left }

    // If memory is granted, the next token is taken.
    ensures taken { IfOk result (λ token.
        TakesOff I.next_gives scanner.old (joined (option_to_list token)) scanner.new) }
    ensures over { IfOk result (λ token. IfNone token (HasRest I.next_gives scanner.old [])) }
    ensures one_kind { IfOk result (λ token. IfSome token IsOfOneKind) }
    ensures signs { IfOk result (λ token. IfSome token IsOneByteIfSign) }
    ensures longest { IfOk result (λ token. IfSome token (λ token. (rest : List ℕ)
        → HasRest I.next_gives scanner.new rest → IsOver token.kind rest)) }

    // If memory is refused, the bytes taken come back.
    ensures source { IfErr result (λ refusal. TakesOff I.next_gives scanner.old
        (joined (option_to_list refusal.source)) scanner.new) }
    ensures source_kind { IfErr result (λ refusal. IfSome refusal.source IsOfOneKind) }

    // The input still ends, and each token leaves less of it.
    ensures ends { IsFinite scanner.new.left }
    ensures goes { IfOk result (λ token.
        MakesProgress (λ _. ⊤) (λ s. s.left) scanner.old token scanner.new) }
{
    let mut text = Vec::new(alloc);
    if text.reserve(1).is_err() {
        return Err(MakeError { source: None });
    }
    let Some(first) = scanner.next() else {
        return Ok(None);
    };
    let kind = kind_of(first);
    text.push_reserved(first);
    while text.reserve(1).is_ok() {
        let Some(byte) = scanner.next_if(|byte| kind != Kind::Sign && kind_of(*byte) == kind) else {
            return Ok(Some(Token { kind, text }));
        };
        text.push_reserved(byte);
    }
    Err(MakeError {
        source: Some(Token { kind, text }),
    })
}

/// What kind of token a byte is in.
fn kind_of(byte: u8) -> Kind
    ensures { result ≡ kind_of byte }
{
    if byte.is_ascii_alphabetic() {
        Kind::Letters
    } else if byte.is_ascii_digit() {
        Kind::Digits
    } else {
        Kind::Sign
    }
}
