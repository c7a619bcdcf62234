//! The token file against texts written by hand from its layout.
use hash_bank::{Bank, Digest};
use pl_base::Memory;
use policy_file::{FileError, FileKind, Literal, Token, read_token, write_token};
use std::alloc::Global;
use std::test::Fail;

/// A token that seals to PCR 11 holding 32 bytes 0xa5 in the bank SHA-256.
const TEXT: [u8; 48] = [
    0x50, 0x4c, 0x54, 0x4f, 0x4b, 0x00, 0x00, 0x01, 0x81, 0x00, 0x00, 0x2a, 0x01, 0x00, 0x0b, 0x0b,
    0xa5, 0xa5, 0xa5, 0xa5, 0xa5, 0xa5, 0xa5, 0xa5, 0xa5, 0xa5, 0xa5, 0xa5, 0xa5, 0xa5, 0xa5, 0xa5,
    0xa5, 0xa5, 0xa5, 0xa5, 0xa5, 0xa5, 0xa5, 0xa5, 0xa5, 0xa5, 0xa5, 0xa5, 0xa5, 0xa5, 0xa5, 0xa5,
];

/// A token whose session is of SHA-384, and whose value is 20 bytes 0xa5 in the bank SHA-1.
const SHORTER: [u8; 36] = [
    0x50, 0x4c, 0x54, 0x4f, 0x4b, 0x00, 0x00, 0x01, 0x81, 0x00, 0x00, 0x2a, 0x02, 0x00, 0x04, 0x0b,
    0xa5, 0xa5, 0xa5, 0xa5, 0xa5, 0xa5, 0xa5, 0xa5, 0xa5, 0xa5, 0xa5, 0xa5, 0xa5, 0xa5, 0xa5, 0xa5,
    0xa5, 0xa5, 0xa5, 0xa5,
];

/// A token of an object that is bound to an index.
const BOUND: [u8; 13] = [
    0x50, 0x4c, 0x54, 0x4f, 0x4b, 0x00, 0x00, 0x01, 0x81, 0x00, 0x00, 0x2a, 0x00,
];

/// Whether the text is read as the token, which is written as the text.
fn is_text_of(alloc: Global, text: &[u8], token: &Token) -> Result<bool, Memory> {
    match read_token(text) {
        Ok(read) => Ok(read == *token && write_token(alloc, &read)?.as_slice() == text),
        Err(_) => Ok(false),
    }
}

/// The literal token of PCR 11.
fn literal(hash: Bank, bank: Bank, value: Digest) -> Token {
    Token::Literal {
        object: 0x8100_002a,
        literal: Literal {
            hash,
            bank,
            pcr: 11,
            value,
        },
    }
}

#[test]
fn tokens_are_read_and_written(rt: HostRuntime) -> Result<(), Fail> {
    let alloc = rt.alloc();
    let value = Digest::from_slice(&[0xa5; 32]).ok_or("1 to 64 bytes")?;
    let token = literal(Bank::Sha256, Bank::Sha256, value);
    assert!(rt; is_text_of(alloc, &TEXT, &token)?);
    let value = Digest::from_slice(&[0xa5; 20]).ok_or("1 to 64 bytes")?;
    let token = literal(Bank::Sha384, Bank::Sha1, value);
    assert!(rt; is_text_of(alloc, &SHORTER, &token)?);
    let token = Token::Bound {
        object: 0x8100_002a,
    };
    assert!(rt; is_text_of(alloc, &BOUND, &token)?);
    Ok(())
}

/// Whether the text is refused for this fault.
fn is_refused(text: &[u8], place: u32, kind: FileKind) -> bool {
    read_token(text) == Err(FileError::Malformed { place, kind })
}

#[test]
fn a_text_is_refused_for_its_first_fault(rt: HostRuntime) {
    assert!(rt; is_refused(&TEXT[..7], 0, FileKind::Cut));
    assert!(rt; is_refused(&TEXT[..47], 16, FileKind::Cut));
    // a PCR that is none, and behind it a kind that is none
    let mut text = TEXT;
    text[15] = 24;
    assert!(rt; is_refused(&text, 15, FileKind::Value));
    text[12] = 9;
    assert!(rt; is_refused(&text, 12, FileKind::Value));
    // another version
    text[7] = 2;
    assert!(rt; is_refused(&text, 0, FileKind::Magic));
    // a bound token with more behind it
    let mut text = TEXT;
    text[12] = 0;
    assert!(rt; is_refused(&text, 13, FileKind::Trailing));
}
