//! The requests that lines spell.
use pcrlock_words::{Request, WordsError, read_words, split_line};
use pl_base::{Name, Small};
use std::alloc::Global;
use std::test::Fail;

// The request that a line spells, inside a script of this policy path or outside.
fn request_in(alloc: Global, line: &str, policy: Option<&Name>) -> Result<Request, WordsError> {
    let words = split_line(alloc, line)?;
    read_words(alloc, words.as_slice(), policy)
}

// The key of a request, if it gives one.
fn key_of(request: &Request) -> Option<&Small> {
    match request {
        Request::Enroll { key, .. } => key.as_ref(),
        _ => None,
    }
}

// The pin of a request, if it gives one.
fn pin_of(request: &Request) -> Option<&[u8; 32]> {
    match request {
        Request::MakePolicy { pin, .. } => pin.as_ref(),
        _ => None,
    }
}

#[test]
fn digits_are_read_in_either_case(rt: HostRuntime) -> Result<(), Fail> {
    let line = "state enroll --token t --key 00fFAb";
    let request = request_in(rt.alloc(), line, None)?;
    let key = key_of(&request).ok_or("no key")?;
    assert_eq!(rt; key.as_slice(), b"\x00\xff\xab".as_slice());
    let line =
        "state make-policy --pin aAaaaaaaaaaaaaaaaaaaaaaaaaaaaaaaaaaaaaaaaaaaaaaaaaaaaaaaaaaaaaaa";
    let request = request_in(rt.alloc(), line, None)?;
    let pin = pin_of(&request).ok_or("no pin")?;
    assert_eq!(rt; pin.as_slice(), [0xaa; 32].as_slice());
    Ok(())
}

#[test]
fn no_words_are_bad_words(rt: HostRuntime) {
    let answer = read_words(rt.alloc(), &[], None);
    assert!(rt; matches!(answer, Err(WordsError::BadWords)));
}
