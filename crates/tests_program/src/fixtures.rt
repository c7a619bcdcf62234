//! What tests of several commands share.
use hash_bank::Banks;
use pcrlock_answer::answer_line;
use pcrlock_line::{Reply, Stop};
use pl_base::Small;
use std::alloc::Global;
use std::test::Fail;

pub(crate) const BANKS: Banks = Banks {
    sha1: false,
    sha256: true,
    sha384: false,
    sha512: false,
};

pub(crate) const INDEX: u32 = 0x0180_0100;

pub(crate) const PIN: [u8; 32] = [1; 32];

/// What an index holds for the table of the value of PCR 11 after one and after two extends with the digest of
/// `abc`: 000b, and the table's policy by another implementation.
pub(crate) const FIRST_HELD: &str =
    "000bb69a28b0dc5cbfd43a39f791530222f3b6908411eb57918d73908bac98c38786";

pub(crate) const SECOND_HELD: &str =
    "000b6735effc8ef646ff757854d3b1151e6eec853547297139f2edebc8e2e8e29f72";

/// The policy file with the table of the first value, with the pin of 32 bytes 01 and the first object.
pub(crate) const FIRST_FILE: &str =
    "504c504f4c00000101800100bd68504317b596eb417e6495afbeaf3285c2235a544f6620e803155b32de49de8100000001000b010b0001589f9ffed4c477966bfb8d41f37895b08c69047df8f911d6f3b57fbe08faee8d";

/// The bytes that digits spell.
pub(crate) fn small(alloc: Global, digits: &str) -> Result<Small, Fail> {
    let bytes = hex::decode(alloc, digits)?;
    Ok(Small::from_slice(bytes.as_slice()).ok_or("too long")?)
}

/// What a command prints on standard output or on standard error.
pub(crate) fn said(alloc: Global, replied: Result<Reply, Stop>) -> Result<Vec<u8>, Fail> {
    match replied {
        Ok(Reply::Fine(text)) => Ok(text),
        Ok(Reply::Refused(answer)) => Ok(answer_line(alloc, &answer)?),
        Err(_) => Err("stopped".into()),
    }
}
