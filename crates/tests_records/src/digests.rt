//! What no clause says: that the hashes are the published ones, and each call once.
use hash_bank::{Bank, Banks, Digest, Hasher, HexError, extend, hash, hash_all, start};
use std::process::Abort;
use std::test::Fail;

// The messages of the examples of FIPS 180-4 that NIST published beside the standard, and the
// empty message, with their digests in each bank.
const VECTORS: [(&str, [&str; 4]); 3] = [
    (
        "",
        [
            "da39a3ee5e6b4b0d3255bfef95601890afd80709",
            "e3b0c44298fc1c149afbf4c8996fb92427ae41e4649b934ca495991b7852b855",
            "38b060a751ac96384cd9327eb1b1e36a21fdb71114be07434c0cc7bf63f6e1da274edebfe76f65fbd51ad2f14898b95b",
            "cf83e1357eefb8bdf1542850d66d8007d620e4050b5715dc83f4a921d36ce9ce47d0d13c5d85f2b0ff8318d2877eec2f63b931bd47417a81a538327af927da3e",
        ],
    ),
    (
        "abc",
        [
            "a9993e364706816aba3e25717850c26c9cd0d89d",
            "ba7816bf8f01cfea414140de5dae2223b00361a396177a9cb410ff61f20015ad",
            "cb00753f45a35e8bb5a03d699ac65007272c32ab0eded1631a8b605a43ff5bed8086072ba1e7cc2358baeca134c825a7",
            "ddaf35a193617abacc417349ae20413112e6fa4e89a97ea20a9eeee64b55d39a2192992a274fc1a836ba3c23a3feebbd454d4423643ce80e2a9ac94fa54ca49f",
        ],
    ),
    (
        "abcdbcdecdefdefgefghfghighijhijkijkljklmklmnlmnomnopnopq",
        [
            "84983e441c3bd26ebaae4aa1f95129e5e54670f1",
            "248d6a61d20638b8e5c026930c3e6039a33ce45964ff2167f6ecedd419db06c1",
            "3391fdddfc8dc7393707a65b1b4709397cf8b1d162af05abfe8f450de5f36bc6b0455a8520bc4e6f5fe95b1fe3c8452b",
            "204a8fc6dda82f0a0ced7beb8e08a41657c16ef468b228a8279be331a703c33596fd15c13b1b07f9aa1d3bea57789ca031ad85c7a71dd70354ec631238ca3445",
        ],
    ),
];

// The digest prints as this text.
fn prints(rt: &(impl Abort + AllocGlobal), digest: &Digest, text: &str) -> Result<(), Fail> {
    let printed = digest.to_string(rt.alloc())?;
    assert_eq!(rt; printed.as_str(), text);
    Ok(())
}

#[test]
fn digests_are_the_published_ones(rt: HostRuntime) -> Result<(), Fail> {
    for (message, texts) in VECTORS.iter() {
        let all = hash_all(message.as_bytes());
        for (bank, text) in Bank::ALL.iter().zip(texts.iter()) {
            let digest = hash(*bank, message.as_bytes());
            prints(&rt, &digest, text)?;
            assert_eq!(rt; Digest::from_hex(*bank, text)?, digest);
            assert_eq!(rt; all.get(*bank).ok_or("a bank is missing")?, digest);
        }
    }
    Ok(())
}

// A SHA-256 bank's PCR after extends by the hash of `abc`, as a TPM 2.0 gives them.
const ONCE: &str = "589f9ffed4c477966bfb8d41f37895b08c69047df8f911d6f3b57fbe08faee8d";

const TWICE: &str = "bdeb6c6dc63852834c89f67066194207ce7d3806ea40ca58dc079246ef58a926";

#[test]
fn a_pcr_starts_and_is_extended(rt: HostRuntime) -> Result<(), Fail> {
    let event = hash(Bank::Sha256, b"abc");
    let once = extend(Bank::Sha256, &start(Bank::Sha256, 11, 3), &event);
    prints(&rt, &once, ONCE)?;
    prints(&rt, &extend(Bank::Sha256, &once, &event), TWICE)?;
    prints(
        &rt,
        &start(Bank::Sha1, 0, 3),
        "0000000000000000000000000000000000000003",
    )?;
    prints(
        &rt,
        &start(Bank::Sha1, 17, 3),
        "ffffffffffffffffffffffffffffffffffffffff",
    )?;
    prints(
        &rt,
        &start(Bank::Sha1, 23, 3),
        "0000000000000000000000000000000000000000",
    )
}

// Texts that are no digest of SHA-1, each with the error that it gets.
const BAD_TEXTS: [(&str, HexError); 5] = [
    ("", HexError::BadLength),
    (
        "a9993e364706816aba3e25717850c26c9cd0d89",
        HexError::BadLength,
    ),
    (
        "a9993e364706816aba3e25717850c26c9cd0d89dff",
        HexError::BadLength,
    ),
    (
        "g9993e364706816aba3e25717850c26c9cd0d89d",
        HexError::BadHex(0),
    ),
    (
        "A9993E364706816ABA3E25717850C26C9CD0D8/:",
        HexError::BadHex(38),
    ),
];

#[test]
fn bad_texts_are_refused(rt: HostRuntime) {
    for (text, error) in BAD_TEXTS.iter() {
        assert_eq!(rt; Digest::from_hex(Bank::Sha1, text), Err(*error));
    }
    assert_eq!(rt; Digest::from_slice(&[]), None);
    assert_eq!(rt; Digest::from_slice(&[0; 65]), None);
}

#[test]
fn each_other_call_once(rt: HostRuntime) -> Result<(), Fail> {
    let zeros = Digest::zeros(Bank::Sha384);
    assert_eq!(rt; Digest::from_slice(&[0; 48]).ok_or("48 bytes fit")?, zeros);
    assert_ne!(rt; Digest::ones(Bank::Sha384), zeros);
    assert_eq!(rt; zeros.as_slice().len(), Bank::Sha384.size());
    assert_eq!(rt; Bank::Sha512.name(), "sha512");
    assert_eq!(rt;
        Bank::from_algorithm(Bank::Sha384.algorithm()).ok_or("known")?,
        Bank::Sha384
    );
    assert_eq!(rt; Bank::from_algorithm(0x0012), None);
    assert!(rt; Banks::all().has(Bank::Sha1));
    assert!(rt; !Banks::all().is_empty());
    let mut hasher = Hasher::new(Bank::Sha1);
    hasher.update(b"a");
    hasher.update(b"bc");
    hasher.update_parts(&[b"", b""]);
    prints(
        &rt,
        &hasher.finish(),
        "a9993e364706816aba3e25717850c26c9cd0d89d",
    )
}
