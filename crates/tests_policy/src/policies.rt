//! Digests that a TPM 2.0 gave.
use hash_bank::{Bank, Digest, extend, hash};
use nv_index::{CONTENT_SIZE, NvPublic, WRITTEN_ATTRIBUTES, index_name};
use policy_digest::{
    Group, pin_policy, policy_authorize_nv, policy_authorize_nv_in, policy_or, policy_or_in,
    policy_pcr, policy_pcr_in, values_digest, values_digest_in,
};
use std::process::Abort;
use std::test::Fail;

const VALUES_OF_ONE: &str = "8c3fe6aa09a8f379b4ef4e0a8fa6595d273a44bd9f32e06c2f1784db88935e15";

const PCR_OF_ONE: &str = "b69a28b0dc5cbfd43a39f791530222f3b6908411eb57918d73908bac98c38786";

const VALUES_OF_TWO: &str = "2c37061fdb60edc1cd88aba244e72556a6d371f0dc4f1f6e8a7bd1167e25bcb0";

const PCR_OF_TWO: &str = "1a3a07cdefeeea9e26a33c2462f988620d9f860ecf46a716190ca4cc8910b3f5";

const PCR_OF_NONE: &str = "7df052f36836e42176aaa0b800a56ef35ed728f46c6cb4cc83d56059490ba361";

const OR_OF_TWO: &str = "acaef43a744c0ab0dfb8b2e7c83a20ebca845fc0e16d9c56a28f3c696be69b3c";

const PIN: &str = "bd68504317b596eb417e6495afbeaf3285c2235a544f6620e803155b32de49de";

const AUTHORIZE_NV: &str = "5e0726450ac9e15c3f077dd0e65fe17c69fda0a88ccb709d675213cd1a18ea39";

const LONG_VALUE: &str =
    "93732e3733514a841c982cfa75ea76ab55fe011acb9cd980ef4523913c65be1b0998e04d77f8c174f81a82151619ca40";

const LONG_PCR: &str =
    "8c6a22296e94f57c3fd87c4b1a9652402c7022f29bb942579c020e1dc6508cb30b16255ae0b6bb733374e7d355b75c4e";

// The digest is the one that the text spells in its bank.
fn is(rt: &impl Abort, digest: &Digest, bank: Bank, text: &str) {
    assert_eq!(rt; Digest::from_hex(bank, text), Ok(*digest));
}

// A PCR's value after one extend by an event's digest.
fn once(bank: Bank, event: &[u8]) -> Digest {
    extend(bank, &Digest::zeros(bank), &hash(bank, event))
}

#[test]
fn digests_of_pcrs_are_those_of_a_tpm(rt: HostRuntime) {
    let bank = Bank::Sha256;
    let zeros = Digest::zeros(bank);
    let letters = once(bank, b"abc");
    let separator = once(bank, &[0, 0, 0, 0]);
    let one = values_digest(&[letters]);
    is(&rt, &one, bank, VALUES_OF_ONE);
    is(
        &rt,
        &policy_pcr(&zeros, bank, 1 << 11, &one),
        bank,
        PCR_OF_ONE,
    );
    let two = values_digest(&[separator, letters]);
    is(&rt, &two, bank, VALUES_OF_TWO);
    is(
        &rt,
        &policy_pcr(&zeros, bank, 1 << 4 | 1 << 11, &two),
        bank,
        PCR_OF_TWO,
    );
    is(
        &rt,
        &policy_pcr(&zeros, bank, 0, &values_digest(&[])),
        bank,
        PCR_OF_NONE,
    );
}

#[test]
fn digests_under_sha384_are_those_of_a_tpm(rt: HostRuntime) {
    let bank = Bank::Sha384;
    let value = once(bank, b"abc");
    is(&rt, &value, bank, LONG_VALUE);
    let values = values_digest_in(bank, &[value]);
    let policy = policy_pcr_in(bank, &Digest::zeros(bank), bank, 1 << 11, &values);
    is(&rt, &policy, bank, LONG_PCR);
}

#[test]
fn digests_of_policies_are_those_of_a_tpm(rt: HostRuntime) -> Result<(), Fail> {
    let bank = Bank::Sha256;
    let events = [hash(bank, b"abc"), hash(bank, &[0, 0, 0, 0])];
    let group = Group::from_slice(&events).ok_or("two digests fit")?;
    is(&rt, &policy_or(&group), bank, OR_OF_TWO);
    let policy = pin_policy(&[1; 32]);
    is(&rt, &policy, bank, PIN);
    let name = index_name(&NvPublic {
        handle: 0x0180_0100,
        attributes: WRITTEN_ATTRIBUTES,
        policy,
        size: CONTENT_SIZE,
    });
    is(&rt, &policy_authorize_nv(&name), bank, AUTHORIZE_NV);
    assert_ne!(rt;
        policy_or_in(Bank::Sha384, &group),
        policy_authorize_nv_in(Bank::Sha384, &name)
    );
    Ok(())
}

#[test]
fn a_group_holds_eight(rt: HostRuntime) -> Result<(), Fail> {
    let digests = [Digest::ones(Bank::Sha256); 9];
    assert!(rt; Group::from_slice(&digests).is_none());
    let group = Group::from_slice(&digests[..8]).ok_or("eight digests fit")?;
    assert_eq!(rt; group.as_slice().len(), 8);
    Ok(())
}
