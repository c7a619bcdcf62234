//! The fields of requests, by the options that give them or what stands where an option is left out.

ghost use Rattle.std.specs.Prelude.{◌≡◌, IfOk, option_copied};
ghost use Rattle.pcrlock_words.specs.Readings.{Gives};
ghost use Rattle.pcrlock_words.specs.Fields.{bank_in, banks_in, client_limit, clients_in, components_in, default_folders, default_pcrs, extended_bytes, firmware_log_in, index_in, key_in, literal_bank_in, literal_in, locality_in, location_in, made_beside, makes_at, number_in, optional_index_in, optional_locality_in, optional_path_in, path_beside, path_in, pcr_in, pcrs_in, pin_in, policy_in, standing_policy, userspace_log_in, variant_in};

use crate::error::WordsError;
use crate::options::Options;
use crate::values::{
    names, read_clients, read_folders, read_hex, read_index, read_key, read_locality,
    read_location, read_machine, read_path, read_variant,
};
use component_make::{FirmwareKind, early_path, late_path};
use hash_bank::{Bank, Banks};
use pl_base::{List, Memory, Name, Small};
use pl_text::{read_bank, read_banks, read_pcr, read_pcr_mask, read_pin};
use predictor::Window;
use std::alloc::Global;

// The policy file's path where no option gives it.
const DEFAULT_POLICY: &str = "pcrlock.policy";

// The NV index where no option gives it.
const DEFAULT_INDEX: u32 = 0x0180_0100;

// The window where no option gives it.
const DEFAULT_LOCATION: &str = "760-:940-";

// The variant of a lock where no option gives it.
const DEFAULT_VARIANT: &str = "generated";

// The mask of the PCRs where no option gives them: 0 to 5, 7, and 11 to 15.
const DEFAULT_PCRS: u32 = 0xf8bf;

// How many clients there may be, and how many beside a broker.
const CLIENT_LIMIT: u32 = 16;

const BROKER_LIMIT: u32 = 15;

// The banks where no option gives them.
const ALL_BANKS: Banks = Banks {
    sha1: true,
    sha256: true,
    sha384: true,
    sha512: true,
};

// The folders of components where no option gives them (systemd.pcrlock(5)).
static DEFAULT_FOLDERS: [&str; 5] = [
    "/etc/pcrlock.d",
    "/run/pcrlock.d",
    "/var/lib/pcrlock.d",
    "/usr/local/lib/pcrlock.d",
    "/usr/lib/pcrlock.d",
];

/// The folder and the variant of the two files that a lock of the firmware makes.
#[derive(Drop)]
pub(crate) struct MadeFiles {
    pub folder: Name,
    pub variant: Name,
}

/// A path that has to be given.
pub(crate) fn path(alloc: Global, options: &Options<'_>, name: &str) -> Result<Name, WordsError>
    ensures { Gives result (path_in name.now options.now) }
{
    match options.value(name) {
        Some(value) => read_path(alloc, value),
        None => Err(WordsError::BadWords),
    }
}

// A path that may be left out.
fn optional_path(
    alloc: Global,
    options: &Options<'_>,
    name: &str,
) -> Result<Option<Name>, WordsError>
    ensures { Gives result (optional_path_in name.now options.now) }
{
    match options.value(name) {
        Some(value) => Ok(Some(read_path(alloc, value)?)),
        None => Ok(None),
    }
}

/// The firmware log's path, where it is given.
pub(crate) fn firmware_log(alloc: Global, options: &Options<'_>) -> Result<Option<Name>, WordsError>
    ensures { Gives result (firmware_log_in options.now) }
{
    optional_path(alloc, options, "firmware-log")
}

/// The userspace log's path, where it is given.
pub(crate) fn userspace_log(
    alloc: Global,
    options: &Options<'_>,
) -> Result<Option<Name>, WordsError>
    ensures { Gives result (userspace_log_in options.now) }
{
    optional_path(alloc, options, "userspace-log")
}

/// The folders of components, or their defaults.
pub(crate) fn components(alloc: Global, options: &Options<'_>) -> Result<List<Name>, WordsError>
    ensures { Gives result (components_in options.now) }
{
    match options.value("components") {
        Some(value) => read_folders(alloc, value),
        None => Ok(names(alloc, DEFAULT_FOLDERS.as_slice())?),
    }
}

/// The window, or its default.
pub(crate) fn location(alloc: Global, options: &Options<'_>) -> Result<Window, WordsError>
    ensures { Gives result (location_in options.now) }
{
    match options.value("location") {
        Some(value) => read_location(alloc, value),
        None => read_location(alloc, DEFAULT_LOCATION),
    }
}

/// The mask of the asked PCRs, or its default.
pub(crate) fn pcrs(options: &Options<'_>) -> Result<u32, WordsError>
    ensures { Gives result (pcrs_in options.now) }
{
    match options.value("pcr") {
        Some(value) => read_pcr_mask(value.as_bytes()).ok_or(WordsError::BadWords),
        None => Ok(DEFAULT_PCRS),
    }
}

/// The number of a PCR, which has to be given.
pub(crate) fn pcr(options: &Options<'_>) -> Result<u8, WordsError>
    ensures { Gives result (pcr_in options.now) }
{
    match options.value("pcr") {
        Some(value) => read_pcr(value.as_bytes()).ok_or(WordsError::BadWords),
        None => Err(WordsError::BadWords),
    }
}

/// The bank, or SHA-256.
pub(crate) fn bank(options: &Options<'_>) -> Result<Bank, WordsError>
    ensures { Gives result (bank_in options.now) }
{
    match options.value("bank") {
        Some(value) => read_bank(value.as_bytes()).ok_or(WordsError::BadWords),
        None => Ok(Bank::Sha256),
    }
}

/// The banks, or all of them.
pub(crate) fn banks(options: &Options<'_>) -> Result<Banks, WordsError>
    ensures { Gives result (banks_in options.now) }
{
    match options.value("banks") {
        Some(value) => read_banks(value.as_bytes()).ok_or(WordsError::BadWords),
        None => Ok(ALL_BANKS),
    }
}

/// The handle of a script's NV index, or its default.
pub(crate) fn index(options: &Options<'_>) -> Result<u32, WordsError>
    ensures { Gives result (index_in options.now) }
{
    match options.value("index") {
        Some(value) => read_index(value).ok_or(WordsError::BadWords),
        None => Ok(DEFAULT_INDEX),
    }
}

/// The handle of a policy's NV index, where one is given.
pub(crate) fn optional_index(options: &Options<'_>) -> Result<Option<u32>, WordsError>
    ensures { Gives result (optional_index_in options.now) }
{
    match options.value("index") {
        Some(value) => Ok(Some(read_index(value).ok_or(WordsError::BadWords)?)),
        None => Ok(None),
    }
}

/// The pin, where one is given.
pub(crate) fn pin(options: &Options<'_>) -> Result<Option<[u8; 32]>, WordsError>
    ensures { Gives result (pin_in options.now) }
{
    match options.value("pin") {
        Some(value) => Ok(Some(read_pin(value.as_bytes()).ok_or(WordsError::BadWords)?)),
        None => Ok(None),
    }
}

/// The key, where one is given.
pub(crate) fn key(alloc: Global, options: &Options<'_>) -> Result<Option<Small>, WordsError>
    ensures { Gives result (key_in options.now) }
{
    match options.value("key") {
        Some(value) => Ok(Some(read_key(alloc, value)?)),
        None => Ok(None),
    }
}

/// The number of the PCR to whose value an object is bound, where one is given.
pub(crate) fn literal(options: &Options<'_>) -> Result<Option<u8>, WordsError>
    ensures { Gives result (literal_in options.now) }
{
    match options.value("literal") {
        Some(value) => Ok(Some(read_pcr(value.as_bytes()).ok_or(WordsError::BadWords)?)),
        None => Ok(None),
    }
}

/// The bank of such a value, or SHA-256. Without the value no bank may be given.
pub(crate) fn literal_bank(options: &Options<'_>, literal: Option<u8>) -> Result<Bank, WordsError>
    ensures { Gives result (literal_bank_in literal options.now) }
{
    if literal.is_none() && options.has("bank") {
        return Err(WordsError::BadWords);
    }
    bank(options)
}

/// The locality of a start, where one is given.
pub(crate) fn optional_locality(options: &Options<'_>) -> Result<Option<u8>, WordsError>
    ensures { Gives result (optional_locality_in options.now) }
{
    match options.value("locality") {
        Some(value) => Ok(Some(read_locality(value).ok_or(WordsError::BadWords)?)),
        None => Ok(None),
    }
}

/// The locality of proofs, or 0.
pub(crate) fn locality(options: &Options<'_>) -> Result<u8, WordsError>
    ensures { Gives result (locality_in options.now) }
{
    match options.value("locality") {
        Some(value) => read_locality(value).ok_or(WordsError::BadWords),
        None => Ok(0),
    }
}

// How many clients there may be. A broker is one more.
fn client_limit(broker: bool) -> u32
    ensures { result ≡ client_limit broker }
{
    if broker { BROKER_LIMIT } else { CLIENT_LIMIT }
}

/// The number of clients, which has to be given, without a broker between or with one.
pub(crate) fn clients(options: &Options<'_>, broker: bool) -> Result<u32, WordsError>
    ensures { Gives result (clients_in (client_limit broker) options.now) }
{
    match options.value("clients") {
        Some(value) => read_clients(value, client_limit(broker)).ok_or(WordsError::BadWords),
        None => Err(WordsError::BadWords),
    }
}

/// The number of a machine that is made, which has to be given.
pub(crate) fn number(options: &Options<'_>) -> Result<u32, WordsError>
    ensures { Gives result (number_in options.now) }
{
    match options.value("number") {
        Some(value) => read_machine(value).ok_or(WordsError::BadWords),
        None => Err(WordsError::BadWords),
    }
}

// The variant of a lock, or its default.
fn variant(alloc: Global, options: &Options<'_>) -> Result<Name, WordsError>
    ensures { Gives result (variant_in options.now) }
{
    match options.value("variant") {
        Some(value) => read_variant(alloc, value),
        None => Ok(Name::from_text(alloc, DEFAULT_VARIANT)?),
    }
}

/// The bytes of --text or of --hex, of which exactly one is given.
pub(crate) fn extended(
    alloc: Global,
    text: Option<&str>,
    digits: Option<&str>,
) -> Result<List<u8>, WordsError>
    ensures { Gives result (extended_bytes (option_copied text.entry) (option_copied digits.entry)) }
{
    match (text, digits) {
        (Some(text), None) => Ok(List::from_vec(text.as_bytes().to_vec(alloc)?)),
        (None, Some(digits)) => read_hex(alloc, digits),
        _ => Err(WordsError::BadWords),
    }
}

/// The policy path in force where no option gives it: the script's, or the default.
pub(crate) fn standing_policy(alloc: Global, script_policy: Option<&Name>) -> Result<Name, Memory>
    ensures { IfOk result (λ policy. policy ≡ standing_policy (option_copied script_policy.entry)) }
{
    match script_policy {
        Some(policy) => policy.copy(alloc),
        None => Name::from_text(alloc, DEFAULT_POLICY),
    }
}

/// The policy path in force: that of --policy, which no line of a script has, or else the one that stands.
pub(crate) fn policy(
    alloc: Global,
    options: &Options<'_>,
    script_policy: Option<&Name>,
) -> Result<Name, WordsError>
    ensures { Gives result (policy_in (option_copied script_policy.entry) options.now) }
{
    match options.value("policy") {
        Some(value) => read_path(alloc, value),
        None => Ok(standing_policy(alloc, script_policy)?),
    }
}

/// A path that has to be given, and is not the policy path in force.
pub(crate) fn path_beside(
    alloc: Global,
    options: &Options<'_>,
    name: &str,
    policy: &Name,
) -> Result<Name, WordsError>
    ensures { Gives result (path_beside policy.now name.now options.now) }
{
    let path = path(alloc, options, name)?;
    if path.text() == policy.text() {
        return Err(WordsError::BadWords);
    }
    Ok(path)
}

// Whether one of the two files of a lock stands at the path.
fn makes_at(
    alloc: Global,
    kind: FirmwareKind,
    made: &MadeFiles,
    path: &Name,
) -> Result<bool, Memory>
    ensures { IfOk result (λ stands. stands ≡ makes_at kind made.now path.now) }
{
    let early = early_path(alloc, kind, &made.folder, &made.variant)?;
    let late = late_path(alloc, kind, &made.folder, &made.variant)?;
    Ok(early.text() == path.text() || late.text() == path.text())
}

/// The two files of a lock, neither of which is the policy file.
pub(crate) fn made_beside(
    alloc: Global,
    options: &Options<'_>,
    kind: FirmwareKind,
    policy: &Name,
) -> Result<MadeFiles, WordsError>
    ensures { Gives result (made_beside policy.now kind options.now) }
{
    let folder = path(alloc, options, "folder")?;
    let variant = variant(alloc, options)?;
    let made = MadeFiles { folder, variant };
    if makes_at(alloc, kind, &made, policy)? {
        return Err(WordsError::BadWords);
    }
    Ok(made)
}
