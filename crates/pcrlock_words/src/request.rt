use hash_bank::{Bank, Banks};
use pl_base::{List, Name, Small};
use predictor::Window;

/// What a list of words asks for. Each field holds the value of the option of its name, or the option's
/// default where the words don't give it; it is `None` where an option without a default isn't given.
///
/// `policy` is the policy file's path in force: inside a script the script's, else that of `--policy`.
#[derive(Debug, Drop)]
pub enum Request {
    /// Runs the lines of the script in `file`, each of them under `policy` and the NV index `index`,
    /// a handle from 01000000 to 01ffffff.
    Script {
        file: Name,
        policy: Name,
        index: u32,
    },
    /// Prints the records of both logs with the components that explain them, the PCRs in `bank` as both
    /// logs replay them and as the TPM has them. The components are those of the folders `components`, 1
    /// to 16, the first on top.
    Log {
        firmware_log: Option<Name>,
        userspace_log: Option<Name>,
        components: List<Name>,
        bank: Bank,
    },
    /// Prints the records of the firmware log and of the userspace log, each at the path given or else at
    /// its default.
    Cel {
        firmware_log: Option<Name>,
        userspace_log: Option<Name>,
    },
    /// Lists the components of the folders `components`, 1 to 16, the first on top.
    ListComponents {
        components: List<Name>,
    },
    /// Prints the values that the PCRs of the mask `pcr`, whose bit i stands for PCR i, may have in `bank`
    /// while a boot stands in the window `location`, or why no policy can protect the PCR. With `joint`
    /// it prints the values that the PCRs have together. The logs and the components are those of `log`.
    Predict {
        firmware_log: Option<Name>,
        userspace_log: Option<Name>,
        components: List<Name>,
        location: Window,
        pcr: u32,
        bank: Bank,
        joint: bool,
    },
    /// Puts the prediction of `predict` in force: it writes the policy file `policy` and the NV index `index`, a
    /// handle from 01000000 to 01ffffff, or else the script's or 01800100. Without `pin`, which allows writes of
    /// the index, the pin is drawn or the one that was sealed. With `force` it writes an unchanged table too.
    MakePolicy {
        firmware_log: Option<Name>,
        userspace_log: Option<Name>,
        components: List<Name>,
        location: Window,
        pcr: u32,
        bank: Bank,
        policy: Name,
        index: Option<u32>,
        pin: Option<[u8; 32]>,
        force: bool,
        joint: bool,
    },
    /// Takes the policy file `policy` and its NV index away.
    RemovePolicy {
        policy: Name,
    },
    /// Seals `key`, 1 to 128 bytes, or a key that is drawn, and writes the token file `token`, which isn't
    /// `policy`. With `literal` the object opens at the present value of that PCR, 0 to 23, in `bank`, and
    /// else under the policy.
    Enroll {
        token: Name,
        policy: Name,
        key: Option<Small>,
        literal: Option<u8>,
        bank: Bank,
    },
    /// Opens the object that the token file `token` names, which isn't `policy`.
    Unseal {
        token: Name,
        policy: Name,
    },
    /// Starts the TPM with `banks` and extends its PCRs by the records of both logs. The locality, 0, 3 or
    /// 4, is that of the firmware log where none is given.
    TpmBoot {
        firmware_log: Option<Name>,
        userspace_log: Option<Name>,
        locality: Option<u8>,
        banks: Banks,
    },
    /// Extends the PCR, 0 to 23, in each bank with that bank's hash of `bytes`.
    TpmExtend {
        pcr: u8,
        bytes: List<u8>,
    },
    /// Gives the TPM the commands of the file `commands`, line by line.
    TpmExec {
        commands: Name,
    },
    /// Plays the events of the file `events` among `clients` clients, 1 to 16, that open the object of the token
    /// file `token`, which isn't `policy`. With `broker` a client more stands between them and the TPM, and
    /// there are at most 15.
    Race {
        events: Name,
        token: Name,
        clients: u32,
        policy: Name,
        broker: bool,
    },
    /// Makes the machine of this number, 0 to 511, and runs its commands.
    Gen {
        number: u32,
    },
    /// Makes two component files of what the firmware measured of its code, before and behind the separators:
    /// the variant `variant` in `folder`. The variant is 1 to 200 bytes from 0x21 to 0x7E without a slash, and
    /// neither file is the policy file.
    LockFirmwareCode {
        firmware_log: Option<Name>,
        folder: Name,
        variant: Name,
    },
    /// The same of what configures the firmware's code.
    LockFirmwareConfig {
        firmware_log: Option<Name>,
        folder: Name,
        variant: Name,
    },
    /// Takes the two files of `LockFirmwareCode` out.
    UnlockFirmwareCode {
        folder: Name,
        variant: Name,
    },
    /// Takes the two files of `LockFirmwareConfig` out.
    UnlockFirmwareConfig {
        folder: Name,
        variant: Name,
    },
    /// Makes the component file `output`, which isn't the policy file, of the hashes of the bytes of `file` in
    /// the PCR, 0 to 23.
    LockRaw {
        file: Name,
        pcr: u8,
        output: Name,
    },
    /// Hands the commands of the file `commands` from `clients` clients, 1 to 16, to the TPM.
    Broker {
        commands: Name,
        clients: u32,
    },
    /// Writes the file `output`, which isn't the policy file, of proofs that a TPM that was started at
    /// `locality`, 0, 3 or 4, may come to the values that `predict` foresees.
    Prove {
        output: Name,
        components: List<Name>,
        location: Window,
        pcr: u32,
        bank: Bank,
        locality: u8,
        joint: bool,
    },
    /// Checks the proofs of the file `proof`.
    CheckProof {
        proof: Name,
        components: List<Name>,
        location: Window,
    },
}
