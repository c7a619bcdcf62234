ghost use Rattle.std.specs.Prelude.{◌≡◌, IfOk, map, false};
ghost use Rattle.clap.specs.Words.{app_of, rule_of};
ghost use Rattle.pcrlock_words.specs.Parser.{entry_of, parser_for, rule_for};
ghost use Rattle.pcrlock_words.specs.Commands.{command_named, is_named, may_stand, name_of, options_of, stands, table};

use Entry::{Flag, Free, Needed};
use clap::{Arg, ArgAction};
use std::alloc::{AllocError, Global};

/// A command of the program, without its options.
#[derive(Clone, Copy, Debug, PartialEq, Eq)]
pub(crate) enum Command {
    Script,
    Log,
    Cel,
    ListComponents,
    Predict,
    MakePolicy,
    RemovePolicy,
    Enroll,
    Unseal,
    TpmBoot,
    TpmExtend,
    TpmExec,
    Race,
    Gen,
    LockFirmwareCode,
    LockFirmwareConfig,
    UnlockFirmwareCode,
    UnlockFirmwareConfig,
    LockRaw,
    Broker,
    Prove,
    CheckProof,
}

// The name of an option, which has to be given or may be left out, or of a flag. Each option has a value,
// and no flag has one.
#[derive(Clone, Copy)]
enum Entry {
    Needed(&'static str),
    Free(&'static str),
    Flag(&'static str),
}

static SCRIPT: [Entry; 3] = [Needed("file"), Free("policy"), Free("index")];

static LOG: [Entry; 4] = [
    Free("firmware-log"),
    Free("userspace-log"),
    Free("components"),
    Free("bank"),
];

static CEL: [Entry; 2] = [Free("firmware-log"), Free("userspace-log")];

static LIST_COMPONENTS: [Entry; 1] = [Free("components")];

static PREDICT: [Entry; 7] = [
    Free("firmware-log"),
    Free("userspace-log"),
    Free("components"),
    Free("location"),
    Free("pcr"),
    Free("bank"),
    Flag("joint"),
];

static MAKE_POLICY: [Entry; 11] = [
    Free("firmware-log"),
    Free("userspace-log"),
    Free("components"),
    Free("location"),
    Free("pcr"),
    Free("bank"),
    Flag("joint"),
    Free("policy"),
    Free("index"),
    Free("pin"),
    Flag("force"),
];

static REMOVE_POLICY: [Entry; 1] = [Free("policy")];

static ENROLL: [Entry; 5] = [
    Needed("token"),
    Free("policy"),
    Free("key"),
    Free("literal"),
    Free("bank"),
];

static UNSEAL: [Entry; 2] = [Needed("token"), Free("policy")];

static TPM_BOOT: [Entry; 4] = [
    Free("firmware-log"),
    Free("userspace-log"),
    Free("locality"),
    Free("banks"),
];

static TPM_EXTEND: [Entry; 3] = [Needed("pcr"), Free("text"), Free("hex")];

static TPM_EXEC: [Entry; 1] = [Needed("commands")];

static RACE: [Entry; 5] = [
    Needed("events"),
    Needed("token"),
    Needed("clients"),
    Free("policy"),
    Flag("broker"),
];

static GEN: [Entry; 1] = [Needed("number")];

static LOCK_FIRMWARE: [Entry; 3] = [Free("firmware-log"), Needed("folder"), Free("variant")];

static UNLOCK_FIRMWARE: [Entry; 2] = [Needed("folder"), Free("variant")];

static LOCK_RAW: [Entry; 3] = [Needed("file"), Needed("pcr"), Needed("output")];

static BROKER: [Entry; 2] = [Needed("commands"), Needed("clients")];

static PROVE: [Entry; 7] = [
    Needed("output"),
    Free("components"),
    Free("location"),
    Free("pcr"),
    Free("bank"),
    Free("locality"),
    Flag("joint"),
];

static CHECK_PROOF: [Entry; 3] = [Needed("proof"), Free("components"), Free("location")];

impl Entry {
    // Whether the option stands with its command, inside a script or outside. Inside there are none of
    // those that the command `script` gives for each of its lines.
    fn stands(self, within: bool) -> bool
        ensures { result ≡ stands within (entry_of self) }
    {
        let name = match self {
            Needed(name) | Free(name) | Flag(name) => name,
        };
        !within || (name != "policy" && name != "index")
    }

    // The argument by which the parser knows the option.
    fn arg<'a>(self, alloc: Global) -> Arg<'a>
        ensures rule { rule_of result ≡ rule_for (entry_of self) }
        ensures local { result.global ≡ false }
    {
        match self {
            Needed(name) => Arg::new(alloc, name).long(name).required(true),
            Free(name) => Arg::new(alloc, name).long(name),
            Flag(name) => Arg::new(alloc, name).long(name).action(ArgAction::SetTrue),
        }
    }
}

impl Command {
    // Every command.
    const ALL: [Command; 22] = [
        Command::Script,
        Command::Log,
        Command::Cel,
        Command::ListComponents,
        Command::Predict,
        Command::MakePolicy,
        Command::RemovePolicy,
        Command::Enroll,
        Command::Unseal,
        Command::TpmBoot,
        Command::TpmExtend,
        Command::TpmExec,
        Command::Race,
        Command::Gen,
        Command::LockFirmwareCode,
        Command::LockFirmwareConfig,
        Command::UnlockFirmwareCode,
        Command::UnlockFirmwareConfig,
        Command::LockRaw,
        Command::Broker,
        Command::Prove,
        Command::CheckProof,
    ];

    // The word that names the command.
    fn name(self) -> &'static str
        ensures { result.now ≡ name_of self }
    {
        match self {
            Command::Script => "script",
            Command::Log => "log",
            Command::Cel => "cel",
            Command::ListComponents => "list-components",
            Command::Predict => "predict",
            Command::MakePolicy => "make-policy",
            Command::RemovePolicy => "remove-policy",
            Command::Enroll => "enroll",
            Command::Unseal => "unseal",
            Command::TpmBoot => "tpm-boot",
            Command::TpmExtend => "tpm-extend",
            Command::TpmExec => "tpm-exec",
            Command::Race => "race",
            Command::Gen => "gen",
            Command::LockFirmwareCode => "lock-firmware-code",
            Command::LockFirmwareConfig => "lock-firmware-config",
            Command::UnlockFirmwareCode => "unlock-firmware-code",
            Command::UnlockFirmwareConfig => "unlock-firmware-config",
            Command::LockRaw => "lock-raw",
            Command::Broker => "broker",
            Command::Prove => "prove",
            Command::CheckProof => "check-proof",
        }
    }

    // Whether the command may stand there: inside a script all but `script`, and outside each.
    fn may_stand(self, within: bool) -> bool
        ensures { result ≡ may_stand within self }
    {
        match self {
            Command::Script => !within,
            _ => true,
        }
    }

    // Whether the name is the command's, and the command may stand there.
    fn is_named(self, within: bool, name: &str) -> bool
        ensures { result ≡ is_named within name.now self }
    {
        self.may_stand(within) && self.name() == name
    }

    // The command of a name, inside a script or outside.
    pub(crate) fn from_name(within: bool, name: &str) -> Option<Command>
        ensures { result ≡ command_named within name.now }
    {
        let mut commands = Command::ALL.iter().copied();
        commands.find(|command| command.is_named(within, name))
    }

    // The table of the command's options.
    fn options(self) -> &'static [Entry]
        ensures { map entry_of result.now ≡ table self }
    {
        match self {
            Command::Script => SCRIPT.as_slice(),
            Command::Log => LOG.as_slice(),
            Command::Cel => CEL.as_slice(),
            Command::ListComponents => LIST_COMPONENTS.as_slice(),
            Command::Predict => PREDICT.as_slice(),
            Command::MakePolicy => MAKE_POLICY.as_slice(),
            Command::RemovePolicy => REMOVE_POLICY.as_slice(),
            Command::Enroll => ENROLL.as_slice(),
            Command::Unseal => UNSEAL.as_slice(),
            Command::TpmBoot => TPM_BOOT.as_slice(),
            Command::TpmExtend => TPM_EXTEND.as_slice(),
            Command::TpmExec => TPM_EXEC.as_slice(),
            Command::Race => RACE.as_slice(),
            Command::Gen => GEN.as_slice(),
            Command::LockFirmwareCode | Command::LockFirmwareConfig => LOCK_FIRMWARE.as_slice(),
            Command::UnlockFirmwareCode | Command::UnlockFirmwareConfig => {
                UNLOCK_FIRMWARE.as_slice()
            }
            Command::LockRaw => LOCK_RAW.as_slice(),
            Command::Broker => BROKER.as_slice(),
            Command::Prove => PROVE.as_slice(),
            Command::CheckProof => CHECK_PROOF.as_slice(),
        }
    }

    // The parser of the command's options, inside a script or outside. It has no flag for help.
    pub(crate) fn parser<'a>(
        self,
        alloc: Global,
        within: bool,
    ) -> Result<clap::Command<'a>, AllocError>
        ensures { IfOk result (λ parser. app_of parser ≡ parser_for (options_of within self)) }
    {
        let mut parser = clap::Command::new(alloc, "pcrlock")
            .no_binary_name(true)
            .disable_help_flag(true);
        for entry in self.options() {
            if entry.stands(within) {
                parser = parser.arg(entry.arg(alloc))?;
            }
        }
        Ok(parser)
    }
}
