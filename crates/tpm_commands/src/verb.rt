ghost use Rattle.std.specs.Prelude.{◌≡◌};
ghost use Rattle.tpm_commands.specs.Verbs.{name_of, verb_of};

/// The first word of a command's line.
#[derive(Clone, Copy, Debug, PartialEq, Eq)]
pub(crate) enum Verb {
    Restart,
    PcrExtend,
    PcrRead,
    StartSession,
    PolicyPcr,
    PolicyOr,
    PolicyAuthorizeNv,
    PolicyGetDigest,
    FlushSession,
    NvDefine,
    NvUndefine,
    NvWrite,
    NvRead,
    NvReadPublic,
    Seal,
    Evict,
    Unseal,
}

// Every verb.
const VERBS: [Verb; 17] = [
    Verb::Restart,
    Verb::PcrExtend,
    Verb::PcrRead,
    Verb::StartSession,
    Verb::PolicyPcr,
    Verb::PolicyOr,
    Verb::PolicyAuthorizeNv,
    Verb::PolicyGetDigest,
    Verb::FlushSession,
    Verb::NvDefine,
    Verb::NvUndefine,
    Verb::NvWrite,
    Verb::NvRead,
    Verb::NvReadPublic,
    Verb::Seal,
    Verb::Evict,
    Verb::Unseal,
];

// The verb as it is written.
fn name(verb: Verb) -> &'static [u8]
    ensures { result.now ≡ name_of verb }
{
    match verb {
        Verb::Restart => b"restart",
        Verb::PcrExtend => b"pcr-extend",
        Verb::PcrRead => b"pcr-read",
        Verb::StartSession => b"start-session",
        Verb::PolicyPcr => b"policy-pcr",
        Verb::PolicyOr => b"policy-or",
        Verb::PolicyAuthorizeNv => b"policy-authorize-nv",
        Verb::PolicyGetDigest => b"policy-get-digest",
        Verb::FlushSession => b"flush-session",
        Verb::NvDefine => b"nv-define",
        Verb::NvUndefine => b"nv-undefine",
        Verb::NvWrite => b"nv-write",
        Verb::NvRead => b"nv-read",
        Verb::NvReadPublic => b"nv-read-public",
        Verb::Seal => b"seal",
        Verb::Evict => b"evict",
        Verb::Unseal => b"unseal",
    }
}

/// The verb of this name.
pub(crate) fn read_verb(word: &[u8]) -> Option<Verb>
    ensures { result ≡ verb_of word.now }
{
    VERBS.iter().copied().find(|verb| name(*verb) == word)
}
