//! State files that are written as text: the one text of a state, the two versions, each fault and
//! each broken rule, and what a TPM leaves of its file.
use hash_bank::{Bank, Banks, Digest};
use nv_index::{CONTENT_SIZE, DEFINED_ATTRIBUTES, NvPublic};
use pl_base::{List, MemFiles, Name, Small};
use policy_digest::pin_policy;
use std::alloc::Global;
use std::test::Fail;
use tpm_device::Tpm;
use tpm_model::{Command, State, StateRule};
use tpm_state::{DecodeError, FileTpm, decode, encode};

/// The four banks.
const ALL_BANKS: Banks = Banks {
    sha1: true,
    sha256: true,
    sha384: true,
    sha512: true,
};

/// Puts the bytes of a part of a field, hexadecimal digits or `HEX*N` for N times the same.
fn put_part(alloc: Global, bytes: &mut Vec<u8>, part: &str) -> Result<(), Fail> {
    let (digits, count) = match part.split_once('*') {
        Some((digits, count)) => (digits, count.parse::<u32>()?),
        None => (part, 1),
    };
    let once = hex::decode(alloc, digits)?;
    for _ in 0..count {
        bytes.extend_from_slice(once.as_slice())?;
    }
    Ok(())
}

/// Bytes that a text spells, and where each of their fields begins.
#[derive(Drop)]
struct Spelled {
    bytes: Vec<u8>,
    starts: Vec<usize>,
}

/// Puts the fields of a line, with blanks between, a `+` between the parts of a field and a note behind
/// `#`.
fn put_line(alloc: Global, spelled: &mut Spelled, line: &str) -> Result<(), Fail> {
    let fields = match line.split_once('#') {
        Some((fields, _)) => fields,
        None => line,
    };
    for field in fields.split(' ') {
        if field.is_empty() {
            continue;
        }
        spelled.starts.push(spelled.bytes.len())?;
        for part in field.split('+') {
            put_part(alloc, &mut spelled.bytes, part)?;
        }
    }
    Ok(())
}

/// What the lines of a text spell.
fn fields_of(alloc: Global, text: &str) -> Result<Spelled, Fail> {
    let mut spelled = Spelled {
        bytes: Vec::new(alloc),
        starts: Vec::new(alloc),
    };
    for line in text.lines() {
        put_line(alloc, &mut spelled, line)?;
    }
    Ok(spelled)
}

/// The bytes of two texts, one after the other.
fn joined(alloc: Global, front: &str, back: &str) -> Result<Vec<u8>, Fail> {
    let mut bytes = fields_of(alloc, front)?.bytes;
    bytes.extend_from_slice(fields_of(alloc, back)?.bytes.as_slice())?;
    Ok(bytes)
}

/// Versions 1 and 2, with the values of four banks that were just started.
const HEAD_ONE: &str = "\
504c54504d000001 0f
00*340+ff*120+00*20 00*544+ff*192+00*32 00*816+ff*288+00*48 00*1088+ff*384+00*64
";

const HEAD_TWO: &str = "\
504c54504d000002 0f
00*340+ff*120+00*20 00*544+ff*192+00*32 00*816+ff*288+00*48 00*1088+ff*384+00*64
";

/// What stands behind the values in version 1 and in version 2, and the sizes of both files.
struct Row {
    one: &'static str,
    one_size: usize,
    two: &'static str,
    two_size: usize,
}

/// A fresh TPM; one with an object; with an index, unwritten and written; with an object, an index and a
/// session that went through all three policy commands.
const ROWS: [Row; 5] = [
    Row {
        one: "00*16 00 00 00",
        one_size: 3964,
        two: "00*16 00 00 00",
        two_size: 3964,
    },
    Row {
        one: "00*12 00000001 00 00 01 81000000 b69a28b0dc5cbfd43a39f791530222f3b6908411eb57918d73908bac98c38786 02 00ff",
        one_size: 4003,
        two: "00*12 00000001 00 00 01 81000000 0020 b69a28b0dc5cbfd43a39f791530222f3b6908411eb57918d73908bac98c38786 02 00ff",
        two_size: 4005,
    },
    Row {
        one: "00*16 00 01 01800100 02060008 bd68504317b596eb417e6495afbeaf3285c2235a544f6620e803155b32de49de 0022 00",
        one_size: 4006,
        two: "00*16 00 01 01800100 02060008 bd68504317b596eb417e6495afbeaf3285c2235a544f6620e803155b32de49de 0022 00",
        two_size: 4006,
    },
    Row {
        one: "00*8 00000001 00*4 00 01 01800100 22060008 bd68504317b596eb417e6495afbeaf3285c2235a544f6620e803155b32de49de 0022 00000001 00*34 00",
        one_size: 4044,
        two: "00*8 00000001 00*4 00 01 01800100 22060008 bd68504317b596eb417e6495afbeaf3285c2235a544f6620e803155b32de49de 0022 00000001 00*34 00",
        two_size: 4044,
    },
    Row {
        one: "
00000005 00000001 00000007 00000001 01
03000000 5e0726450ac9e15c3f077dd0e65fe17c69fda0a88ccb709d675213cd1a18ea39 01 00000004 03
01 000b 000800 8c3fe6aa09a8f379b4ef4e0a8fa6595d273a44bd9f32e06c2f1784db88935e15
02 02 ba7816bf8f01cfea414140de5dae2223b00361a396177a9cb410ff61f20015ad b69a28b0dc5cbfd43a39f791530222f3b6908411eb57918d73908bac98c38786
03 9c2f30adc84f4f0aaeb9c8a0580d9d133d1cc3208058fd0a37c43b55bbabf8d2 64e4ff2980898d7fffb77a795eb1a59c162575d627f77508f776d9980f92fa47 00000006
01 01800100 22060008 bd68504317b596eb417e6495afbeaf3285c2235a544f6620e803155b32de49de 0022 00000007 00*34
01 81000000 b69a28b0dc5cbfd43a39f791530222f3b6908411eb57918d73908bac98c38786 02 00ff",
        one_size: 4298,
        two: "
00000005 00000001 00000007 00000001 01
03000000 000b 5e0726450ac9e15c3f077dd0e65fe17c69fda0a88ccb709d675213cd1a18ea39 01 00000004 03
01 000b 000800 8c3fe6aa09a8f379b4ef4e0a8fa6595d273a44bd9f32e06c2f1784db88935e15
02 02 ba7816bf8f01cfea414140de5dae2223b00361a396177a9cb410ff61f20015ad b69a28b0dc5cbfd43a39f791530222f3b6908411eb57918d73908bac98c38786
03 9c2f30adc84f4f0aaeb9c8a0580d9d133d1cc3208058fd0a37c43b55bbabf8d2 64e4ff2980898d7fffb77a795eb1a59c162575d627f77508f776d9980f92fa47 00000006
01 01800100 22060008 bd68504317b596eb417e6495afbeaf3285c2235a544f6620e803155b32de49de 0022 00000007 00*34
01 81000000 0020 b69a28b0dc5cbfd43a39f791530222f3b6908411eb57918d73908bac98c38786 02 00ff",
        two_size: 4302,
    },
];

#[test]
fn states_have_one_text_in_each_version(rt: HostRuntime) -> Result<(), Fail> {
    let alloc = rt.alloc();
    let fresh = encode(alloc, &State::fresh(alloc, ALL_BANKS))?;
    assert_eq!(rt;
        fresh.as_slice(),
        joined(alloc, HEAD_TWO, ROWS[0].two)?.as_slice()
    );
    for row in &ROWS {
        let one = joined(alloc, HEAD_ONE, row.one)?;
        let two = joined(alloc, HEAD_TWO, row.two)?;
        assert_eq!(rt; one.len(), row.one_size);
        assert_eq!(rt; two.len(), row.two_size);
        let first = decode(alloc, one.as_slice())?;
        assert_eq!(rt; encode(alloc, &first)?.as_slice(), two.as_slice());
        let second = decode(alloc, two.as_slice())?;
        assert_eq!(rt; encode(alloc, &second)?.as_slice(), two.as_slice());
    }
    Ok(())
}

/// A state of one bank: a session of SHA-256 that went through all three policy commands, one of SHA-384
/// that looked at PCR 11, a written index and an unwritten one, an object for each session.
const STATE: &str = "\
504c54504d000002 # magic
02 # the bank of SHA-256 alone
00*352+589f9ffed4c477966bfb8d41f37895b08c69047df8f911d6f3b57fbe08faee8d+00*160+ff*192+00*32 # its values
00000001 00000003 00000002 00000002 # counters
02 # sessions
03000000 000b 5e0726450ac9e15c3f077dd0e65fe17c69fda0a88ccb709d675213cd1a18ea39 01 00000001 03
01 000b 000800 8c3fe6aa09a8f379b4ef4e0a8fa6595d273a44bd9f32e06c2f1784db88935e15
02 02 ba7816bf8f01cfea414140de5dae2223b00361a396177a9cb410ff61f20015ad b69a28b0dc5cbfd43a39f791530222f3b6908411eb57918d73908bac98c38786
03 9c2f30adc84f4f0aaeb9c8a0580d9d133d1cc3208058fd0a37c43b55bbabf8d2 64e4ff2980898d7fffb77a795eb1a59c162575d627f77508f776d9980f92fa47 00000001
03000002 000c 0e273b15ed302d9ea8c3d826850eb493060dd8cca0556ec39005ab6f9a239987e1009e9653ef2b9fecaddc12ddadb8e8 01 00000001 01
01 000b 000800 a487743618ebef562eb4bea673da8f32c26d9231b946b164bbb4edd95ca085b3369bcced58fe033fb7791fe06748b962
02 # indices
01800100 22060008 bd68504317b596eb417e6495afbeaf3285c2235a544f6620e803155b32de49de 0022
00000001 000b+64e4ff2980898d7fffb77a795eb1a59c162575d627f77508f776d9980f92fa47
01800101 02060008 bd68504317b596eb417e6495afbeaf3285c2235a544f6620e803155b32de49de 0022
02 # objects
81000000 0020 b69a28b0dc5cbfd43a39f791530222f3b6908411eb57918d73908bac98c38786 02 00ff
81000001 0030 0e273b15ed302d9ea8c3d826850eb493060dd8cca0556ec39005ab6f9a239987e1009e9653ef2b9fecaddc12ddadb8e8 01 a5
";

/// Why bytes are no state, or None where they are one.
fn fault(alloc: Global, bytes: &[u8]) -> Option<DecodeError> {
    decode(alloc, bytes).err()
}

/// Each cut before a field is named by the field's place.
#[test]
fn a_cut_file_is_no_state(rt: HostRuntime) -> Result<(), Fail> {
    let alloc = rt.alloc();
    let whole = fields_of(alloc, STATE)?;
    assert_eq!(rt; fault(alloc, whole.bytes.as_slice()), None);
    for start in whole.starts.iter() {
        let cut = whole.bytes.as_slice().get(..*start).ok_or("no place")?;
        let place = u32::try_from(*start)?;
        assert_eq!(rt; fault(alloc, cut), Some(DecodeError::Malformed(place)));
    }
    Ok(())
}

/// Bytes of which some, from a place on, were replaced by those of a text.
fn changed(
    alloc: Global,
    bytes: &[u8],
    place: usize,
    count: usize,
    text: &str,
) -> Result<Vec<u8>, Fail> {
    let mut changed = Vec::new(alloc);
    for byte in bytes.iter().take(place) {
        changed.push(*byte)?;
    }
    put_part(alloc, &mut changed, text)?;
    for byte in bytes.iter().skip(place.saturating_add(count)) {
        changed.push(*byte)?;
    }
    Ok(changed)
}

/// The place of a field of the state, how many bytes from there on are replaced, by which bytes, and the
/// place that is named.
const FAULTS: [(usize, usize, &str, u32); 25] = [
    (0, 1346, "504c54504d", 0),
    (0, 1, "51", 0),
    (7, 1, "00", 0),
    (7, 1, "03", 0),
    (793, 1, "41", 793),
    (798, 2, "0004", 798),
    (798, 2, "000d", 798),
    (832, 1, "02", 832),
    (837, 1, "81", 837),
    (838, 1, "00", 838),
    (838, 1, "04", 838),
    (839, 2, "000e", 839),
    (877, 1, "01", 877),
    (877, 1, "09", 877),
    (1015, 2, "000b", 1049),
    (1125, 1, "11", 1125),
    (1248, 1, "41", 1248),
    (1253, 2, "0000", 1253),
    (1253, 2, "0021", 1253),
    (1253, 2, "0030", 1303),
    (1287, 1, "81", 1287),
    (1287, 1, "ff", 1287),
    (1344, 1, "00", 1345),
    (1344, 1, "02", 1345),
    (1345, 1, "a500", 1346),
];

#[test]
fn a_field_with_no_allowed_value_is_named(rt: HostRuntime) -> Result<(), Fail> {
    let alloc = rt.alloc();
    let state = fields_of(alloc, STATE)?.bytes;
    for (place, count, text, named) in FAULTS {
        let bytes = changed(alloc, state.as_slice(), place, count, text)?;
        assert_eq!(rt;
            fault(alloc, bytes.as_slice()),
            Some(DecodeError::Malformed(named)),
            "{text} at {place}"
        );
    }
    Ok(())
}

/// A change of the state that breaks a rule, from the last rule to the first.
const BROKEN: [(usize, usize, &str, StateRule); 20] = [
    (1344, 2, "00", StateRule::Secret),
    (1293, 1, "00", StateRule::ObjectOrder),
    (1293, 1, "02", StateRule::ObjectOrder),
    (1246, 2, "0021", StateRule::IndexAttributes),
    (1213, 1, "09", StateRule::IndexAttributes),
    (1209, 1, "00", StateRule::IndexOrder),
    (1206, 1, "02", StateRule::IndexOrder),
    (1168, 4, "00000003", StateRule::IndexOrder),
    (1168, 4, "00000000", StateRule::IndexOrder),
    (1007, 4, "00000000", StateRule::NvNow),
    (1007, 4, "00000003", StateRule::NvNow),
    (1174, 1, "ff", StateRule::NvNow),
    (878, 32, "00*32", StateRule::NvNow),
    (361, 1, "00", StateRule::PcrNow),
    (1066, 4, "00000002", StateRule::Noted),
    (910, 32, "00*32", StateRule::OrMember),
    (1064, 1, "00", StateRule::Fold),
    (1014, 1, "00", StateRule::SessionOrder),
    (781, 4, "01000001", StateRule::Counters),
    (8, 1, "12", StateRule::Banks),
];

/// Each by itself, and each with all that stand before it.
#[test]
fn the_first_broken_rule_is_named(rt: HostRuntime) -> Result<(), Fail> {
    let alloc = rt.alloc();
    let state = fields_of(alloc, STATE)?.bytes;
    let mut worse = Vec::from_slice(alloc, state.as_slice())?;
    for (place, count, text, rule) in BROKEN {
        let broken = Some(DecodeError::BadRule(rule));
        let bytes = changed(alloc, state.as_slice(), place, count, text)?;
        assert_eq!(rt; fault(alloc, bytes.as_slice()), broken, "{text} at {place}");
        worse = changed(alloc, worse.as_slice(), place, count, text)?;
        assert_eq!(rt;
            fault(alloc, worse.as_slice()),
            broken,
            "{text} at {place} too"
        );
    }
    Ok(())
}

/// What a command leaves of the file that the TPM is kept in, which isn't there where it has no bytes.
fn left(alloc: Global, file: &[u8], command: &Command) -> Result<Vec<u8>, Fail> {
    let mut files = MemFiles::new(alloc, List::new(alloc));
    if !file.is_empty() {
        files.put("s", file)?;
    }
    let mut tpm = FileTpm::new(files, Name::from_text(alloc, "s")?);
    if tpm.begin(alloc).is_err() || !tpm.is_ready() {
        return Err("not ready".into());
    }
    if tpm.execute(alloc, command).is_err() {
        return Err("no answer".into());
    }
    let files = tpm.into_files();
    Ok(Vec::from_slice(alloc, files.get("s").unwrap_or(&[]))?)
}

const READ: Command = Command::PcrRead {
    bank: Bank::Sha1,
    pcr: 0,
};

const START: Command = Command::StartSession { hash: Bank::Sha256 };

const FLUSH: Command = Command::FlushSession {
    session: 0x0300_0000,
};

const RESTART: Command = Command::Restart {
    locality: 0,
    banks: ALL_BANKS,
};

const PIN: [u8; 32] = [1; 32];

const INDEX: u32 = 0x0180_0100;

/// The definition of an index that is written with the pin.
fn definition() -> Command {
    Command::NvDefine {
        public: NvPublic {
            handle: INDEX,
            attributes: DEFINED_ATTRIBUTES,
            policy: pin_policy(&PIN),
            size: CONTENT_SIZE,
        },
    }
}

/// A write of it.
fn write() -> Result<Command, Fail> {
    Ok(Command::NvWrite {
        index: INDEX,
        pin: PIN,
        value: Small::from_slice(&[0; 34]).ok_or("34 bytes fit")?,
    })
}

/// An object of two bytes.
fn seal() -> Result<Command, Fail> {
    Ok(Command::Seal {
        policy: Digest::zeros(Bank::Sha256),
        secret: Small::from_slice(&[0x00, 0xFF]).ok_or("two bytes fit")?,
    })
}

/// The size of the file after each command; nothing is written while the state is that of a fresh TPM.
#[test]
fn a_file_grows_and_shrinks_with_the_state(rt: HostRuntime) -> Result<(), Fail> {
    let alloc = rt.alloc();
    let evict = Command::Evict {
        handle: 0x8100_0000,
    };
    let undefine = Command::NvUndefine { index: INDEX };
    let rows = [
        (READ, 0),
        (RESTART, 0),
        (FLUSH, 0),
        (seal()?, 4005),
        (evict, 3964),
        (definition(), 4006),
        (write()?, 4044),
        (undefine, 3964),
        (START, 4004),
        (FLUSH, 3964),
        (START, 4004),
        (RESTART, 3964),
    ];
    let mut file = Vec::new(alloc);
    for (command, size) in &rows {
        file = left(alloc, file.as_slice(), command)?;
        assert_eq!(rt; file.len(), *size, "{command:?}");
    }
    Ok(())
}
