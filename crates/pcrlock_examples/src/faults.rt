//! A script of which each call of each object fails in turn, before and after it took effect.
use hash_bank::Banks;
use pcrlock_run::run;
use pl_base::{Fail, List, ListEntropy, MemFiles, MemSink, Memory, Name};
use std::alloc::Global;
use std::test::Fail as Failed;
use tpm_device::SoftTpm;
use tpm_model::State;

/// The banks of the TPM.
const ALL_BANKS: Banks = Banks {
    sha1: true,
    sha256: true,
    sha384: true,
    sha512: true,
};

/// A PCR is extended, a drawn key is sealed to its value and opened; the last line is refused.
const SCRIPT: &str =
    "tpm-extend --pcr 11 --text abc\nenroll --token t --literal 11\nunseal --token t\nunseal --token u\n";

/// What the script writes where nothing fails.
const OUT: &str =
    "= 0\nenrolled 81000000\n= 0\nkey 0707070707070707070707070707070707070707070707070707070707070707\n= 0\n= 7\n";

const ERR: &str = "no token: u\n";

/// The object whose call fails.
#[derive(Clone, Copy, PartialEq, Eq)]
enum Object {
    Files,
    Tpm,
    Entropy,
    Out,
    Err,
}

/// The object, and for each of its calls the line that its failure puts on standard error.
struct Row {
    object: Object,
    lines: &'static [&'static str],
}

const ROWS: [Row; 4] = [
    Row {
        object: Object::Files,
        lines: &[
            "read fault\n",
            "write fault\n",
            "read fault\n",
            "read fault\n",
        ],
    },
    Row {
        object: Object::Tpm,
        lines: &[
            "tpm fault\n",
            "tpm fault\n",
            "tpm fault\n",
            "tpm fault\n",
            "tpm fault\n",
            "tpm fault\n",
            "tpm fault\n",
            "tpm fault\n",
            "tpm fault\n",
            "tpm fault\n",
            "tpm fault\n",
        ],
    },
    Row {
        object: Object::Entropy,
        lines: &["entropy fault\n"],
    },
    Row {
        object: Object::Out,
        lines: &[
            "write fault\n",
            "write fault\n",
            "write fault\n",
            "write fault\n",
            "write fault\n",
            "write fault\n",
            "no token: u\nwrite fault\n",
        ],
    },
];

/// The failing calls of an object: the one call, if it is this object's.
fn fails(alloc: Global, here: bool, call: u64, done: bool) -> Result<List<Fail>, Memory> {
    let mut list = List::new(alloc);
    if here {
        list.push(Fail { call, done })?;
    }
    Ok(list)
}

/// What a run left.
#[derive(Drop)]
struct Left {
    status: u8,
    out: MemSink,
    err: MemSink,
}

/// Runs the script with one failing call.
fn run_failing(alloc: Global, object: Object, call: u64, done: bool) -> Result<Left, Memory> {
    let mut words = List::new(alloc);
    for word in ["state", "script", "--file", "s"] {
        words.push(Name::from_text(alloc, word)?)?;
    }
    let mut files = MemFiles::new(alloc, fails(alloc, object == Object::Files, call, done)?);
    files.put("s", SCRIPT.as_bytes())?;
    let mut tpm = SoftTpm::new(
        State::fresh(alloc, ALL_BANKS),
        fails(alloc, object == Object::Tpm, call, done)?,
    );
    let mut draws = List::new(alloc);
    draws.push([7; 32])?;
    let mut entropy = ListEntropy::new(draws, fails(alloc, object == Object::Entropy, call, done)?);
    let mut out = MemSink::new(alloc, fails(alloc, object == Object::Out, call, done)?);
    let mut err = MemSink::new(alloc, fails(alloc, object == Object::Err, call, done)?);
    let status = run(
        alloc,
        words.as_slice(),
        &mut files,
        &mut tpm,
        &mut entropy,
        &mut out,
        &mut err,
    );
    Ok(Left { status, out, err })
}

/// Each call of the files, the TPM, the random words and standard output fails: status 5 and its line.
/// The call behind the last one is never made.
#[test]
fn stops_at_each_fault(rt: HostRuntime) -> Result<(), Failed> {
    let alloc = rt.alloc();
    for row in &ROWS {
        for done in [false, true] {
            for (call, line) in row.lines.iter().enumerate() {
                let left = run_failing(alloc, row.object, call as u64, done)?;
                assert_eq!(rt; left.status, 5);
                assert_eq!(rt; left.err.bytes(), line.as_bytes());
                assert!(rt; OUT.as_bytes().starts_with(left.out.bytes()));
            }
            let left = run_failing(alloc, row.object, row.lines.len() as u64, done)?;
            assert_eq!(rt; left.status, 7);
            assert_eq!(rt; left.out.bytes(), OUT.as_bytes());
            assert_eq!(rt; left.err.bytes(), ERR.as_bytes());
        }
    }
    Ok(())
}

/// A failing write on standard error changes nothing else.
#[test]
fn goes_on_after_a_fault_of_standard_error(rt: HostRuntime) -> Result<(), Failed> {
    let left = run_failing(rt.alloc(), Object::Err, 0, false)?;
    assert_eq!(rt; left.status, 7);
    assert_eq!(rt; left.out.bytes(), OUT.as_bytes());
    assert_eq!(rt; left.err.bytes(), b"".as_slice());
    Ok(())
}
