//! What no clause says: printed texts, each public call with ample memory.
use hash_bank::{Bank, Digest};
use pcrlock_answer::{
    Answer, Place, answer_line, checked_line, enrolled_line, key_line, limit, locked_line,
    malformed, malformed_at, no_such_file, pin_line, proved_line, records_line, status_line,
    unlocked_line,
};
use pl_base::{Name, Small};
use std::process::Abort;
use std::str;
use std::test::Fail;

// The answer is told by this line.
fn check_answer(
    rt: &(impl Abort + AllocGlobal),
    answer: Answer,
    expected: &str,
) -> Result<(), Fail> {
    let line = answer_line(rt.alloc(), &answer)?;
    assert_eq!(rt; str::from_utf8(line.as_slice())?, expected);
    Ok(())
}

// A malformed file is told by this line.
fn check_place(rt: &(impl Abort + AllocGlobal), place: Place, expected: &str) -> Result<(), Fail> {
    let path = Name::from_text(rt.alloc(), "a/b c")?;
    check_answer(rt, Answer::Malformed { path, place }, expected)
}

// The digests of SHA-256 that a PCR has after one and after two extends by the hash of `abc`.
const ONCE: &str = "589f9ffed4c477966bfb8d41f37895b08c69047df8f911d6f3b57fbe08faee8d";

const TWICE: &str = "bdeb6c6dc63852834c89f67066194207ce7d3806ea40ca58dc079246ef58a926";

#[test]
fn answers_are_told(rt: HostRuntime) -> Result<(), Fail> {
    let name = Name::from_text(rt.alloc(), "x y")?;
    let once = Digest::from_hex(Bank::Sha256, ONCE)?;
    let twice = Digest::from_hex(Bank::Sha256, TWICE)?;
    check_answer(
        &rt,
        Answer::NotLiteral {
            pcr: 11,
            now: twice,
            sealed: once,
        },
        "not literal: pcr 11 holds bdeb6c6dc63852834c89f67066194207ce7d3806ea40ca58dc079246ef58a926, sealed to 589f9ffed4c477966bfb8d41f37895b08c69047df8f911d6f3b57fbe08faee8d\n",
    )?;
    check_answer(
        &rt,
        Answer::WrongBinding {
            session: once,
            object: twice,
        },
        "wrong binding: session 589f9ffed4c477966bfb8d41f37895b08c69047df8f911d6f3b57fbe08faee8d, object bdeb6c6dc63852834c89f67066194207ce7d3806ea40ca58dc079246ef58a926\n",
    )?;
    check_answer(&rt, Answer::BadWords, "bad words\n")?;
    check_place(
        &rt,
        Place::At(18446744073709551615),
        "malformed: a/b c: 18446744073709551615\n",
    )?;
    check_place(&rt, Place::Json, "malformed: a/b c: json\n")?;
    check_place(&rt, Place::Records, "malformed: a/b c: records\n")?;
    check_place(&rt, Place::BadName, "malformed: a/b c: name\n")?;
    check_place(
        &rt,
        Place::Rule(name.copy(rt.alloc())?),
        "malformed: a/b c: rule x y\n",
    )?;
    check_answer(
        &rt,
        Answer::NoSuchFile(name.copy(rt.alloc())?),
        "no such file: x y\n",
    )?;
    check_answer(
        &rt,
        Answer::Limit {
            kind: Name::from_text(rt.alloc(), "script-bytes")?,
            number: 4194305,
        },
        "limit: script-bytes 4194305\n",
    )?;
    check_answer(
        &rt,
        Answer::CounterEnd { writes: true },
        "counter at its end: writes\n",
    )?;
    check_answer(
        &rt,
        Answer::CounterEnd { writes: false },
        "counter at its end: update\n",
    )?;
    check_answer(&rt, Answer::ReadFault, "read fault\n")?;
    check_answer(&rt, Answer::WriteFault, "write fault\n")?;
    check_answer(&rt, Answer::EntropyFault, "entropy fault\n")?;
    check_answer(&rt, Answer::TpmFault, "tpm fault\n")?;
    check_answer(&rt, Answer::Memory, "no memory\n")?;
    check_answer(&rt, Answer::NoToken(name), "no token: x y\n")?;
    check_answer(&rt, Answer::NoObject(0x81000000), "no object: 81000000\n")?;
    check_answer(
        &rt,
        Answer::NoDigest {
            component: Name::from_text(rt.alloc(), "650-kernel")?,
            variant: Name::from_text(rt.alloc(), "-")?,
            place: 255,
        },
        "no digest: 650-kernel - 255\n",
    )?;
    check_answer(&rt, Answer::SessionsFull, "sessions full: 64\n")?;
    check_answer(
        &rt,
        Answer::BankAbsent(Bank::Sha512),
        "bank absent: sha512\n",
    )?;
    Ok(())
}

#[test]
fn control_bytes_are_not_printed(rt: HostRuntime) -> Result<(), Fail> {
    let path = "a\u{1b}[2J\n\t\u{0}\u{1f} \u{7f}~é\u{80}";
    check_answer(
        &rt,
        no_such_file(rt.alloc(), path)?,
        "no such file: a?[2J???? ?~é\u{80}\n",
    )?;
    check_answer(
        &rt,
        malformed(
            rt.alloc(),
            "\r",
            Place::Rule(Name::from_text(rt.alloc(), "x\ny")?),
        )?,
        "malformed: ?: rule x?y\n",
    )?;
    check_answer(&rt, malformed_at(rt.alloc(), "x", 7)?, "malformed: x: 7\n")?;
    check_answer(
        &rt,
        limit(rt.alloc(), "lines", 65537)?,
        "limit: lines 65537\n",
    )?;
    Ok(())
}

#[test]
fn answers_of_policies_are_told(rt: HostRuntime) -> Result<(), Fail> {
    let once = Digest::from_hex(Bank::Sha256, ONCE)?;
    let twice = Digest::from_hex(Bank::Sha256, TWICE)?;
    check_answer(
        &rt,
        Answer::NotForeseen {
            pcrs: 1 << 11,
            now: once,
        },
        "not foreseen: pcr 11 holds 589f9ffed4c477966bfb8d41f37895b08c69047df8f911d6f3b57fbe08faee8d\n",
    )?;
    check_answer(
        &rt,
        Answer::NotForeseen {
            pcrs: 1 | 1 << 4 | 1 << 11,
            now: once,
        },
        "not foreseen: pcrs 0,4,11 hold 589f9ffed4c477966bfb8d41f37895b08c69047df8f911d6f3b57fbe08faee8d\n",
    )?;
    check_answer(
        &rt,
        Answer::IndexTaken {
            handle: 0x01800100,
            name: once,
        },
        "index taken: 01800100 589f9ffed4c477966bfb8d41f37895b08c69047df8f911d6f3b57fbe08faee8d\n",
    )?;
    check_answer(
        &rt,
        Answer::Outdated {
            index: once,
            file: twice,
        },
        "outdated: index 589f9ffed4c477966bfb8d41f37895b08c69047df8f911d6f3b57fbe08faee8d, file bdeb6c6dc63852834c89f67066194207ce7d3806ea40ca58dc079246ef58a926\n",
    )?;
    check_answer(
        &rt,
        Answer::PinRefused {
            given: twice,
            index: once,
        },
        "pin refused: given bdeb6c6dc63852834c89f67066194207ce7d3806ea40ca58dc079246ef58a926, index 589f9ffed4c477966bfb8d41f37895b08c69047df8f911d6f3b57fbe08faee8d\n",
    )?;
    Ok(())
}

#[test]
fn further_answers_are_told(rt: HostRuntime) -> Result<(), Fail> {
    let name = Name::from_text(rt.alloc(), "x y")?;
    check_answer(&rt, Answer::NothingProtected, "nothing protected\n")?;
    check_answer(&rt, Answer::NoPolicy(name), "no policy: x y\n")?;
    check_answer(&rt, Answer::NoIndex(0x01800100), "no index: 01800100\n")?;
    check_answer(
        &rt,
        Answer::UnwrittenIndex(0x01ffffff),
        "unwritten index: 01ffffff\n",
    )?;
    check_answer(&rt, Answer::NoSeparator(2), "no separator: pcr 2\n")?;
    check_answer(&rt, Answer::NotProved(1), "not proved: line 1\n")?;
    Ok(())
}

#[test]
fn further_commands_print_lines(rt: HostRuntime) -> Result<(), Fail> {
    assert_eq!(rt;
        pin_line(rt.alloc(), &[1; 32])?.as_slice(),
        b"pin 0101010101010101010101010101010101010101010101010101010101010101\n".as_slice()
    );
    assert_eq!(rt;
        locked_line(rt.alloc(), 0, Some(256))?.as_slice(),
        b"locked 0 256\n".as_slice()
    );
    assert_eq!(rt;
        locked_line(rt.alloc(), 1, None)?.as_slice(),
        b"locked 1\n".as_slice()
    );
    assert_eq!(rt;
        unlocked_line(rt.alloc(), 2)?.as_slice(),
        b"unlocked 2\n".as_slice()
    );
    assert_eq!(rt;
        proved_line(rt.alloc(), 4)?.as_slice(),
        b"proved 4\n".as_slice()
    );
    assert_eq!(rt;
        checked_line(rt.alloc(), 0)?.as_slice(),
        b"checked 0\n".as_slice()
    );
    Ok(())
}

#[test]
fn commands_print_lines(rt: HostRuntime) -> Result<(), Fail> {
    let key = Small::from_slice(&[0x00, 0xff]).ok_or("no room")?;
    assert_eq!(rt;
        key_line(rt.alloc(), &key)?.as_slice(),
        b"key 00ff\n".as_slice()
    );
    assert_eq!(rt;
        enrolled_line(rt.alloc(), 0x81000000)?.as_slice(),
        b"enrolled 81000000\n".as_slice()
    );
    assert_eq!(rt;
        enrolled_line(rt.alloc(), 0xabc)?.as_slice(),
        b"enrolled 00000abc\n".as_slice()
    );
    assert_eq!(rt;
        records_line(rt.alloc(), 0)?.as_slice(),
        b"records 0\n".as_slice()
    );
    assert_eq!(rt;
        records_line(rt.alloc(), 20480)?.as_slice(),
        b"records 20480\n".as_slice()
    );
    assert_eq!(rt; status_line(rt.alloc(), 0)?.as_slice(), b"= 0\n".as_slice());
    assert_eq!(rt;
        status_line(rt.alloc(), 255)?.as_slice(),
        b"= 255\n".as_slice()
    );
    Ok(())
}
