//! The lines of `log`.

ghost use Rattle.std.specs.Prelude.{◌≡◌, ◌++◌, [], flat_map, option_copied, slice_index_or, length, IfOk, OnOk, string_bytes, None};
ghost use Rattle.std.specs.List.{range_with_len};
ghost use Rattle.cel_record.specs.Listed.{listed, listed_in};
ghost use Rattle.component_tree.specs.PlainTree.{plain};
ghost use Rattle.pcr_replay.specs.Row.{row, rows};
ghost use Rattle.record_match.specs.Noted.{IsListingOf};
ghost use Rattle.pcrlock_words.specs.LogText.{event_name, id_at, lister_text, log_text, pcr_text, record_text, records_from, compared_text};

use component_tree::Tree;
use hash_bank::{Bank, Digest, Digests};
use pcr_replay::{LogRecord, Origin, replay_all};
use pl_base::Memory;
use record_match::Listing;
use std::alloc::Global;
use std::fmt::Write;
use std::{fmt, str};

/// The lines of `log`.
///
/// There is one for each record of the combined log: its number from 0, its PCR, the name of the event
/// type or `user`, its digest in the bank, and the component that lists it, with `-` where there is none.
/// Then there is one for each of the 24 PCRs: its replay since a restart at the locality, or `-`, the
/// value that it has `now`, and `ok`, `differs` or `nodigest`. The last one is the count of records of the
/// userspace log that were `skipped`.
#[tactic(auto, unfolding(crate::specs::LogText::log_text))]
pub fn log_text(
    alloc: Global,
    list: &[LogRecord],
    tree: &Tree,
    bank: Bank,
    locality: u8,
    now: &[Digest],
    skipped: u32,
) -> Result<Vec<u8>, Memory>
    requires { length now.now ≡ 24 }
    ensures { IfOk result (λ text. text.items ≡ log_text (rows list.now) (plain tree.now.components) bank locality now.now skipped) }
{
    let mut text = String::new(alloc);
    let listing = Listing::new(alloc, tree)?;
    write_records(&mut text, list, tree, &listing, bank)?;
    let replayed = replay_all(list, bank, locality);
    write_pcrs(&mut text, &replayed, now)?;
    writeln!(text, "skipped {skipped}")?;
    Ok(text.into_bytes())
}

// The name of an event type, for those that are printed by name.
fn event_name(kind: u32) -> Option<&'static str>
    ensures { option_copied result ≡ event_name kind }
{
    match kind {
        3 => Some("EV_NO_ACTION"),
        4 => Some("EV_SEPARATOR"),
        5 => Some("EV_ACTION"),
        0xd => Some("EV_IPL"),
        0x8000_0003 => Some("EV_EFI_BOOT_SERVICES_APPLICATION"),
        0x8000_0007 => Some("EV_EFI_ACTION"),
        0x8000_00e0 => Some("EV_EFI_VARIABLE_AUTHORITY"),
        _ => None,
    }
}

// An event type, as it is printed.
#[derive(Clone, Copy)]
struct EventType(u32);

impl fmt::Display for EventType {
    ghost use Rattle.std.specs.Prelude.{Some};
    ghost use Rattle.pcrlock_words.specs.LogText.{event_text};

    ghost output = { λ event. Some (event_text event.0) };

    fn fmt<W: fmt::Write>(&self, f: &mut fmt::Formatter<W>) -> fmt::Result {
        if let Some(name) = event_name(self.0) {
            return f.write_str(name);
        }
        let mut room = [0u8; 8];
        let Ok(()) = hex::encode_to_slice(self.0.to_be_bytes(), &mut room) else {
            unreachable!();
        };
        let Ok(digits) = str::from_utf8(&room) else {
            unreachable!();
        };
        write!(f, "0x{digits}")
    }
}

// Who measured a record, as it is printed.
#[derive(Clone, Copy)]
struct Measurer(Origin);

impl fmt::Display for Measurer {
    ghost use Rattle.std.specs.Prelude.{Some};
    ghost use Rattle.pcrlock_words.specs.LogText.{origin_text};

    ghost output = { λ measurer. Some (origin_text measurer.0) };

    fn fmt<W: fmt::Write>(&self, f: &mut fmt::Formatter<W>) -> fmt::Result {
        match self.0 {
            Origin::Firmware(kind) => {
                let event = EventType(kind);
                write!(f, "{event}")
            }
            Origin::User => write!(f, "user"),
        }
    }
}

// A digest, or a dash where there is none.
#[derive(Drop)]
struct OrDash<'a>(&'a Option<Digest>);

impl<'a> fmt::Display for OrDash<'a> {
    ghost use Rattle.std.specs.Prelude.{Some};
    ghost use Rattle.pcrlock_words.specs.LogText.{digest_text};

    ghost output = { λ digest. Some (digest_text digest.0.now) };

    fn fmt<W: fmt::Write>(&self, f: &mut fmt::Formatter<W>) -> fmt::Result {
        match self.0 {
            Some(digest) => write!(f, "{digest}"),
            None => write!(f, "-"),
        }
    }
}

// The id of the component of this number.
pub(crate) fn component_id(tree: &Tree, number: u32) -> &str
    ensures { result.now ≡ id_at (plain tree.now.components) number }
{
    match tree.components.as_slice().get(number as usize) {
        Some(component) => component.id.text(),
        None => "",
    }
}

// The component that lists the record, or a dash.
fn lister<'a>(tree: &'a Tree, listing: &Listing, record: &LogRecord) -> &'a str
    requires { IsListingOf listing.now (plain tree.now.components) }
    ensures { result.now ≡ lister_text (plain tree.now.components) (row record.now) }
{
    match listing.find(tree, record) {
        Some(number) => component_id(tree, number),
        None => "-",
    }
}

// The digest in the bank, if it is there.
fn digest_in(digests: &Digests, bank: Bank) -> &Option<Digest>
    ensures { result.now ≡ listed_in bank (listed digests.now) }
{
    match bank {
        Bank::Sha1 => &digests.sha1,
        Bank::Sha256 => &digests.sha256,
        Bank::Sha384 => &digests.sha384,
        Bank::Sha512 => &digests.sha512,
    }
}

// Writes the line of a record.
fn write_record(
    text: &mut String,
    tree: &Tree,
    listing: &Listing,
    bank: Bank,
    number: usize,
    record: &LogRecord,
) -> Result<(), Memory>
    requires { IsListingOf listing.now (plain tree.now.components) }
    ensures { OnOk result (string_bytes text.new ≡ string_bytes text.old ++ record_text (plain tree.now.components) bank number (row record.now)) }
{
    let pcr = record.pcr;
    let measurer = Measurer(record.origin);
    let found = digest_in(&record.digests, bank);
    let digest = OrDash(found);
    let component = lister(tree, listing, record);
    writeln!(text, "{number} {pcr} {measurer} {digest} {component}")?;
    Ok(())
}

// Writes the lines of the records.
fn write_records(
    text: &mut String,
    list: &[LogRecord],
    tree: &Tree,
    listing: &Listing,
    bank: Bank,
) -> Result<(), Memory>
    requires { IsListingOf listing.now (plain tree.now.components) }
    ensures { OnOk result (string_bytes text.new ≡ string_bytes text.old ++ records_from (plain tree.now.components) bank 0 (rows list.now)) }
{
    for (number, record) in list.iter().enumerate() {
        write_record(text, tree, listing, bank, number, record)?;
    }
    Ok(())
}

// How a PCR's replay and its value compare.
fn compared(replay: &Option<Digest>, now: &Digest) -> &'static str
    ensures { result.now ≡ compared_text replay.now now.now }
{
    match replay {
        None => "nodigest",
        Some(replay) if replay.as_slice() == now.as_slice() => "ok",
        Some(_) => "differs",
    }
}

// Writes the line of a PCR.
fn write_pcr(
    text: &mut String,
    pcr: u8,
    replay: &Option<Digest>,
    now: &Digest,
) -> Result<(), Memory>
    ensures { OnOk result (string_bytes text.new ≡ string_bytes text.old ++ pcr_text pcr replay.now now.now) }
{
    let compared = compared(replay, now);
    let replay = OrDash(replay);
    writeln!(text, "pcr {pcr} {replay} {now} {compared}")?;
    Ok(())
}

// Writes the lines of the 24 PCRs.
fn write_pcrs(text: &mut String, replayed: &[Option<Digest>], now: &[Digest]) -> Result<(), Memory>
    requires replayed { length replayed.now ≡ 24 }
    requires now { length now.now ≡ 24 }
    ensures { OnOk result (string_bytes text.new ≡ string_bytes text.old ++ flat_map (λ pcr. pcr_text pcr (slice_index_or replayed.now pcr None) (slice_index_or now.now pcr [])) (range_with_len 0 24)) }
{
    for pcr in 0..24u8 {
        let place = pcr as usize;
        write_pcr(text, pcr, &replayed[place], &now[place])?;
    }
    Ok(())
}
