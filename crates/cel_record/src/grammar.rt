//! The grammar of records, apart from the order of its tests.
ghost use Rattle.std.specs.Prelude.{◌≡◌, ◌↔◌, Ok};
ghost use Rattle.serde_json.specs.Data.{Data};
ghost use Rattle.cel_record.specs.IsRecord.{IsRecord};
ghost use Rattle.cel_record.specs.RecordText.{record_of};
ghost use Rattle.cel_record.specs.Spelled.{Spelled};

/// A value passes the tests of a record in their order, and gives a record, exactly where it is that
/// record in plain words: its `pcr` is the record's, and its `digests` state the record's digests, each
/// bank's once, and no other of the four banks. So `read_record` answers Ok exactly there.
pub fn records_are_exact()
    ensures { (d : Data) (r : Spelled) → record_of d ≡ Ok r ↔ IsRecord d r }
{}
