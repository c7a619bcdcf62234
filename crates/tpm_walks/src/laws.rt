//! The laws of trails that walk tables.
ghost use Rattle.std.specs.Prelude.{◌≡◌, ◌≢◌, ◌↔◌, ℕ, ◌<◌, true, List, [], ◌∷◌, ◌++◌, Contains, length, reverse};
ghost use Rattle.std.specs.List.{AllByRecursion};
ghost use Rattle.hash_bank.specs.declared.bank.Bank.{Bank};
ghost use Rattle.hash_bank.specs.declared.bank.Bank.TheVariants.{Sha256};
ghost use Rattle.hash_bank.specs.HashedString.{HashedString, NoClash};
ghost use Rattle.hash_bank.specs.declared.banks.Banks.{Banks};
ghost use Rattle.policy_digest.specs.Plain.{plain_table};
ghost use Rattle.policy_digest.specs.PlainTable.{PlainRow, PlainTable, root_of, top_of_row};
ghost use Rattle.policy_digest.specs.Table.{valid_table};
ghost use Rattle.policy_digest.specs.TableStrings.{row_strings, table_strings};
ghost use Rattle.policy_digest.specs.declared.table.Table.{Table};
ghost use Rattle.policy_roots.specs.Held.{AreHeld};
ghost use Rattle.policy_roots.specs.Rows.{HasLists, HasRows};
ghost use Rattle.tpm_model.specs.declared.trail.TrailEntry.{TrailEntry};
ghost use Rattle.tpm_model.specs.declared.trail.TrailEntry.TheVariants.{Pcr};
ghost use Rattle.tpm_model.specs.Opening.{Open};
ghost use Rattle.tpm_model.specs.Pcrs.{HasValues};
ghost use Rattle.tpm_model.specs.SessionRules.{are_members};
ghost use Rattle.tpm_model.specs.Shape.{IsEntryShape};
ghost use Rattle.tpm_model.specs.Trails.{trail_digest};
ghost use Rattle.tpm_model.specs.ValidTable.{IsValidTable};
ghost use Rattle.tpm_model.specs.WholeTie.{AreTiedEntries};
ghost use Rattle.tpm_model.specs.World.{World};
ghost use Rattle.tpm_walks.specs.ByValues.{IsOpenByValues};
ghost use Rattle.tpm_walks.specs.Known.{IsTrail};
ghost use Rattle.tpm_walks.specs.Walks.{EndsWithRow, LooksAt, ReadsNot, Walks, row_entries};

/// A session whose digest is the top of a row walked the row last, behind a trail that leads to the policy
/// before the row: where what it hashed and the row's strings are among strings of which no two clash. And each
/// walk of the row leads from that policy to the top.
pub fn rows_are_walked()
    ensures row { (hashed : List HashedString) (bank : Bank) (before : List ℕ) (row : PlainRow) (trail : List TrailEntry) → NoClash (Contains hashed)
        → AreHeld (Contains hashed) (row_strings bank before row) → HasLists row → length before ≡ 32 → IsTrail (Contains hashed) trail
        → trail_digest Sha256 trail ≡ top_of_row bank before row → EndsWithRow bank before row trail }
    ensures onward { (bank : Bank) (row : PlainRow) (earlier : List TrailEntry) (place : ℕ) → place < length row.lists → HasLists row
        → trail_digest Sha256 (earlier ++ row_entries bank (trail_digest Sha256 earlier) row place) ≡ top_of_row bank (trail_digest Sha256 earlier) row }
{}

/// A session whose digest is the root of a table walked the table: where what it hashed and the table's strings
/// are among strings of which no two clash. And each walk of the table leads to its root.
pub fn tables_are_walked()
    ensures valid { (hashed : List HashedString) (table : Table) (trail : List TrailEntry) → NoClash (Contains hashed)
        → AreHeld (Contains hashed) (table_strings (plain_table table)) → valid_table table ≡ true → IsTrail (Contains hashed) trail
        → trail_digest Sha256 trail ≡ root_of (plain_table table) → Walks trail (plain_table table) }
    ensures plain_valid { (hashed : List HashedString) (table : PlainTable) (trail : List TrailEntry) → NoClash (Contains hashed)
        → AreHeld (Contains hashed) (table_strings table) → IsValidTable table → IsTrail (Contains hashed) trail
        → trail_digest Sha256 trail ≡ root_of table → Walks trail table }
    ensures plain { (hashed : List HashedString) (table : PlainTable) (trail : List TrailEntry) → NoClash (Contains hashed)
        → AreHeld (Contains hashed) (table_strings table) → HasRows table → IsTrail (Contains hashed) trail
        → trail_digest Sha256 trail ≡ root_of table → Walks trail table }
    ensures onward { (table : PlainTable) (trail : List TrailEntry) → HasRows table → Walks trail table → trail_digest Sha256 trail ≡ root_of table }
{}

/// The trail of a session of SHA-256 that hangs together with a world, in a state that keeps its rules, is known to be
/// that of a session; and so it is without its last entry.
pub fn tied_trails_are_known()
    ensures tied { (w : World) (trail : List TrailEntry) → AreTiedEntries w Sha256 (reverse trail) → are_members Sha256 (reverse trail) ≡ true
        → AllByRecursion (IsEntryShape Sha256) trail → IsTrail (Contains w.hashed) trail }
    ensures before { (hashed : List HashedString) (trail : List TrailEntry) (entry : TrailEntry) → IsTrail (Contains hashed) (trail ++ entry ∷ []) → IsTrail (Contains hashed) trail }
{}

/// A trail that looks at the PCRs of the second row first is no walk, nor is the empty one. In a walk
/// stands a look at the PCRs of each row, and no PolicyAuthorizeNV.
pub fn walks_are_in_order()
    ensures turned { (bank : Bank) (first second : PlainRow) (seen values : List ℕ) → first.pcrs ≢ second.pcrs
        → Walks (Pcr bank second.pcrs seen ∷ Pcr bank first.pcrs values ∷ []) (record { bank = bank; rows = first ∷ second ∷ [] }) → ⊥ }
    ensures empty { (bank : Bank) (row : PlainRow) (rows : List PlainRow) → Walks [] (record { bank = bank; rows = row ∷ rows }) → ⊥ }
    ensures looks { (table : PlainTable) (trail : List TrailEntry) → Walks trail table → AllByRecursion (λ (row : PlainRow). LooksAt table.bank row trail) table.rows }
    ensures reads_not { (table : PlainTable) (trail : List TrailEntry) → Walks trail table → AllByRecursion ReadsNot trail }
{}

/// A valid table is open exactly where its bank is present, and for each of its rows the values that the row's PCRs
/// hold, in ascending order, are one of the row's lists.
pub fn tables_are_open_by_values()
    ensures values { (table : Table) (banks : Banks) (pcrs : List (List ℕ)) → valid_table table ≡ true → HasValues banks pcrs
        → Open (plain_table table) banks pcrs ↔ IsOpenByValues table banks pcrs }
{}
