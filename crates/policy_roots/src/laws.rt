//! The laws of policies' strings and of tables' roots.
ghost use Rattle.std.specs.Prelude.{◌≡◌, ℕ, ◌^◌, ◌<◌, true, List, [], Contains, length};
ghost use Rattle.std.specs.List.{All};
ghost use Rattle.hash_bank.specs.declared.bank.Bank.{Bank};
ghost use Rattle.hash_bank.specs.declared.bank.Bank.TheVariants.{Sha1, Sha256};
ghost use Rattle.hash_bank.specs.Hash.{size_in};
ghost use Rattle.hash_bank.specs.HashedString.{HashedString, NoClash};
ghost use Rattle.nv_index.specs.IndexName.{index_string};
ghost use Rattle.nv_index.specs.declared.index.NvPublic.{NvPublic};
ghost use Rattle.policy_digest.specs.Plain.{plain_table};
ghost use Rattle.policy_digest.specs.PlainTable.{PlainTable, root_of};
ghost use Rattle.policy_digest.specs.Strings.{nv_string_in, or_string_in, pcr_string_in};
ghost use Rattle.policy_digest.specs.Table.{valid_table};
ghost use Rattle.policy_digest.specs.TableStrings.{table_strings};
ghost use Rattle.policy_digest.specs.declared.table.Table.{Table};
ghost use Rattle.policy_roots.specs.Held.{AreHeld};
ghost use Rattle.policy_roots.specs.Looks.{IsSameLook};
ghost use Rattle.policy_roots.specs.Rows.{HasRows};

/// What is hashed for one policy is hashed for no other: the strings of PolicyPCR, PolicyOR and
/// PolicyAuthorizeNV differ from each other, and where what they stand for differs.
pub fn strings_differ()
    ensures or_is_no_pcr { (hash bank : Bank) (before : List ℕ) (list : List (List ℕ)) (pcrs : ℕ) (values : List ℕ) → length before ≡ size_in hash
        → or_string_in hash list ≡ pcr_string_in hash before bank pcrs values → ⊥ }
    ensures nv_is_no_pcr { (hash bank : Bank) (before name : List ℕ) (pcrs : ℕ) (values : List ℕ) → length before ≡ size_in hash
        → nv_string_in hash name ≡ pcr_string_in hash before bank pcrs values → ⊥ }
    ensures nv_is_no_or { (hash : Bank) (name : List ℕ) (list : List (List ℕ)) → nv_string_in hash name ≡ or_string_in hash list → ⊥ }
    ensures looks { (hash bank other : Bank) (before after : List ℕ) (pcrs others : ℕ) (seen values : List ℕ) → length before ≡ length after
        → pcr_string_in hash before bank pcrs seen ≡ pcr_string_in hash after other others values → IsSameLook before after bank other pcrs others seen values }
    ensures lists { (hash : Bank) (some others : List (List ℕ)) → All (λ (d : List ℕ). length d ≡ size_in hash) some → All (λ (d : List ℕ). length d ≡ size_in hash) others
        → or_string_in hash some ≡ or_string_in hash others → some ≡ others }
    ensures names { (hash : Bank) (name other : List ℕ) → nv_string_in hash name ≡ nv_string_in hash other → name ≡ other }
    ensures handles { (some other : NvPublic) → some.handle < 2 ^ 32 → other.handle < 2 ^ 32
        → index_string some ≡ index_string other → some.handle ≡ other.handle }
    ensures policies { (some other : NvPublic) → index_string some ≡ index_string other → some.policy ≡ other.policy }
{}

/// Two valid tables with one root are one table, where the strings on the way to both roots are among
/// strings of which no two clash.
pub fn tables_differ()
    ensures valid { (hashed : List HashedString) (a b : Table) → NoClash (Contains hashed)
        → AreHeld (Contains hashed) (table_strings (plain_table a)) → AreHeld (Contains hashed) (table_strings (plain_table b))
        → valid_table a ≡ true → valid_table b ≡ true → root_of (plain_table a) ≡ root_of (plain_table b) → plain_table a ≡ plain_table b }
    ensures plain { (hashed : List HashedString) (a b : PlainTable) → NoClash (Contains hashed)
        → AreHeld (Contains hashed) (table_strings a) → AreHeld (Contains hashed) (table_strings b)
        → HasRows a → HasRows b → root_of a ≡ root_of b → a ≡ b }
{}

/// Tables without rows have one root, whatever their banks: only the root of a valid table tells it.
pub fn empty_tables_are_alike()
    ensures alike { root_of (record { bank = Sha1; rows = [] }) ≡ root_of (record { bank = Sha256; rows = [] }) }
    ensures apart { ◌≡◌ {A = PlainTable} (record { bank = Sha1; rows = [] }) (record { bank = Sha256; rows = [] }) → ⊥ }
{}
