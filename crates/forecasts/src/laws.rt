//! The laws of the tables of predictions.
ghost use Rattle.std.specs.Prelude.{◌≡◌, ◌≢◌, ◌↔◌, ℕ, true, List, []};
ghost use Rattle.hash_bank.specs.declared.banks.Banks.{Banks};
ghost use Rattle.hash_bank.specs.Banks.{has_bank};
ghost use Rattle.policy_digest.specs.PlainTable.{PlainTable};
ghost use Rattle.tpm_model.specs.Opening.{Open};
ghost use Rattle.tpm_model.specs.Pcrs.{HasValues, pcr_of};
ghost use Rattle.forecasts.specs.Forecast.{Forecast, Holds, IsInRow, IsProtected, TableOf};

/// The table of a forecast protects the PCRs that are asked for, whose log replays to the value that they hold, and
/// whose log some choice of variants of all components up to the end of the window explains; and no others.
pub fn forecasts_protect()
    ensures protects { (f : Forecast) (table : PlainTable) → TableOf f table → (p : ℕ) → IsInRow table p ↔ IsProtected f p }
{}

/// The table of a forecast is open exactly where its bank is present, and each protected PCR holds a value that some
/// choice of variants, at some cut of the window, measures; for a table of PCRs that are taken together, one cut and one
/// choice for all of them. Where the table has a row, some PCR is protected, and its value tells that the bank is present.
pub fn forecasts_open()
    ensures opens { (f : Forecast) (table : PlainTable) (banks : Banks) (pcrs : List (List ℕ)) → HasValues banks pcrs → TableOf f table
        → Open table banks pcrs ↔ (has_bank banks f.bank ≡ true) × Holds f (pcr_of banks pcrs f.bank) }
    ensures rows { (f : Forecast) (table : PlainTable) (banks : Banks) (pcrs : List (List ℕ)) → HasValues banks pcrs → TableOf f table → table.rows ≢ []
        → Open table banks pcrs ↔ Holds f (pcr_of banks pcrs f.bank) }
{}
