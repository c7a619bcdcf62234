ghost use Rattle.std.specs.Prelude.{◌≡◌, ◌<◌, ◌^◌};
ghost use Rattle.component_make.specs.FirmwareFiles.{mask_in, early_component as early_name, late_component as late_name};

/// What of the firmware a lock is of (TCG PC Client Platform Firmware Profile).
#[derive(Clone, Copy, Debug, PartialEq, Eq)]
pub enum FirmwareKind {
    /// Its code and that of option ROMs, which it measures into PCR 0 and 2.
    Code,
    /// What configures these, which it measures into PCR 1 and 3.
    Config,
}

impl FirmwareKind {
    /// The mask of its PCRs, of which bit i stands for PCR i.
    pub fn pcrs(self) -> u32
        ensures value { result ≡ mask_in self }
        ensures bound { result < 2 ^ 24 }
    {
        match self {
            FirmwareKind::Code => 0b0101,
            FirmwareKind::Config => 0b1010,
        }
    }

    /// The component of what was measured before the separators.
    pub(crate) fn early_component(self) -> &'static str
        ensures { result.now ≡ early_name self }
    {
        match self {
            FirmwareKind::Code => "250-firmware-code-early",
            FirmwareKind::Config => "250-firmware-config-early",
        }
    }

    /// The component of what was measured behind them.
    pub(crate) fn late_component(self) -> &'static str
        ensures { result.now ≡ late_name self }
    {
        match self {
            FirmwareKind::Code => "550-firmware-code-late",
            FirmwareKind::Config => "550-firmware-config-late",
        }
    }
}
