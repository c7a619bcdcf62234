use pl_base::List;

/// An algorithm that the log's records may have digests of.
#[derive(Clone, Copy, Debug, PartialEq, Eq)]
pub struct Algorithm {
    /// The algorithm's number (TPM_ALG_ID).
    pub number: u16,
    /// The bytes of its digests, 1 to 64.
    pub size: u16,
}

/// What a log's first record says of it (TCG_EfiSpecIDEvent).
#[derive(Debug, Drop)]
pub struct SpecId {
    /// The class of the platform, as 0 for a client.
    pub platform: u32,
    /// The minor version of the profile.
    pub minor: u8,
    /// The major version of the profile.
    pub major: u8,
    /// The errata of the profile.
    pub errata: u8,
    /// How many 32-bit words a UINTN of the firmware has.
    pub uintn: u8,
    /// The algorithms, 1 to 16, each named once.
    pub algorithms: List<Algorithm>,
    /// The vendor's own bytes, at most 255.
    pub vendor: List<u8>,
}
